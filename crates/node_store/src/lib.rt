//! The state of a node on a disk, as events.
//!
//! A store is a file of two banks (`gate_log`), whose bodies are the events that happened to the node, after the pieces
//! of a node where the store was rewritten. A body has exactly the bytes of its definition, and is refused exactly
//! where no value in range has them. A bank of format 2 has the bytes of equal parts once: its bodies name parts by
//! their digests, and say others in full. Both formats are read. A new store is of format 2, and each whole node is
//! written in it, so a bank of format 1 is read, and becomes one of format 2 by the next `Stage`.
//!
//! A layer above may rely on this: an opening gives the node that the disk reads as; a commit adds an event, or writes
//! the whole node after it into the other bank, and a crash at any moment leaves the node before the event or after it.
//!
//! Where a thing is:
//! - the body of an event or a piece of a node, and how it is read: `specs/Bodies.antt`; of a report
//!   `specs/Reports.antt`, `src/reports.rt`; of parts `specs/Parts.antt`, `src/parts.rt`; `src/spelling.rt`,
//!   `src/reading.rt`
//! - what an image of a node's store stands for, what a commit answers: `specs/Stands.antt`, `specs/Store.antt`; that a
//!   node is a state that `gate_log` keeps: `src/kept_node.rt`
//! - the bodies of format 2 and what they say in full: `specs/Digests.antt`, `src/by_digests.rt`, `src/resolving.rt`
//!   over `src/blobs.rt`; that they say one thing `proofs/Unfolded.antt`; lists that were named before `src/lists.rt`,
//!   `specs/Known.antt`, `proofs/KnownLists.antt`
//! - the opening of a node's store: `src/opening.rt` over `src/replaying.rt`, which takes the bodies of either format
//!   one by one, those in full by `src/taking.rt`; `specs/Taking.antt`; a list that the node holds is not read again
//!   `src/held.rt`, `specs/Held.antt`; that bodies lead to one node at most `proofs/Runs.antt`, `proofs/Meaning.antt`
//! - a commit: `src/store.rt`, `specs/Store.antt`; a disk that no call was made of `proofs/AtRest.antt`
//! - the live bank, to which an event is added, or which the whole node after it replaces: `src/bank.rt`,
//!   `specs/Bank.antt`, `proofs/BankAdds.antt`; that a bank of format 1 is empty where its node has no agent
//!   `proofs/NoBodies.antt`
//! - the texts that a store keeps in memory, which are the Blobs of a bank of format 2: `src/blobs.rt`,
//!   `specs/Growing.antt`; how they grow by those of a Stage `proofs/Lacking.antt`, how those of a node are chosen from
//!   them in place `proofs/Chosen.antt`; that those of the node are among them `proofs/AmongBlobs.antt`
//! - how an event is added: `src/adding.rt`; that its bodies count, and a crash among them leaves the node before it
//!   `proofs/AddedByDigests.antt`; what a commit says of it `proofs/BankWritten.antt`, `proofs/Committing.antt`
//! - the bodies of a whole node, one after the other: `src/whole.rt` over `src/next.rt` (the node after an event,
//!   looked at before it is applied), `specs/Whole.antt`, `specs/Next.antt`; that they fit a bank and lead to it
//!   `proofs/WholeSizes.antt`, `proofs/WholeByDigests.antt`, `proofs/Rewritten.antt`; that the bank has them alone then
//!   `proofs/BankRewritten.antt`
#![tactic(auto)]

mod adding;
mod bank;
mod blob;
mod blobs;
mod body;
mod by_digests;
mod digests;
mod error;
mod format;
mod held;
mod kept_node;
mod kinds;
mod known_list;
mod laws;
mod limits;
mod lists;
mod metas;
mod next;
mod opening;
mod parts;
mod reading;
mod replaying;
mod reports;
mod resolving;
mod spelling;
mod store;
mod taking;
mod whole;

pub use body::Body;
pub use error::StoreError;
pub use laws::{bodies_are_of_one, bodies_fit, images_have_one_meaning};
pub use limits::{BANK, MAX_BODY};
pub use metas::read_node_meta;
pub use opening::open_store;
pub use reading::read_body;
pub use reports::{NodeForm, put_report, read_report};
pub use store::NodeStore;
