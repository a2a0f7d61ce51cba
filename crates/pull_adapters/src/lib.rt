//! What a pull server reaches on a real machine: a shelf that is a folder, and a door at a TCP port (RFC 9293).
//!
//! `FolderShelf` and `PollDoor` are the traits of `pull_outside` over the system's files and connections. They show
//! nothing of what they hold, and each counts its failures. A layer above may rely on what the traits promise: a call
//! fails only where the count of faults rose, an item is appended or the buffer stays, and as many connections are
//! handed back as were given; no name leads out of the folder, and a bounded number of connections waits. What the
//! system gives or takes is in no clause: this crate is an edge that is trusted and tested. A connection goes from
//! `Arrivals`, until its request has come, to a `PollConn` that is given out, and from there to `Departures`.
//!
//! Where a thing is:
//! - where a folder that is a shelf keeps what it holds, which names it can have, and which keys a text has: the crate
//!   `shelf_layout`; how a file is read `src/item_files.rt`; which items are kept with their digests
//!   `src/last_items.rt`
//! - how many connections wait, for how long, and which is given out: `src/poll_door.rt`, `src/event_loop.rt`; what has
//!   come of a request `src/arrivals.rt`, `src/incoming.rt`; which requests are put off for others
//!   `src/large_answers.rt`; errors of `accept` `src/listening.rt`
//! - what is read and written of a connection that is served: `src/poll_conn.rt`; how its answer reaches a slow peer,
//!   and how it is ended `src/departures.rt`, `src/outgoing.rt`, `src/kept_answers.rt`, `src/unsent.rt`
#![tactic(auto)]

mod arrivals;
mod departures;
mod event_loop;
mod folder_shelf;
mod incoming;
mod item_files;
mod kept_answers;
mod large_answers;
mod last_items;
mod listening;
mod outgoing;
mod poll_conn;
mod poll_door;
mod shelf_folder;
mod unsent;

pub use folder_shelf::FolderShelf;
pub use last_items::LastItems;
pub use poll_conn::PollConn;
pub use poll_door::{DoorLimits, LINGER_SECONDS, PATIENCE_SECONDS, PollDoor, WHOLE_SECONDS};
