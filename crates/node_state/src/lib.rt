//! The state of a node, the Local Configuration Manager of PowerShell Desired State Configuration, and the table of
//! events that change it, as plain values.
//!
//! A node keeps three lists of parts: Pending, Current and Previous. `Node::why` says whether an event is allowed, and
//! why not: the first condition that fails; `Node::apply` makes the event's change, without memory but what
//! `Node::supply` gave before. A layer above may rely on it that each event makes exactly the change of its row in the
//! table, and that a sound node stays sound. A node is made again of its pieces.
//!
//! Where a thing is:
//! - where an event is allowed, and what it makes of a node: `specs/Table.antt`; `src/table.rt`, `src/apply.rt`; the
//!   memory that it needs `specs/Supply.antt`, `src/supply.rt`
//! - which nodes are sound, and that they stay so: `specs/Sound.antt`, `src/laws.rt`; `proofs/SoundSteps.antt`
//! - where the parts of a node come from; a node in pieces: `specs/Slots.antt`; `specs/Pieces.antt`, `src/placing.rt`,
//!   `proofs/Building.antt`
//! - which lists of parts a node may keep, and which fit a meta-configuration: `specs/Lists.antt`,
//!   `specs/Staging.antt`, `src/staging.rt`; `specs/Fits.antt`, `src/fitting.rt`; that those that fit are staged
//!   `proofs/FittingParts.antt`; the lists themselves, which are shared `src/shared.rt`
//! - its limits: `src/limits.rt`
#![tactic(auto)]

mod apply;
mod error;
mod event;
mod fitting;
mod laws;
mod limits;
mod list;
mod node;
mod piece;
mod placing;
mod shared;
mod staging;
mod supply;
mod table;

pub use error::{FitError, StageError};
pub use event::{Event, Stage, Why};
pub use fitting::fits;
pub use laws::{fitting_are_taken, parts_come_from_stages, piece_laws, step_laws};
pub use limits::{MAX_BYTES, MAX_REPORTS, OLDER_REPORTS};
pub use list::Staged;
pub use node::{Kept, Node};
pub use piece::Piece;
pub use shared::SharedParts;
pub use staging::{staged, staged_in_order, stored};
pub use supply::{Room, Supply};
