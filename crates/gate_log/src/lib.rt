//! Bodies on a disk, in the live one of two banks, that survive a crash at any moment.
//!
//! A body is appended to the live bank after its closed gate, and the gate is opened once the body is on the disk.
//! Where no capacity is left there, the bodies that are still wanted are put into the other bank, and one byte makes
//! that bank live.
//!
//! A layer above may rely on this: every image that a crash at any moment of a call may leave gives the bodies before
//! or after it, and after `Ok` the bodies after it; an opening hands over each body once, in order, or names the first
//! failure. No call but those that open takes memory. A log keeps no disk: each call takes the disk that it is of.
//! Where that layer says which bodies lead to which state, the same is said of states.
//!
//! Where a thing is:
//! - which bytes of a file give which bodies, and where a file is no store: `specs/Text.antt`; what a log is of and
//!   what its calls answer `specs/Log.antt`
//! - what takes the bodies of a store as they are read, and the first failure of a store: the trait `Replay` in
//!   `src/replay.rt`, `specs/Replay.antt`; `src/bodies.rt` keeps them all. That an image whose bodies all have a
//!   meaning is never refused: `never_refused` of `proofs/Both.antt`
//! - the bytes that the calls leave: `specs/Bytes.antt`
//! - what the images of a disk stand for, over any value: `specs/Standing.antt`
//! - a state that is kept as bodies, and what spells these: the traits `LoggedState` in `src/logged_state.rt`,
//!   `Spelling` in `src/spelling.rt`; what an image stands for then, what a change makes of the bodies, and the laws of
//!   both `specs/Kept.antt`, proved in `proofs/Leading.antt`
//! - a change that is added, and a whole state that is written anew: `src/keeping.rt`; several bodies, one after the
//!   other, `src/several.rt`, `specs/Several.antt`, `proofs/OneByOne.antt`
//! - how a cell is appended, how the other bank is written and made live, how a store is opened: `src/appending.rt`,
//!   `src/rewriting.rt`, `src/opening.rt` with `src/reading.rt`; what a torn write leaves `proofs/Cells.antt`,
//!   `proofs/Switch.antt`
#![tactic(auto)]

mod appending;
mod bodies;
mod error;
mod keeping;
mod laws;
mod log;
mod logged_state;
mod opening;
mod reading;
mod replay;
mod rewriting;
mod several;
mod shape;
mod spelling;
mod through;

pub use bodies::Bodies;
pub use error::LogError;
pub use keeping::{add, add_all, add_in_place, rewrite};
pub use laws::{image_laws, kept_laws};
pub use log::Log;
pub use logged_state::LoggedState;
pub use opening::{open_kept, replay_log};
pub use replay::{Replay, TakeError};
pub use shape::{CELL_HEAD, Shape};
pub use spelling::Spelling;
