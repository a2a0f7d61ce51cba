//! The kinds of resources: files and directories, environment variables, and entries of the log.
//!
//! `Resources` is what a run tests and sets; it keeps an entry of each call, and each call is one step of a relation of
//! its own. `Kinds` is that over any host: where the host shows what it holds, each answer is true of it, a Set that
//! is done makes of it what the resource asks for, and one that failed changes no more than the resource's own target.
//! `Machine` is `Resources` with the calls on module packages. Which resources overlap is found before a run.
//!
//! Where a thing is:
//! - which kinds of resources there are, and the properties of each: `specs/Tables.antt`, `src/tables.rt`,
//!   `src/values.rt`
//! - what a resource asks for, and its faults: `specs/Wanted.antt`, `src/wanted.rt`; of a path `specs/Paths.antt`, of a
//!   list of paths `specs/Entries.antt`
//! - when that holds, what a Set makes of a machine, what is in its way: `specs/Holds.antt`; `src/testing.rt`,
//!   `src/setting.rt`, `src/obstacles.rt`
//! - the same as a test, and how many resources of a document do not hold: `specs/Holding.antt`, `proofs/Holding.antt`
//! - which answers are true of a machine: `specs/True.antt`
//! - which resources overlap: `specs/Apart.antt`; with memory and fast `src/overlap.rt`, whose keys are in
//!   `specs/OverlapSteps.antt`, without memory `src/subjects.rt` and `src/path_order.rt`
//! - when nothing is in the way of a document's resources, and when all hold: `specs/Documents.antt`;
//!   `proofs/ClearHosts.antt`
//! - what a Set keeps, and what holds at the end of a run: `specs/Laws.antt`, `src/laws.rt`; `proofs/SetLaws.antt`,
//!   `proofs/RunLaws.antt`
//! - the entry that each call adds to the trace: `src/keeping.rt`
//! - what a run calls: the trait in `src/resources.rt`; `src/kinds.rt` is that trait over a host
#![tactic(auto)]

mod entries;
mod entry;
mod entry_sets;
mod keeping;
mod keys;
mod kinds;
mod laws;
mod machine;
mod obstacles;
mod overlap;
mod path_order;
mod paths;
mod resources;
mod setting;
mod subjects;
mod tables;
mod testing;
mod utf8;
mod values;
mod wanted;

pub use entries::entry_laws;
pub use entry::{Entry, Failure, SetAnswer, TestAnswer};
pub use keeping::{keep_set, keep_test};
pub use kinds::Kinds;
pub use laws::{holding_laws, set_laws};
pub use machine::Machine;
pub use overlap::{apart, overlaps};
pub use paths::path_of;
pub use resources::Resources;
