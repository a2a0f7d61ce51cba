//! Runs over the resources of a document: the test-then-set cycle of the Local Configuration Manager.
//!
//! `run` goes through the resources in the order of their dependencies, and tests them, or tests and sets them. It is
//! generic over what tests and sets them, and its clauses speak of the entries that this keeps: they are the trace of a
//! legal run, from which nothing is left out, a chain of the machine's own steps; and the answer says how the run
//! ended.
//!
//! Where a thing is:
//! - which traces a run may leave, and what it may not leave out: `specs/Legal.antt`, `specs/Whole.antt`; both take
//!   monitoring and repairing runs
//! - the run itself, and the turn of one resource in it: `src/runs.rt`, `src/turns.rt`, `specs/Turn.antt`; how it ends
//!   `specs/Ends.antt`; what a repair has done at each turn `proofs/Past.antt`
//! - where a repair succeeds, which traces can be reported, how often a resource is called: `specs/RepairLaws.antt`,
//!   `specs/Bounds.antt`, `src/laws.rt`; `proofs/Repaired.antt`
//! - over any machine, what a resource's entries say of it, and how many repairs may end with a reboot where what
//!   Sets make lasts: `specs/LastingRuns.antt`, `src/laws.rt`, `proofs/WellAnswered.antt`, `proofs/Lasting.antt`; of
//!   a host's resources beside others: `specs/HostEntries.antt`, `proofs/HostEntries.antt`
//! - how near a run that ends with a reboot comes to its end: `specs/RebootLaws.antt`, `src/laws.rt`;
//!   `proofs/Rebooted.antt`
//! - how many resources succeeded, and that all hold together where each did: `src/last_entries.rt`,
//!   `specs/RunLaws.antt`; `proofs/Successes.antt`, `proofs/Compliance.antt`
#![tactic(auto)]

mod last_entries;
mod laws;
mod modes;
mod runs;
mod turns;

pub use last_entries::{count_succeeded, succeeded};
pub use laws::{
    answer_laws, host_entry_laws, lasting_laws, reboot_laws, repair_laws, report_laws, trace_laws,
};
pub use modes::{RunEnd, RunMode};
pub use runs::{run, run_ordered};
