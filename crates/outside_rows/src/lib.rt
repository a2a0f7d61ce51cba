//! Calls of a disk and of a host, as rows of tables with what each is to answer.
//!
//! Only tests name it: those of the forms in memory and those of the real machine make the same kinds of calls.
//!
//! Where a thing is:
//! - a call of a disk, and whether it is answered so: `src/disk_calls.rt`; calls of a host: `src/host_calls.rt`
#![tactic(auto)]

pub mod disk_calls;
pub mod host_calls;
