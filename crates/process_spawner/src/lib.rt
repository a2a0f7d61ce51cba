//! The programs of the system, as a spawner.
//!
//! A program gets an empty standard input, the environment of this program, and `/` as its folder; what it prints, on
//! either of its outputs, goes to the standard error of this program. What cannot be started or waited for fails, and
//! so does a program that a signal ends.
//!
//! Where a thing is:
//! - the spawner: `src/process_spawner.rt`
#![tactic(auto)]

mod process_spawner;

pub use process_spawner::ProcessSpawner;
