//! Resources whose Test and Set are programs.
//!
//! A resource of the class `DSC_CommandResource` names a program for its Test and one for its Set. `Commands` wraps a
//! machine: it runs the programs of these resources, and hands every other resource on to the machine. Each entry of
//! such a resource that has no fault stands for one run, of the right program with its words, with the status that the
//! answer means; and no other run is made. `Spawner` is what runs programs.
//!
//! Where a thing is:
//! - the class, its properties, and what an instance names by them: `specs/Tables.antt`, `src/tables.rt`;
//!   `specs/Programs.antt`, `src/program.rt`
//! - what a status means, and which run an entry stands for: `specs/Runs.antt`, `src/running.rt`
//! - what one call does to the machine and to the spawner: `specs/Steps.antt`, `src/commands.rt`
//! - the runs of a whole trace, and what the machine did along it: `specs/Laws.antt`, `src/laws.rt`;
//!   `proofs/Traces.antt`; over a host, and that a command is of no kind of it, `specs/HostLaws.antt`,
//!   `proofs/HostTraces.antt`, `proofs/Classes.antt`
//! - what runs programs: `src/spawner.rt`, `specs/Spawning.antt`; in memory `src/memory_spawner.rt`,
//!   `specs/MemorySpawner.antt`
#![tactic(auto)]

mod commands;
mod laws;
mod memory_spawner;
mod program;
mod running;
mod spawner;
mod tables;

pub use commands::Commands;
pub use laws::{class_laws, command_laws, host_laws};
pub use memory_spawner::MemorySpawner;
pub use spawner::{Run, SpawnError, Spawner};
