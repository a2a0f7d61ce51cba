//! What runs programs.
ghost use Rattle.std.specs.Prelude.{◌≡◌, ℕ, List, Option};
ghost use Rattle.dsc_outside.specs.Causes.{HasCauseOf};
ghost use Rattle.command_kind.specs.Spawning.{run_of, with_runs};
ghost use Rattle.command_kind.specs.declared.spawner.Run.{Run};
ghost use Rattle.command_kind.specs.declared.spawner.SpawnError.TheVariants as errors;

use dsc_outside::HostError;
use mof_values::{Bytes, Items, Text};
use std::alloc::{AllocError, AllocFailed};
use std::fmt;

/// A program that was run.
#[derive(Debug, Drop, PartialEq)]
pub struct Run {
    /// Its name, in UTF-8.
    pub program: Bytes,

    /// Its arguments.
    pub words: Items<Text>,

    /// Its exit status, where it gave one.
    pub status: Option<u8>,
}

/// Why a program gave no exit status.
#[derive(Clone, Copy, Debug, PartialEq, Eq)]
pub enum SpawnError {
    /// It could not be started or waited for, or a signal ended it.
    Failed,
    Memory,
}

impl From<AllocError> for SpawnError {
    ghost from_gives = { λ _ e. e ≡ errors.Memory };

    fn from(_: AllocError) -> Self {
        SpawnError::Memory
    }
}

impl<T: Drop> From<AllocFailed<T>> for SpawnError {
    ghost from_gives = { λ _ e. e ≡ errors.Memory };

    fn from(_: AllocFailed<T>) -> Self {
        SpawnError::Memory
    }
}

/// A failed call of the system is a failure of the run.
impl From<HostError> for SpawnError {
    fn from(error: HostError) -> Self {
        match error {
            HostError::Failed => SpawnError::Failed,
            HostError::Memory => SpawnError::Memory,
        }
    }
}

impl fmt::Display for SpawnError {
    fn fmt<W: fmt::Write>(&self, f: &mut fmt::Formatter<W>) -> fmt::Result {
        f.write_str(match self {
            SpawnError::Failed => "failed",
            SpawnError::Memory => "out of memory",
        })
    }
}

pub trait Spawner {
    /// The runs so far, in order, where they are shown.
    ghost runs: { Self → Option (List Run) };

    /// How often a call has failed.
    ghost faults: { Self → ℕ };

    /// Starts the program with these arguments, waits for its end, and answers its exit status.
    ///
    /// That the call returns is on the program that is started. Out of memory, nothing was started.
    fn run(&mut self, program: &str, words: &[Text]) -> Result<u8, SpawnError>
        ensures runs { runs self.new ≡ with_runs (runs self.old)
            (run_of program.now words.now result) }
        ensures cause { HasCauseOf SpawnError.Failed (faults self.old) (faults self.new) result };
}
