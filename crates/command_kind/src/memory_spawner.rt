//! A spawner in memory.
ghost use Rattle.std.specs.Prelude.{◌≡◌, Some, IfOk, drop};
ghost use Rattle.dsc_outside.specs.Causes.{HasCauseOf};
ghost use Rattle.command_kind.specs.MemorySpawner.{RunsNext, unrun};
ghost use Rattle.command_kind.specs.Spawning.{ran, run_of, with_runs};

use crate::spawner::{Run, SpawnError, Spawner};
use mof_values::{Bytes, Items, Text, copy_texts};
use std::alloc::{AllocError, Global};
use std::marker::Model;

/// A spawner that starts nothing: it gives these statuses in turn, whatever is run, and fails once none is left.
#[derive(Drop)]
pub struct MemorySpawner {
    statuses: Vec<u8>,
    at: usize,
    runs: Vec<Run>,
    faults: u64,
}

impl Model for MemorySpawner {
    ghost use Rattle.std.specs.Prelude.{drop};
    ghost use Rattle.command_kind.specs.MemorySpawner.{SpawnerInMemory};

    ghost Value = { SpawnerInMemory };

    ghost view = { λ s. record { statuses = drop s.at s.statuses.items; runs = s.runs.items; faults = s.faults } };
}

impl MemorySpawner {
    pub fn new(statuses: Vec<u8>) -> MemorySpawner
        ensures { result ≡ unrun statuses.items }
    {
        let alloc = *statuses.allocator();
        MemorySpawner {
            statuses,
            at: 0,
            runs: Vec::new(alloc),
            faults: 0,
        }
    }

    /// The runs so far, in order.
    pub fn runs(&self) -> &[Run]
        ensures { result.now ≡ self.now.runs }
    {
        &self.runs
    }
}

impl Spawner for MemorySpawner {
    ghost runs = { λ s. Some s.runs };

    ghost faults = { λ s. s.faults };

    fn run(&mut self, program: &str, words: &[Text]) -> Result<u8, SpawnError>
        ensures runs { Some self.new.runs ≡ with_runs (Some self.old.runs)
            (run_of program.now words.now result) }
        ensures cause { HasCauseOf SpawnError.Failed self.old.faults self.new.faults result }

        // Exactly what comes of it.
        ensures exact { RunsNext self.old program.now words.now result self.new }
    {
        let status = self.statuses.get(self.at).copied();
        let run = run_with(*self.statuses.allocator(), program, words, status)?;
        self.runs.push(run)?;
        match status {
            Some(status) => {
                self.at += 1;
                Ok(status)
            }
            None => {
                self.faults = self.faults.saturating_add(1);
                Err(SpawnError::Failed)
            }
        }
    }
}

fn run_with(
    alloc: Global,
    program: &str,
    words: &[Text],
    status: Option<u8>,
) -> Result<Run, AllocError>
    ensures { IfOk result (λ run. run ≡ ran program.now words.now status) }
{
    Ok(Run {
        program: Bytes::of(program.as_bytes().to_vec(alloc)?),
        words: Items::of(copy_texts(alloc, words)?),
        status,
    })
}
