//! The spawner that starts programs of the system.
ghost use Rattle.std.specs.Prelude.{◌≡◌, None};
ghost use Rattle.dsc_outside.specs.Causes.{HasCauseOf};
ghost use Rattle.command_kind.specs.Spawning.{run_of, with_runs};
ghost use Rattle.process_spawner.specs.Counts.{fault_count};

use command_kind::{SpawnError, Spawner};
use dsc_outside::HostError;
use mof_values::Text;
use std::io::Stderr;
use std::marker::Model;
use std::process::{Child, Command, ExitStatus, OpenProcess, Processes, Stdio};

/// The programs of the system; it does not tell which it ran. A clause sees it as the number of its calls that failed.
#[derive(Drop)]
pub struct ProcessSpawner<R: Processes + AllocGlobal> {
    rt: R,
    error: Stderr,
    faults: u64,
}

impl<R: Processes + AllocGlobal> Model for ProcessSpawner<R> {
    ghost use Rattle.std.specs.Prelude.{ℕ};

    ghost Value = { ℕ };

    ghost view = { λ p. p.faults };
}

impl<R: Processes + AllocGlobal> ProcessSpawner<R> {
    /// The programs of the system, whose outputs go there. It touches nothing before the first run.
    pub fn new(rt: R, error: Stderr) -> ProcessSpawner<R>
        ensures { result ≡ 0 }
    {
        ProcessSpawner {
            rt,
            error,
            faults: 0,
        }
    }
}

impl<R: Processes + AllocGlobal> Spawner for ProcessSpawner<R> {
    ghost runs = { λ p. None };

    ghost faults = { λ p. p };

    fn run(&mut self, program: &str, words: &[Text]) -> Result<u8, SpawnError>
        ensures runs { None ≡ with_runs None (run_of program.now words.now result) }
        ensures cause { HasCauseOf SpawnError.Failed self.old self.new result }
        ensures count { self.new ≡ fault_count self.old result }
    {
        let outcome = run_program(&self.rt, self.error, program, words);
        if let Err(SpawnError::Failed) = outcome {
            self.faults = self.faults.saturating_add(1);
        }
        outcome
    }
}

fn run_program<R: Processes + AllocGlobal>(
    rt: &R,
    error: Stderr,
    program: &str,
    words: &[Text],
) -> Result<u8, SpawnError> {
    let mut command = Command::new(rt.alloc(), program)?;
    for word in words {
        command.arg(word.to_utf8()?.as_str())?;
    }
    command.current_dir("/")?;
    command.stdin(Stdio::null());
    command.stdout(error);
    command.stderr(error);
    match command.spawn(rt) {
        Ok(child) => ended(child),
        Err(error) => Err(SpawnError::from(HostError::from(error))),
    }
}

// The exit status of the program, once it has ended.
fn ended<P: OpenProcess + Drop>(mut child: Child<P>) -> Result<u8, SpawnError> {
    match child.wait() {
        Ok(status) => exit_code(status),
        Err(_) => Err(SpawnError::Failed),
    }
}

// A program that a signal ended has none.
fn exit_code(status: ExitStatus) -> Result<u8, SpawnError> {
    match status.code() {
        Some(code) => u8::try_from(code).map_err(|_| SpawnError::Failed),
        None => Err(SpawnError::Failed),
    }
}
