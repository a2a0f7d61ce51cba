//! The Test and the Set of a command: its program is run, and the status is the answer.
ghost use Rattle.std.specs.Prelude.{◌≡◌, ◌≤◌};
ghost use Rattle.dsc_terms.specs.Counts.{RoseBy};
ghost use Rattle.resource_kinds.specs.Trace.{set_failures, test_failures};
ghost use Rattle.command_kind.specs.Programs.{program_of};
ghost use Rattle.command_kind.specs.Runs.{SetOf, TestOf};
ghost use Rattle.command_kind.specs.Steps.{AddsRuns};

use crate::program::{Program, ProgramError, Purpose, program_of};
use crate::spawner::{SpawnError, Spawner};
use mof_values::Instance;
use resource_kinds::{Failure, SetAnswer, TestAnswer};
use std::alloc::Global;

/// The status of a program for a Test that says that the resource holds.
pub const HOLDS: u8 = 0;

/// The status of a program for a Set that asks for a reboot: the low byte of 3010, which installers give for this.
pub const WANTS_REBOOT: u8 = 194;

/// Runs the program for the Test of a command; a command with a fault of its own runs nothing.
pub fn test_command<P: Spawner>(alloc: Global, spawner: &mut P, instance: &Instance) -> TestAnswer
    ensures runs { AddsRuns (P.runs spawner.old) (P.runs spawner.new)
        (TestOf (program_of Purpose.Test instance.now) result) }
    ensures later { P.faults spawner.old ≤ P.faults spawner.new }
    ensures cause { RoseBy (test_failures result) (P.faults spawner.old) (P.faults spawner.new) }
{
    let program = match program_of(alloc, Purpose::Test, instance) {
        Ok(program) => program,
        Err(ProgramError::Fault(failure)) => return TestAnswer::Fault(failure),
        Err(ProgramError::Memory) => return TestAnswer::Memory,
    };
    match spawner.run(program.name(), program.words()) {
        Ok(HOLDS) => TestAnswer::Yes,
        Ok(_) => TestAnswer::No,
        Err(SpawnError::Failed) => TestAnswer::Fault(Failure::HostFailed),
        Err(SpawnError::Memory) => TestAnswer::Memory,
    }
}

/// The same of the Set.
pub fn set_command<P: Spawner>(alloc: Global, spawner: &mut P, instance: &Instance) -> SetAnswer
    ensures runs { AddsRuns (P.runs spawner.old) (P.runs spawner.new)
        (SetOf (program_of Purpose.Set instance.now) result) }
    ensures later { P.faults spawner.old ≤ P.faults spawner.new }
    ensures cause { RoseBy (set_failures result) (P.faults spawner.old) (P.faults spawner.new) }
{
    let program = match program_of(alloc, Purpose::Set, instance) {
        Ok(program) => program,
        Err(ProgramError::Fault(failure)) => return SetAnswer::Fault(failure),
        Err(ProgramError::Memory) => return SetAnswer::Memory,
    };
    match spawner.run(program.name(), program.words()) {
        Ok(WANTS_REBOOT) => SetAnswer::Reboot,
        Ok(_) => SetAnswer::Done,
        Err(SpawnError::Failed) => SetAnswer::Fault(Failure::HostFailed),
        Err(SpawnError::Memory) => SetAnswer::Memory,
    }
}
