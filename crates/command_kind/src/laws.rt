//! Laws of traces. The calls do nothing; their clauses are the laws.
ghost use Rattle.command_kind.specs.HostLaws.{CommandsAreOfNoKind, OthersAreTrue};
ghost use Rattle.command_kind.specs.Laws.{OthersAreOfMachine, RunsFollowEntries};

use crate::spawner::Spawner;
use dsc_outside::Host;
use resource_kinds::Machine;

/// The runs that a trace added are those that its entries stand for, in order; and the entries that are of no command are steps
/// of the machine's own, from what it was before the trace to what it is after it.
pub fn command_laws<M: Machine, P: Spawner>()
    ensures runs { RunsFollowEntries M.Resources P.Spawner }
    ensures machine { OthersAreOfMachine M.Resources P.Spawner }
{}

/// A command is of no kind of a host's resources.
pub fn class_laws()
    ensures { CommandsAreOfNoKind }
{}

/// Over the kinds of resources of a host that shows what it holds, the entries that are of no command are true of the host, from what
/// it held before the trace to what it holds after it. No program that a spawner runs is a call of that host; that none changes by other
/// ways what the host holds is a premise, which is in that the host shows it.
pub fn host_laws<H: Host, P: Spawner>()
    ensures { OthersAreTrue H.Host P.Spawner }
{}
