//! Laws of runs. The calls do nothing; their clauses are the laws.
ghost use Rattle.lcm_core.specs.Bounds.{LegalIsBounded};
ghost use Rattle.lcm_core.specs.HostEntries.{HostEntriesLast, StaysClearBeside};
ghost use Rattle.lcm_core.specs.LastingRuns.{KnownEntriesAnswerWell, LastingRepairsComply, RebootsAreFew, WellAnsweredSucceed};
ghost use Rattle.lcm_core.specs.RebootLaws.{ClearRepairsComply, NothingIsInTheWay, RebootsComeNearer};
ghost use Rattle.lcm_core.specs.RepairLaws.{FaultsAreContained, RepairSucceeds, RunsAreReportable, TracesAreReportable};
ghost use Rattle.lcm_core.specs.RunLaws.{CompliantHold, LegalEndsAtYes, LegalKnowsPlaces};

use resource_kinds::{holding_laws, set_laws};

/// In a repair that came to its last resource, on a host that shows what it holds, where no entry blames the host and none says
/// that something is in the way, each resource ends with a Test that answered yes, unless it or one of its dependencies, followed
/// down, has a fault of its own. Where entries do blame the machine, this still holds of each resource of which, and of whose dependencies,
/// followed down, none does.
pub fn repair_laws()
    ensures succeeds { RepairSucceeds }
    ensures contained { FaultsAreContained }
{
    set_laws();
}

/// What the entries of a run say of a resource, over any machine: in a repair that came to its last resource, each resource succeeds that
/// answers well, and whose dependencies, followed down, do. One without a fault of its own answers well where its entries, beside those of
/// any others, are true of a host, and none of them has a fault of the machine.
pub fn answer_laws()
    ensures known { KnownEntriesAnswerWell }
    ensures succeeds { WellAnsweredSucceed }
{
    set_laws();
}

/// In a repair of resources that are apart, in which the entries of some of them are true of a host that is clear for them, of which no call
/// failed, what is in its state at the beginning or was set is so at the end, and no Test of it answers no after that; none of these entries
/// is a fault where its resource has none of its own; and the host is clear still.
pub fn host_entry_laws()
    ensures clear { StaysClearBeside }
    ensures last { HostEntriesLast }
{
    set_laws();
}

/// Over any machine, where no entry is a fault and after a Set of a resource no Test of it answers no: a repair that came to its last
/// resource is compliant, and no more repairs in a row end with a reboot than there are resources.
pub fn lasting_laws()
    ensures comply { LastingRepairsComply }
    ensures few { RebootsAreFew }
{}

/// In a repair of resources that are apart and without a fault of their own, on a host that shows what it holds, is clear for them and of
/// which no call failed, nothing is in the way of any Set. Where it ends with a reboot, fewer resources are left that do not hold, and the
/// host is clear still; where it comes to its last resource, each of them succeeded.
pub fn reboot_laws()
    ensures clear { NothingIsInTheWay }
    ensures nearer { RebootsComeNearer }
    ensures comply { ClearRepairsComply }
{
    set_laws();
    holding_laws();
}

/// A run that does not end out of memory can be reported: its entries are of resources of the document, none of them was
/// refused memory, and no resource's last entry is a Set that was done, since a Test of it follows.
pub fn report_laws()
    ensures traces { TracesAreReportable }
    ensures runs { RunsAreReportable }
{}

/// In a legal trace every entry is of a resource of the document, and no entry of a resource stands after a Test of it that
/// answered yes; there are at most two Tests of a resource, and one Set. Where such a trace is true of a host, the resources of
/// the document are apart and each of them succeeded, none has a fault of its own, and all that they ask for holds together at
/// the end.
pub fn trace_laws()
    ensures known { LegalKnowsPlaces }
    ensures ends_at_yes { LegalEndsAtYes }
    ensures bounded { LegalIsBounded }
    ensures together { CompliantHold }
{
    set_laws();
}
