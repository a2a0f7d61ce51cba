//! Laws of starts, of the lines of a run, and of the reports that are sent. The calls do nothing; their clauses are the laws.
ghost use Rattle.dsc_node.specs.Complete.{ValidStartsComplete};
ghost use Rattle.dsc_node.specs.Converging.{RunsAreBounded, StartsComeNearer, StartsConverge, StartsConvergeInTime};
ghost use Rattle.dsc_node.specs.LastingStarts.{LastingStartsConverge, LastingStartsGoOn};
ghost use Rattle.dsc_node.specs.LineLaws.{LinesSpellOneTrace};
ghost use Rattle.dsc_node.specs.SendingLaws.{ReportsAreMarkedInOrder, ReportsAreSentInOrder};
ghost use Rattle.dsc_node.specs.Starts.{FindsWhatIsRead, PartsAreBrought, StartsGoOn, StartsJoin};
ghost use Rattle.dsc_node.specs.Work.{known};
ghost use Rattle.dsc_node.specs.WorkDone.{StartsDoAllWork, StartsDoPrefixes};

use dsc_outside::{Clock, Disk, Host};
use lcm_core::{lasting_laws, reboot_laws, trace_laws};
use node_pull::serving_laws;
use resource_kinds::{Kinds, Machine, holding_laws};

/// A start finds a node that the start before it may have left, wherever that was stopped, and what that left at its end, where it came to it.
///
/// What a disk reads as is found at the beginning of a start.
pub fn starts_join<D: Disk, M: Machine, C: Clock>()
    ensures go_on { StartsGoOn (known D.Disk M.Resources M.Machine.own C.Clock) }
    ensures join { StartsJoin (known D.Disk M.Resources M.Machine.own C.Clock) }
    ensures read { FindsWhatIsRead (known D.Disk M.Resources M.Machine.own C.Clock) }
{}

/// Where the disk shows what it holds, and each of its images stood for a node at the beginning: at its end a start in which the disk's
/// count of faults did not rise leaves the node after all events that it committed, and any start, at its end and wherever it is stopped,
/// the node after a prefix of its events.
pub fn starts_do_their_work<D: Disk, M: Machine, C: Clock>()
    ensures all { StartsDoAllWork (known D.Disk M.Resources M.Machine.own C.Clock) }
    ensures prefix { StartsDoPrefixes (known D.Disk M.Resources M.Machine.own C.Clock) }
{}

/// Over a list of starts each part that a node holds was in a slot of a node that the first start found, or one of the starts brought
/// it: it is the start's input, or the node's server gave it in that start under the digest that was announced for it.
pub fn parts_are_brought<D: Disk, M: Machine, C: Clock>()
    ensures { PartsAreBrought (known D.Disk M.Resources M.Machine.own C.Clock) }
{}

/// The text of a run spells one trace, up to what is inside a fault, where the ids of the document differ; so it does where more is printed
/// after it.
pub fn lines_spell_one_trace()
    ensures { LinesSpellOneTrace }
{}

/// Of the reports that are due, the oldest first, those before the first that is not accepted are sent, printed as sent and marked; the one
/// at which the sending stops is printed as not sent, and nothing after it is sent. Where memory ran out, or the mark of one was refused,
/// those that are marked are the first of those that are due, and each of them was accepted.
pub fn reports_are_sent_in_order()
    ensures sent { ReportsAreSentInOrder }
    ensures marked { ReportsAreMarkedInOrder }
{}

/// A start of valid input in which nothing failed is not refused: it ends with `Done`, where it runs something with `Done`, `NotCompliant` or
/// `RebootAsked`, or memory ran out.
pub fn valid_starts_complete<D: Disk, M: Machine, C: Clock>()
    ensures { ValidStartsComplete (known D.Disk M.Resources M.Machine.own C.Clock) }
{
    serving_laws::<M>();
}

/// A start makes at most two Tests of a resource, and one Set.
pub fn runs_are_bounded<D: Disk, M: Machine, C: Clock>()
    ensures { RunsAreBounded (known D.Disk M.Resources M.Machine.own C.Clock) }
{
    trace_laws();
}

/// An undisturbed boot, or a consistency that waits for no reboot, makes what is Pending Current, or it asks for a reboot and leaves fewer
/// resources that do not hold. So one more of such starts than there are resources that do not hold make it Current. What is asked of the
/// starts stands in `Premises` of `specs/Converging.antt`.
pub fn starts_converge<D: Disk, H: Host, C: Clock>()
    ensures nearer { StartsComeNearer D.Disk H.Host C.Clock }
    ensures converge { StartsConverge D.Disk H.Host C.Clock }
    ensures in_time { StartsConvergeInTime D.Disk H.Host C.Clock }
{
    reboot_laws();
    trace_laws();
    holding_laws();
    valid_starts_complete::<D, Kinds<H>, C>();
}

/// Over any machine, where no Test or Set answers a fault, and after a Set of a resource no Test of it answers no: an undisturbed boot, or a
/// consistency that waits for no reboot, makes what is Pending Current, or it asks for a reboot. One more of such starts than there are
/// resources make it Current. What is asked of the starts stands in `LastingPremises` of `specs/LastingStarts.antt`.
pub fn lasting_starts_converge<D: Disk, M: Machine, C: Clock>()
    ensures go_on { LastingStartsGoOn (known D.Disk M.Resources M.Machine.own C.Clock) }
    ensures converge { LastingStartsConverge (known D.Disk M.Resources M.Machine.own C.Clock) }
{
    lasting_laws();
    valid_starts_complete::<D, M, C>();
}
