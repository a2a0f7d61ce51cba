//! The run of a start, the event that keeps its report, and the sending of reports.
ghost use Rattle.std.specs.Prelude.{◌≡◌, ◌≤◌, ◌<◌, true, [], All, IfSome, Option, length, string_bytes};
ghost use Rattle.dsc_outside.specs.Clock.{last_moment};
ghost use Rattle.resource_kinds.specs.Trace.{place_of};
ghost use Rattle.lcm_core.specs.RunLaws.{EndsAtYes};
ghost use Rattle.report_log.specs.Sizes.{ReportInSize};
ghost use Rattle.node_store.specs.Store.{IsKept};
ghost use Rattle.dsc_outside.specs.LinkView.{view_of};
ghost use Rattle.dsc_node.specs.Documents.{IsOfHeld};
ghost use Rattle.dsc_node.specs.Path.{EndsStart, KeepGoes, NothingGoes};
ghost use Rattle.dsc_node.specs.Runs.{Run, event_of};
ghost use Rattle.dsc_node.specs.Work.{Finish, known};

use crate::answer::{StartEnd, after_run, end_line, refused_after_run, status_after, status_of};
use crate::committing::commit;
use crate::running::{Over, RunStep, run_step};
use crate::sending::send_reports;
use crate::status::Status;
use dsc_outside::{Clock, Disk, Link};
use lcm_core::RunEnd;
use mof_values::Memory;
use node_state::Event;
use node_store::NodeStore;
use partial_merge::OrderedDocument;
use report_log::Report;
use resource_kinds::{Entry, Machine};
use std::alloc::Global;

/// The run, the event that keeps its report, and the sending of reports. The document is that of the parts which the node holds, where it is known
/// already.
pub(crate) fn finish<D: Disk, M: Machine, L: Link, C: Clock>(
    alloc: Global,
    start: u64,
    stopped: bool,
    document: Option<OrderedDocument>,
    store: &mut NodeStore,
    disk: &mut D,
    machine: &mut M,
    link: &mut L,
    clock: &mut C,
) -> StartEnd
    requires kept { IsKept D.Disk disk.old store.old }
    requires fresh { M.trace machine.old ≡ [] }
    requires document { IfSome document (IsOfHeld store.old.node) }
    requires moment { start ≤ last_moment }
    ensures goes { (run : Option Run) × EndsStart D.Disk disk.old disk.new store.old
        (λ from counts work committed broken.
        Finish (known D.Disk M.Resources M.Machine.own C.Clock) from counts work store.old.node
        stopped (C.coming clock.old) (C.coming clock.new) start (view_of L.Link link.old)
        (view_of L.Link link.new) machine.old machine.new result.status (string_bytes result.lines)
        run committed broken) }
    ensures becomes { L.may_become link.old link.new }
    ensures later { C.faults clock.old ≤ C.faults clock.new }
{
    if let Err(Memory) = store.reserve() {
        return StartEnd::silent(alloc, Status::Memory);
    }
    match run_step(
        alloc,
        start,
        stopped,
        store.state(),
        document,
        machine,
        clock,
    ) {
        RunStep::Nothing => end_nothing(alloc, store, disk, link),
        RunStep::Memory => StartEnd::silent(alloc, Status::Memory),
        RunStep::Over(over) => keep(alloc, over, store, disk, link, machine.calls()),
    }
}

// A start that runs nothing.
fn end_nothing<D: Disk, L: Link>(
    alloc: Global,
    store: &mut NodeStore,
    disk: &mut D,
    link: &mut L,
) -> StartEnd
    requires kept { IsKept D.Disk disk.old store.old }
    ensures goes { NothingGoes D.Disk disk.old disk.new store.old (view_of L.Link link.old)
        (view_of L.Link link.new) result.status (string_bytes result.lines) }
    ensures becomes { L.may_become link.old link.new }
{
    let mut sent = String::new(alloc);
    match send_reports(alloc, store, disk, link, &mut sent) {
        Ok(()) => StartEnd::joining(alloc, Status::Done, "end nothing\n", &sent),
        Err(error) => StartEnd::silent(alloc, status_of(error)),
    }
}

// The event that keeps the report of a run that is over, and the sending of reports. No memory runs out before the event is committed.
fn keep<D: Disk, L: Link>(
    alloc: Global,
    over: Over,
    store: &mut NodeStore,
    disk: &mut D,
    link: &mut L,
    calls: &[Entry],
) -> StartEnd
    requires kept { IsKept D.Disk disk.old store.old }
    requires reserved { store.old.reserved ≡ true }
    requires in_size { ReportInSize over.report }
    requires known { All (λ e. place_of e < length over.document.resources) calls.now }
    requires ends { EndsAtYes calls.now }
    ensures goes { KeepGoes D.Disk disk.old disk.new store.old over calls.now
        (view_of L.Link link.old) (view_of L.Link link.new) result.status
        (string_bytes result.lines) }
    ensures becomes { L.may_become link.old link.new }
{
    let document = over.document;
    let missed = over.report.missed;
    let now = store.state().meta.reboot_if_needed;
    if let Err(error) = commit(store, disk, event_of(over.end, over.pending, over.report)) {
        return after_run(
            alloc,
            &document,
            calls,
            over.overlap,
            "",
            "",
            status_of(error),
        );
    }
    let mut sent = String::new(alloc);
    match send_reports(alloc, store, disk, link, &mut sent) {
        Ok(()) => {
            let last = end_line(over.end, over.pending, missed);
            let status = status_after(now, over.end, missed);
            after_run(
                alloc,
                &document,
                calls,
                over.overlap,
                last,
                sent.as_str(),
                status,
            )
        }
        Err(error) => refused_after_run(alloc, &document, calls, over.overlap, error),
    }
}

// The event that keeps the report.
fn event_of(end: RunEnd, pending: bool, report: Report) -> Event
    ensures { result ≡ event_of end pending report }
{
    match end {
        RunEnd::RebootAsked(_) => Event::AskReboot(report),
        RunEnd::Finished => {
            if pending && report.missed == 0 {
                Event::Promote(report)
            } else {
                Event::Note(report)
            }
        }
        RunEnd::Memory => Event::Note(report),
    }
}
