//! One start of the node: its store is opened, and what its command asks is done.
ghost use Rattle.std.specs.Prelude.{◌≡◌, ◌≤◌, [], IfOk, None, string_bytes};
ghost use Rattle.dsc_outside.specs.Clock.{last_moment};
ghost use Rattle.gate_log.specs.Standing.{AllStand, Any};
ghost use Rattle.resource_kinds.specs.Kinds.{calls_of};
ghost use Rattle.node_store.specs.Stands.{Stands};
ghost use Rattle.node_store.specs.Store.{IsKept};
ghost use Rattle.dsc_outside.specs.Link.{GoesOn};
ghost use Rattle.dsc_outside.specs.LinkView.{view_of};
ghost use Rattle.dsc_node.specs.Commands.{IsTaken, why_not};
ghost use Rattle.dsc_node.specs.Headline.{HasHeadline};
ghost use Rattle.dsc_node.specs.HostHeadline.{HasHostHeadline, known_on_host};
ghost use Rattle.dsc_node.specs.Path.{AllowedGoes, OpenedGoes};
ghost use Rattle.dsc_node.specs.Plans.{IsPlan};
ghost use Rattle.dsc_node.specs.Readings.{StartsAt};
ghost use Rattle.dsc_node.specs.Start.{Start, outside};
ghost use Rattle.dsc_node.specs.Work.{beside, known};

use crate::allowing::{stops, waits, why_not};
use crate::answer::{StartEnd, status_of, status_of_input, without_run};
use crate::bringing::{First, bring, status_of_unbrought};
use crate::command::Command;
use crate::committing::commit_first;
use crate::finishing::finish;
use crate::plan::{Follows, Plan};
use crate::preparing::plan_of;
use crate::status::Status;
use dsc_outside::{Clock, Disk, Failed, Host, Link};
use lcm_core::{repair_laws, trace_laws};
use node_store::{NodeStore, open_store};
use resource_kinds::{Kinds, Machine};
use std::alloc::Global;

/// One start of the node: what the command asks for is done, on any machine and over any link.
///
/// The table in `specs/Work.antt` says what a start asks the server for, commits, runs, sends and prints, and how it ends;
/// `specs/Path.antt` what a crash at any moment of it leaves, and `specs/Headline.antt` what that comes to.
pub fn start_over<D: Disk, M: Machine, L: Link, C: Clock>(
    alloc: Global,
    command: Command,
    disk: &mut D,
    machine: &mut M,
    link: &mut L,
    clock: &mut C,
) -> StartEnd
    requires taken { IsTaken command }
    requires fresh { M.trace machine.old ≡ [] }
    ensures start { Start (known D.Disk M.Resources M.Machine.own C.Clock) command
        (outside disk.old machine.old (view_of L.Link link.old) clock.old)
        (outside disk.new machine.new (view_of L.Link link.new) clock.new)
        result.status (string_bytes result.lines) }
    ensures headline { HasHeadline (known D.Disk M.Resources M.Machine.own C.Clock) command
        (outside disk.old machine.old (view_of L.Link link.old) clock.old)
        (outside disk.new machine.new (view_of L.Link link.new) clock.new)
        result.status (string_bytes result.lines) }
    ensures again { AllStand D.Disk disk.old Stands Any → AllStand D.Disk disk.new Stands Any }
    ensures becomes { L.may_become link.old link.new }
    ensures goes_on { GoesOn (view_of L.Link link.old) (view_of L.Link link.new) }
    ensures later { C.faults clock.old ≤ C.faults clock.new }
{
    let plan = match plan_of(alloc, command) {
        Ok(plan) => plan,
        Err(error) => return StartEnd::silent(alloc, status_of_input(error)),
    };
    match open_store(alloc, disk) {
        Ok(store) => {
            let mut store = store;
            opened(alloc, plan, &mut store, disk, machine, link, clock)
        }
        Err(error) => StartEnd::silent(alloc, status_of(error)),
    }
}

/// One start of the node, over the kinds of resources of a host.
///
/// Beside the clauses of [`start_over`] the trace is true of the host, and `specs/HostHeadline.antt` says what completes and what
/// holds together.
pub fn start<D: Disk, H: Host, L: Link, C: Clock>(
    alloc: Global,
    command: Command,
    disk: &mut D,
    kinds: &mut Kinds<H>,
    link: &mut L,
    clock: &mut C,
) -> StartEnd
    requires taken { IsTaken command }
    requires fresh { calls_of kinds.old ≡ [] }
    ensures start { Start (known_on_host D.Disk H.Host C.Clock) command
        (outside disk.old kinds.old (view_of L.Link link.old) clock.old)
        (outside disk.new kinds.new (view_of L.Link link.new) clock.new)
        result.status (string_bytes result.lines) }
    ensures headline { HasHostHeadline D.Disk H.Host C.Clock command
        (outside disk.old kinds.old (view_of L.Link link.old) clock.old)
        (outside disk.new kinds.new (view_of L.Link link.new) clock.new)
        result.status (string_bytes result.lines) }
    ensures again { AllStand D.Disk disk.old Stands Any → AllStand D.Disk disk.new Stands Any }
    ensures becomes { L.may_become link.old link.new }
    ensures goes_on { GoesOn (view_of L.Link link.old) (view_of L.Link link.new) }
    ensures later { C.faults clock.old ≤ C.faults clock.new }
{
    repair_laws();
    trace_laws();
    start_over(alloc, command, disk, kinds, link, clock)
}

// Carries the plan out over an opened store, where the node allows it.
fn opened<D: Disk, M: Machine, L: Link, C: Clock>(
    alloc: Global,
    plan: Plan,
    store: &mut NodeStore,
    disk: &mut D,
    machine: &mut M,
    link: &mut L,
    clock: &mut C,
) -> StartEnd
    requires kept { IsKept D.Disk disk.old store.old }
    requires plan { IsPlan plan }
    requires fresh { M.trace machine.old ≡ [] }
    ensures goes { OpenedGoes (known D.Disk M.Resources M.Machine.own C.Clock) plan disk.old
        disk.new store.old (beside machine.old (view_of L.Link link.old) clock.old)
        (beside machine.new (view_of L.Link link.new) clock.new) result.status
        (string_bytes result.lines) }
    ensures becomes { L.may_become link.old link.new }
    ensures later { C.faults clock.old ≤ C.faults clock.new }
{
    if let Some(why) = why_not(store.state(), &plan.needs) {
        return StartEnd::silent(alloc, Status::NotAllowed(why));
    }
    if waits(store.state(), &plan) {
        return StartEnd::silent(alloc, Status::RebootWaiting);
    }
    let Ok(start) = started(plan.reads_clock, clock) else {
        return StartEnd::silent(alloc, Status::ClockFault);
    };
    carried_out(alloc, plan, start, store, disk, machine, link, clock)
}

// The moment of a start: the clock's reading, where the plan reads it.
fn started<C: Clock>(reads: bool, clock: &mut C) -> Result<u64, Failed>
    ensures starts { StartsAt C.Clock reads result clock.old clock.new }
    ensures moment { IfOk result (λ start. start ≤ last_moment) }
    ensures later { C.faults clock.old ≤ C.faults clock.new }
{
    if reads { clock.now() } else { Ok(0) }
}

// Brings what the plan brings, commits it, and does what follows.
fn carried_out<D: Disk, M: Machine, L: Link, C: Clock>(
    alloc: Global,
    plan: Plan,
    start: u64,
    store: &mut NodeStore,
    disk: &mut D,
    machine: &mut M,
    link: &mut L,
    clock: &mut C,
) -> StartEnd
    requires kept { IsKept D.Disk disk.old store.old }
    requires allowed { why_not store.old.node plan.needs ≡ None }
    requires plan { IsPlan plan }
    requires fresh { M.trace machine.old ≡ [] }
    requires moment { start ≤ last_moment }
    ensures goes { AllowedGoes (known D.Disk M.Resources M.Machine.own C.Clock) plan start disk.old
        disk.new store.old (beside machine.old (view_of L.Link link.old) clock.old)
        (beside machine.new (view_of L.Link link.new) clock.new) result.status
        (string_bytes result.lines) }
    ensures becomes { L.may_become link.old link.new }
    ensures later { C.faults clock.old ≤ C.faults clock.new }
{
    let stopped = stops(store.state(), &plan);
    let Plan {
        brings,
        follows,
        ..
    } = plan;
    let First { event, document } = match bring(
        alloc,
        brings,
        start,
        store.state(),
        link,
        machine,
    ) {
        Ok(first) => first,
        Err(error) => return StartEnd::silent(alloc, status_of_unbrought(error)),
    };
    if let Err(error) = commit_first(event, store, disk) {
        return StartEnd::silent(alloc, status_of(error));
    }
    match follows {
        Follows::Run => finish(
            alloc, start, stopped, document, store, disk, machine, link, clock,
        ),
        Follows::Text(text) => without_run(alloc, text, store.state()),
    }
}
