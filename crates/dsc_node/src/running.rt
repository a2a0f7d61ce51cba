//! The run of a start and its report. Neither a store nor a disk is touched here.
ghost use Rattle.std.specs.Prelude.{◌≡◌, ◌≤◌, ℕ, Bool, Option, Some, [], IfOk, IfSome};
ghost use Rattle.dsc_outside.specs.Clock.{last_moment};
ghost use Rattle.node_state.specs.Lists.{IsStaged};
ghost use Rattle.node_state.specs.Sound.{Sound};
ghost use Rattle.partial_merge.specs.Merged.{IsDocumentOf};
ghost use Rattle.dsc_node.specs.Documents.{IsOfHeld};
ghost use Rattle.dsc_node.specs.Readings.{Gave, Took, end_of};
ghost use Rattle.dsc_node.specs.Runs.{chosen_of};
ghost use Rattle.dsc_node.specs.Running.{IsReadyFor, IsRunStep};

use crate::choosing::{Chosen, chosen_of};
use crate::run::run_merged;
use dsc_document::Document;
use dsc_outside::Clock;
use lcm_core::{RunEnd, report_laws};
use mof_values::{Items, Memory};
use node_pull::marks_of;
use node_state::Node;
use partial_merge::{MergeError, OrderedDocument, Part, merge_ordered};
use report_log::{Frame, PartMark, Report, ReportRoom, report_of, room_for};
use resource_kinds::{Machine, overlaps};
use std::alloc::Global;

/// A run that is over, with its report.
#[derive(Drop)]
pub(crate) struct Over {
    pub(crate) document: Document,

    /// Some of its resources overlap.
    pub(crate) overlap: bool,

    /// The document is Pending, not Current.
    pub(crate) pending: bool,

    pub(crate) end: RunEnd,
    pub(crate) report: Report,
}

/// What the step that runs comes to.
#[derive(Drop)]
pub(crate) enum RunStep {
    /// Nothing is to be run.
    Nothing,

    /// Memory ran out.
    Memory,

    Over(Over),
}

// All that a run takes beside the capacity of its trace.
#[derive(Drop)]
pub(crate) struct Ready {
    pub(crate) ordered: OrderedDocument,
    pub(crate) overlap: bool,
    pub(crate) room: ReportRoom,
    pub(crate) marks: Items<PartMark>,
}

/// Makes the run that the node is to make, if it is to make one, and its report. All memory is taken before the first Test. The document
/// is that of the parts which the node holds, where it is known already.
pub(crate) fn run_step<M: Machine, C: Clock>(
    alloc: Global,
    start: u64,
    stopped: bool,
    node: &Node,
    document: Option<OrderedDocument>,
    machine: &mut M,
    clock: &mut C,
) -> RunStep
    requires fresh { M.trace machine.old ≡ [] }
    requires sound { Sound node.now }
    requires document { IfSome document (IsOfHeld node.now) }
    requires moment { start ≤ last_moment }
    ensures step { IsRunStep M.Resources node.now stopped (C.coming clock.old) (C.coming clock.new)
        start result machine.old machine.new }
    ensures later { C.faults clock.old ≤ C.faults clock.new }
{
    let Some(chosen) = chosen_of(node, stopped) else {
        return RunStep::Nothing;
    };
    match prepared(alloc, chosen.parts, document) {
        Ok(ready) => run_ready(alloc, start, node, chosen, ready, machine, clock),
        Err(Memory) => RunStep::Memory,
    }
}

// The document of parts that a node keeps, which may be known already, with all that its run takes.
fn prepared(alloc: Global, parts: &[Part], known: Option<OrderedDocument>) -> Result<Ready, Memory>
    requires staged { IsStaged parts.now }
    requires known { IfSome known (IsDocumentOf parts.now) }
    ensures { IfOk result (IsReadyFor parts.now) }
{
    match known {
        Some(ordered) => ready_of(alloc, parts, ordered),
        None => ready_of(alloc, parts, document_of(alloc, parts)?),
    }
}

// All that the run of a document takes.
fn ready_of(alloc: Global, parts: &[Part], ordered: OrderedDocument) -> Result<Ready, Memory>
    requires staged { IsStaged parts.now }
    requires document { IsDocumentOf parts.now ordered }
    ensures { IfOk result (IsReadyFor parts.now) }
{
    let overlap = overlaps(alloc, &ordered.document)?;
    let room = room_for(alloc, &ordered.document)?;
    let marks = Items::of(marks_of(alloc, parts)?);
    Ok(Ready {
        ordered,
        overlap,
        room,
        marks,
    })
}

fn document_of(alloc: Global, parts: &[Part]) -> Result<OrderedDocument, Memory>
    requires staged { IsStaged parts.now }
    ensures { IfOk result (IsDocumentOf parts.now) }
{
    match merge_ordered(alloc, parts) {
        Ok(ordered) => Ok(ordered),
        Err(error) => Err(only_memory(error)),
    }
}

// Parts that are merged are refused for nothing else.
fn only_memory(error: MergeError) -> Memory
    requires { error ≡ MergeError.Memory }
{
    match error {
        MergeError::Memory => Memory,
        _ => unreachable!(),
    }
}

// The run of the document, and its report.
fn run_ready<M: Machine, C: Clock>(
    alloc: Global,
    start: u64,
    node: &Node,
    chosen: Chosen,
    ready: Ready,
    machine: &mut M,
    clock: &mut C,
) -> RunStep
    requires fresh { M.trace machine.old ≡ [] }
    requires staged { IsStaged chosen.parts.now }
    requires ready { IsReadyFor chosen.parts.now ready }
    requires moment { start ≤ last_moment }
    ensures step { (stopped : Bool) → chosen_of stopped node.now ≡ Some
        (record {
          parts = chosen.entry.parts.now;
          mode = chosen.entry.mode;
          pending = chosen.entry.pending;
        })
        → IsRunStep M.Resources node.now stopped (C.coming clock.old) (C.coming clock.new) start
        result machine.old machine.new }
    ensures later { C.faults clock.old ≤ C.faults clock.new }
{
    let Ready {
        ordered,
        overlap,
        room,
        marks,
    } = ready;
    let end = run_merged(alloc, &ordered, chosen.mode, machine);
    if let RunEnd::Memory = end {
        return RunStep::Memory;
    }
    let document = ordered.document;
    let frame = Frame {
        job: node.next_job,
        initial: chosen.pending,
        pull: node.meta.refresh.is_pull(),
        start,
        end: end_of(start, clock),
        parts: marks,
    };
    report_laws();
    let report = report_of(room, &document, machine.calls(), frame);
    RunStep::Over(Over {
        document,
        overlap,
        pending: chosen.pending,
        end,
        report,
    })
}

// A second reading, or the first where it failed or lies before it.
fn end_of<C: Clock>(start: u64, clock: &mut C) -> u64
    requires moment { start ≤ last_moment }
    ensures time { (given : Option ℕ) × Gave (C.coming clock.old) given
        × (result ≡ end_of start given) }
    ensures took { Took 1 (C.coming clock.old) (C.coming clock.new) }
    ensures moment { result ≤ last_moment }
    ensures later { C.faults clock.old ≤ C.faults clock.new }
{
    match clock.now() {
        Ok(time) => { if time > start { time } else { start } }
        Err(_) => start,
    }
}
