//! The command `test`: a run that monitors the document that the input declares.
ghost use Rattle.std.specs.Prelude.{◌≡◌, ◌⊎◌, ◌<◌, ◌^◌, ◌++◌, List, [], length, All, IfErr, IfOk, OnOk, string_bytes};
ghost use Rattle.depend_order.specs.Ordered.{IsOrdered};
ghost use Rattle.partial_merge.specs.declared.part.Part.{Part};
ghost use Rattle.partial_merge.specs.Merged.{Merged};
ghost use Rattle.resource_kinds.specs.Trace.{missed_count, place_of};
ghost use Rattle.lcm_core.specs.RunLaws.{EndsAtYes};
ghost use Rattle.lcm_core.specs.declared.modes.RunEnd.{RunEnd};
ghost use Rattle.dsc_node.specs.Lines.{IsRunText, overlap_line, run_lines};
ghost use Rattle.lcm_program.specs.Further.{nothing_further_of_runs};
ghost use Rattle.lcm_program.specs.Test.{IsRunOf, IsUntested, Monitored};

use crate::input::{Unread, leave, read_ordered};
use dsc_document::Document;
use dsc_node::{lines_of, run_merged};
use dsc_outside::Source;
use lcm_core::{RunEnd, RunMode, count_succeeded};
use mof_values::Memory;
use partial_merge::OrderedDocument;
use resource_kinds::{Entry, Machine, overlaps};
use std::alloc::{AllocError, Global};

/// What a run comes to.
#[derive(Drop)]
pub struct Outcome {
    /// The printed lines.
    pub lines: String,

    /// How many resources did not succeed.
    pub missed: u32,
}

/// Reads the input to its end, and tests each resource of its document in the order of dependencies.
pub fn read_and_monitor<S: Source, M: Machine>(
    alloc: Global,
    input: &mut S,
    machine: &mut M,
) -> Result<Outcome, Unread>
    requires fresh { M.trace machine.old ≡ [] }
    ensures ok { IfOk result (λ outcome. IsRunOf M.Resources nothing_further_of_runs
        (S.left input.old) machine.old machine.new (string_bytes outcome.lines) outcome.missed) }
    ensures err { IfErr result (λ e. IsUntested M.Resources nothing_further_of_runs e
        (S.left input.old) (S.faults input.old) (S.faults input.new) machine.old machine.new) }
{
    let ordered = match read_ordered(alloc, input) {
        Ok(ordered) => ordered,
        Err(unread) => return Err(unread),
    };
    let outcome = monitor_document(alloc, &ordered, machine);
    leave(ordered);
    match outcome {
        Ok(outcome) => Ok(outcome),
        Err(Memory) => Err(Unread::Memory),
    }
}

// Tests each resource of a merged document, in the order of dependencies.
fn monitor_document<M: Machine>(
    alloc: Global,
    ordered: &OrderedDocument,
    machine: &mut M,
) -> Result<Outcome, Memory>
    requires fresh { M.trace machine.old ≡ [] }
    requires merged { (parts : List Part) × Merged parts ordered.now.document }
    requires ordered { IsOrdered ordered.now }

    ensures run { (machine.new ≡ machine.old) ⊎ ((end : RunEnd) × Monitored M.Resources
        nothing_further_of_runs ordered.now.document end machine.old machine.new) }
    ensures ok { OnOk result (Monitored M.Resources nothing_further_of_runs ordered.now.document
        RunEnd.Finished machine.old machine.new) }
    ensures lines { IfOk result (λ outcome. IsRunText ordered.now.document (M.trace machine.new)
        (string_bytes outcome.lines)) }
    ensures missed { IfOk result (λ outcome. outcome.missed
        ≡ missed_count ordered.now.document (M.trace machine.new)) }
{
    let document = &ordered.document;
    let overlap = overlaps(alloc, document)?;
    match run_merged(alloc, ordered, RunMode::Monitor, machine) {
        RunEnd::Finished | RunEnd::RebootAsked(_) => {
            Ok(outcome_of(alloc, document, machine.calls(), overlap)?)
        }
        RunEnd::Memory => Err(Memory),
    }
}

// The lines of a run, with what was found of overlaps, and how many resources did not succeed in it.
fn outcome_of(
    alloc: Global,
    document: &Document,
    calls: &[Entry],
    overlap: bool,
) -> Result<Outcome, AllocError>
    requires few { length document.now.resources < 2 ^ 32 }
    requires known { All (λ e. place_of e < length document.now.resources) calls.now }
    requires ends { EndsAtYes calls.now }
    ensures lines { IfOk result (λ outcome. string_bytes outcome.lines
        ≡ run_lines document.now calls.now ++ overlap_line overlap) }
    ensures missed { IfOk result (λ outcome. outcome.missed ≡ missed_count document.now calls.now) }
{
    let count = document.resources.as_slice().len();
    let good = count_succeeded(calls);
    let lines = lines_of(alloc, document, calls, good, overlap)?;
    let missed = (count - good) as u32;
    Ok(Outcome { lines, missed })
}
