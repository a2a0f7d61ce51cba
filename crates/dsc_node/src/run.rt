//! Runs over merged documents with their order.
ghost use Rattle.std.specs.Prelude.{◌≡◌, ◌≤◌, ℕ, List, []};
ghost use Rattle.dsc_terms.specs.Counts.{RoseBy};
ghost use Rattle.depend_order.specs.Ordered.{IsOrdered};
ghost use Rattle.partial_merge.specs.declared.part.Part.{Part};
ghost use Rattle.partial_merge.specs.Merged.{Merged};
ghost use Rattle.resource_kinds.specs.Kinds.{calls_of, host_of};
ghost use Rattle.resource_kinds.specs.Trace.{Chain, host_failures};
ghost use Rattle.lcm_core.specs.Bounds.{sets_of, tests_of};
ghost use Rattle.lcm_core.specs.Legal.{Legal};
ghost use Rattle.dsc_node.specs.Ran.{EndsAs, IsWholeOrNone, RanOnHost};

use depend_order::OrderedDocument;
use dsc_outside::Host;
use lcm_core::{RunEnd, RunMode, run_ordered};
use mof_values::Memory;
use resource_kinds::{Kinds, Machine};
use std::alloc::Global;

/// Runs over the resources of a merged document in its order, that of their dependencies, on any machine.
///
/// Memory for the trace is reserved before the first Test. `RunEnd::Memory` comes where that or what a repair takes was out of memory, with
/// no entry, or is the answer of the last Test or Set.
pub fn run_merged<M: Machine>(
    alloc: Global,
    ordered: &OrderedDocument,
    mode: RunMode,
    machine: &mut M,
) -> RunEnd
    requires fresh { M.trace machine.old ≡ [] }
    requires merged { (parts : List Part) × Merged parts ordered.now.document }
    requires ordered { IsOrdered ordered.now }

    ensures legal { Legal ordered.now.document mode ordered.now.order (M.trace machine.new) }
    ensures whole { IsWholeOrNone ordered.now.document mode ordered.now.order result
        (M.trace machine.new) }
    ensures end { EndsAs result (M.trace machine.new) }
    ensures chain { Chain M.does M.still ordered.now.document machine.old (M.trace machine.new)
        machine.new }
    ensures faults { RoseBy (host_failures (M.trace machine.new)) (M.faults machine.old)
        (M.faults machine.new) }
    ensures later { M.faults machine.old ≤ M.faults machine.new }
    ensures bound { (r : ℕ) → (tests_of (M.trace machine.new) r ≤ 2)
        × (sets_of (M.trace machine.new) r ≤ 1) }
{
    let count = ordered.document.resources.as_slice().len() as u32;
    if let Err(Memory) = machine.reserve(3 * count) {
        return RunEnd::Memory;
    }
    run_ordered(alloc, ordered, mode, machine)
}

/// Runs over the resources of a merged document in its order, that of their dependencies, on the machine that a host is.
///
/// Where the host shows what it holds the trace is true of it.
pub fn run_kinds<H: Host>(
    alloc: Global,
    ordered: &OrderedDocument,
    mode: RunMode,
    kinds: &mut Kinds<H>,
) -> RunEnd
    requires fresh { calls_of kinds.old ≡ [] }
    requires merged { (parts : List Part) × Merged parts ordered.now.document }
    requires ordered { IsOrdered ordered.now }

    ensures ran { RanOnHost ordered.now.document mode ordered.now.order result (calls_of kinds.new)
        (H.shown (host_of kinds.old)) (H.shown (host_of kinds.new))
        (H.faults (host_of kinds.old)) (H.faults (host_of kinds.new)) }
    ensures later { H.faults (host_of kinds.old) ≤ H.faults (host_of kinds.new) }
    ensures bound { (r : ℕ) → (tests_of (calls_of kinds.new) r ≤ 2)
        × (sets_of (calls_of kinds.new) r ≤ 1) }
{
    run_merged(alloc, ordered, mode, kinds)
}
