//! Runs over a document: `monitor` tests, and `repair` also sets.
ghost use Rattle.std.specs.Prelude.{◌≡◌, ◌⊎◌, ◌<◌, ◌≤◌, ◌+◌, ◌*◌, ◌^◌, ℕ, [], length, replicate, All, false};
ghost use Rattle.dsc_terms.specs.Counts.{RoseBy};
ghost use Rattle.dsc_document.specs.Dependencies.{HasDistinctIds, NamesResources};
ghost use Rattle.depend_order.specs.Documents.{AreDependencies, IsOrderOfDocument};
ghost use Rattle.depend_order.specs.Ordered.{IsOrdered};
ghost use Rattle.resource_kinds.specs.Trace.{Chain, host_failures};
ghost use Rattle.lcm_core.specs.Bounds.{sets_of, tests_of};
ghost use Rattle.lcm_core.specs.Ends.{IsEnd, IsUnbegun};
ghost use Rattle.lcm_core.specs.Legal.{Legal};
ghost use Rattle.lcm_core.specs.Turn.{IsStop, all_held};
ghost use Rattle.lcm_core.specs.Whole.{Whole};

use crate::modes::{RunEnd, RunMode};
use crate::turns::{Stop, take_turn};
use depend_order::{OrderedDocument, dependencies};
use dsc_document::Document;
use resource_kinds::{Resources, TestAnswer};
use std::alloc::{AllocError, Global};

/// Tests each resource of the document in the order of dependencies, and in a repair sets what does not hold.
///
/// In a repair a resource is tested only where the last Test of each of its dependencies answered yes; where its own answers
/// no it is set, and tested again where that was done. A fault of one resource does not end the run. A repair takes memory of
/// its own before its first Test, and then none but what a Test or a Set takes.
pub fn run<R: Resources>(
    alloc: Global,
    document: &Document,
    order: &[u32],
    mode: RunMode,
    resources: &mut R,
) -> RunEnd
    requires few { length document.now.resources < 2 ^ 32 }
    requires known { NamesResources document.now }
    requires distinct { HasDistinctIds document.now }
    requires order { IsOrderOfDocument document.now order.now }
    requires fresh { R.trace resources.old ≡ [] }
    requires capacity { 3 * length document.now.resources ≤ R.spare resources.old }

    ensures legal { Legal document.now mode order.now (R.trace resources.new) }
    ensures whole { Whole document.now mode order.now (R.trace resources.new)
        ⊎ IsUnbegun mode result (R.trace resources.new) }
    ensures end { IsEnd mode result (R.trace resources.new) }
    ensures chain { Chain R.does R.still document.now resources.old
        (R.trace resources.new) resources.new }
    ensures faults { RoseBy (host_failures (R.trace resources.new)) (R.faults resources.old)
        (R.faults resources.new) }
    ensures later { R.faults resources.old ≤ R.faults resources.new }
    ensures capacity { R.spare resources.old
        ≤ R.spare resources.new + length (R.trace resources.new) }
    ensures bound { (r : ℕ) → (tests_of (R.trace resources.new) r ≤ 2)
        × (sets_of (R.trace resources.new) r ≤ 1) }
{
    match mode {
        RunMode::Monitor => monitor(document, order, resources),
        RunMode::Repair => repair_by_names(alloc, document, order, resources),
    }
}

/// The run of a document with its order, as [`run`] makes it. What its resources depend on is known, and no name is looked up again.
pub fn run_ordered<R: Resources>(
    alloc: Global,
    ordered: &OrderedDocument,
    mode: RunMode,
    resources: &mut R,
) -> RunEnd
    requires ordered { IsOrdered ordered.now }
    requires fresh { R.trace resources.old ≡ [] }
    requires capacity { 3 * length ordered.now.document.resources ≤ R.spare resources.old }

    ensures legal { Legal ordered.now.document mode ordered.now.order (R.trace resources.new) }
    ensures whole { Whole ordered.now.document mode ordered.now.order (R.trace resources.new)
        ⊎ IsUnbegun mode result (R.trace resources.new) }
    ensures end { IsEnd mode result (R.trace resources.new) }
    ensures chain { Chain R.does R.still ordered.now.document resources.old
        (R.trace resources.new) resources.new }
    ensures faults { RoseBy (host_failures (R.trace resources.new)) (R.faults resources.old)
        (R.faults resources.new) }
    ensures later { R.faults resources.old ≤ R.faults resources.new }
    ensures capacity { R.spare resources.old
        ≤ R.spare resources.new + length (R.trace resources.new) }
    ensures bound { (r : ℕ) → (tests_of (R.trace resources.new) r ≤ 2)
        × (sets_of (R.trace resources.new) r ≤ 1) }
{
    let OrderedDocument {
        document,
        order,
        depends,
    } = ordered;
    match mode {
        RunMode::Monitor => monitor(document, order.as_slice(), resources),
        RunMode::Repair => {
            let depends = depends.as_slice();
            repair(alloc, document, order.as_slice(), depends, resources)
        }
    }
}

// Tests the resources in order, and changes nothing.
fn monitor<R: Resources>(document: &Document, order: &[u32], resources: &mut R) -> RunEnd
    requires order { IsOrderOfDocument document.now order.now }
    requires fresh { R.trace resources.old ≡ [] }
    requires capacity { 3 * length document.now.resources ≤ R.spare resources.old }

    ensures legal { Legal document.now RunMode.Monitor order.now (R.trace resources.new) }
    ensures whole { Whole document.now RunMode.Monitor order.now (R.trace resources.new) }
    ensures end { IsEnd RunMode.Monitor result (R.trace resources.new) }
    ensures chain { Chain R.does R.still document.now resources.old
        (R.trace resources.new) resources.new }
    ensures faults { RoseBy (host_failures (R.trace resources.new)) (R.faults resources.old)
        (R.faults resources.new) }
    ensures later { R.faults resources.old ≤ R.faults resources.new }
    ensures capacity { R.spare resources.old
        ≤ R.spare resources.new + length (R.trace resources.new) }
{
    for place in order {
        if let TestAnswer::Memory = resources.test(document, *place) {
            return RunEnd::Memory;
        }
    }
    RunEnd::Finished
}

// Finds what each resource depends on, and repairs.
fn repair_by_names<R: Resources>(
    alloc: Global,
    document: &Document,
    order: &[u32],
    resources: &mut R,
) -> RunEnd
    requires few { length document.now.resources < 2 ^ 32 }
    requires known { NamesResources document.now }
    requires distinct { HasDistinctIds document.now }
    requires order { IsOrderOfDocument document.now order.now }
    requires fresh { R.trace resources.old ≡ [] }
    requires capacity { 3 * length document.now.resources ≤ R.spare resources.old }

    ensures legal { Legal document.now RunMode.Repair order.now (R.trace resources.new) }
    ensures whole { Whole document.now RunMode.Repair order.now (R.trace resources.new)
        ⊎ IsUnbegun RunMode.Repair result (R.trace resources.new) }
    ensures end { IsEnd RunMode.Repair result (R.trace resources.new) }
    ensures chain { Chain R.does R.still document.now resources.old
        (R.trace resources.new) resources.new }
    ensures faults { RoseBy (host_failures (R.trace resources.new)) (R.faults resources.old)
        (R.faults resources.new) }
    ensures later { R.faults resources.old ≤ R.faults resources.new }
    ensures capacity { R.spare resources.old
        ≤ R.spare resources.new + length (R.trace resources.new) }
{
    match dependencies(alloc, document) {
        Ok(depends) => repair(alloc, document, order, &depends, resources),
        Err(AllocError) => RunEnd::Memory,
    }
}

// Lets each resource whose dependencies succeeded take its turn.
fn repair<R: Resources>(
    alloc: Global,
    document: &Document,
    order: &[u32],
    depends: &[Vec<u32>],
    resources: &mut R,
) -> RunEnd
    requires order { IsOrderOfDocument document.now order.now }
    requires depends { AreDependencies document.now depends.now }
    requires fresh { R.trace resources.old ≡ [] }
    requires capacity { 3 * length document.now.resources ≤ R.spare resources.old }

    ensures legal { Legal document.now RunMode.Repair order.now (R.trace resources.new) }
    ensures whole { Whole document.now RunMode.Repair order.now (R.trace resources.new)
        ⊎ IsUnbegun RunMode.Repair result (R.trace resources.new) }
    ensures end { IsEnd RunMode.Repair result (R.trace resources.new) }
    ensures chain { Chain R.does R.still document.now resources.old
        (R.trace resources.new) resources.new }
    ensures faults { RoseBy (host_failures (R.trace resources.new)) (R.faults resources.old)
        (R.faults resources.new) }
    ensures later { R.faults resources.old ≤ R.faults resources.new }
    ensures capacity { R.spare resources.old
        ≤ R.spare resources.new + length (R.trace resources.new) }
{
    let mut held = match vec![in alloc; false; depends.len()] {
        Ok(held) => held,
        Err(AllocError) => return RunEnd::Memory,
    };
    match take_turns(document, order, depends, &mut held, resources) {
        Ok(()) => RunEnd::Finished,
        Err(Stop::RebootAsked(place)) => RunEnd::RebootAsked(place),
        Err(Stop::Memory) => RunEnd::Memory,
    }
}

// Takes the turns in order, and marks in `held` the resources that succeeded.
fn take_turns<R: Resources>(
    document: &Document,
    order: &[u32],
    depends: &[Vec<u32>],
    held: &mut [bool],
    resources: &mut R,
) -> Result<(), Stop>
    requires depends { AreDependencies document.now depends.now }
    requires none { held.old ≡ replicate (length document.now.resources) false }
    requires order { IsOrderOfDocument document.now order.now }
    requires fresh { R.trace resources.old ≡ [] }
    requires capacity { 3 * length document.now.resources ≤ R.spare resources.old }

    ensures legal { Legal document.now RunMode.Repair order.now (R.trace resources.new) }
    ensures whole { Whole document.now RunMode.Repair order.now (R.trace resources.new) }
    ensures end { IsStop result (R.trace resources.new) }
    ensures chain { Chain R.does R.still document.now resources.old
        (R.trace resources.new) resources.new }
    ensures faults { RoseBy (host_failures (R.trace resources.new)) (R.faults resources.old)
        (R.faults resources.new) }
    ensures later { R.faults resources.old ≤ R.faults resources.new }
    ensures capacity { R.spare resources.old
        ≤ R.spare resources.new + length (R.trace resources.new) }
{
    for place in order {
        let at = *place as usize;
        if !all_held(&depends[at], held) {
            continue;
        }
        held[at] = take_turn(document, *place, resources)?;
    }
    Ok(())
}

// Returns whether all of these places are marked.
fn all_held(places: &[u32], held: &[bool]) -> bool
    requires { All (λ q. q < length held.now) places.now }
    ensures { result ≡ all_held held.now places.now }
{
    places.iter().all(|place| held[*place as usize])
}
