//! The order of the resources of a document.
ghost use Rattle.std.specs.Prelude.{◌≡◌, ◌+◌, ◌<◌, ◌≤◌, ◌^◌, IfOk, length};
ghost use Rattle.depend_order.specs.Answers.{IfCycle, OnCycle};
ghost use Rattle.dsc_document.specs.Dependencies.{HasDistinctIds, NamesResources};
ghost use Rattle.depend_order.specs.Documents.{AreDependencies, IsCycleOfDocument, IsOrderOfDocument, IsUnordered, steps_of_order};

use crate::names::known_places;
use crate::numbers::order_of_counted;
use crate::{OrderError, Steps};
use dsc_document::Document;
use std::alloc::{AllocError, Global};
use std::marker::Brand;
use std::sync::ledger::{Blank, Ledger};

/// The order of the resources of a document, by the names in their DependsOn; a resource is its place.
///
/// At each position stands the earliest resource that stands at no earlier position and whose dependencies all
/// do. `Cycle` comes exactly where no such list of all resources exists. The walk that finds it begins at the
/// earliest resource that is left, and goes on from each to the first name in its DependsOn that is left.
pub fn order(alloc: Global, document: &Document) -> Result<Vec<u32>, OrderError>
    requires few { length document.now.resources < 2 ^ 32 }
    requires known { NamesResources document.now }
    requires distinct { HasDistinctIds document.now }
    ensures order { IfOk result (λ order. IsOrderOfDocument document.now order.items) }
    ensures cycle { IfCycle result (IsCycleOfDocument document.now) }
    ensures no_order { OnCycle result (IsUnordered document.now) }
{
    order_uncounted::<Brand>(alloc, document, Blank::new(1))
}

// The same, with a ledger for steps that nobody reads.
fn order_uncounted<L: Ledger>(
    alloc: Global,
    document: &Document,
    blank: Blank,
) -> Result<Vec<u32>, OrderError>
    requires name { blank.name ≡ L.name }
    requires parts { blank.parts ≡ L.parts }
    requires some { 0 < blank.parts }
    requires few { length document.now.resources < 2 ^ 32 }
    requires known { NamesResources document.now }
    requires distinct { HasDistinctIds document.now }
    ensures order { IfOk result (λ order. IsOrderOfDocument document.now order.items) }
    ensures cycle { IfCycle result (IsCycleOfDocument document.now) }
    ensures no_order { OnCycle result (IsUnordered document.now) }
{
    let mut steps = Steps::<L>::new(blank);
    order_counted(alloc, document, &mut steps)
}

/// The same as [`order`], in a bounded number of steps; see [`Steps`].
///
/// The bound is three steps for each resource and two for each name in a DependsOn, also where the answer is
/// `Cycle` or `Memory`.
pub fn order_counted<L: Ledger>(
    alloc: Global,
    document: &Document,
    steps: &mut Steps<L>,
) -> Result<Vec<u32>, OrderError>
    requires few { length document.now.resources < 2 ^ 32 }
    requires known { NamesResources document.now }
    requires distinct { HasDistinctIds document.now }
    ensures order { IfOk result (λ order. IsOrderOfDocument document.now order.items) }
    ensures cycle { IfCycle result (IsCycleOfDocument document.now) }
    ensures no_order { OnCycle result (IsUnordered document.now) }
    ensures steps { steps.new ≤ steps.old + steps_of_order document.now }
{
    let depends = known_places(alloc, document, steps)?;
    order_of_counted(alloc, &depends, steps)
}

/// The places of the resources that each resource depends on, in the order of the names in its DependsOn.
pub fn dependencies(alloc: Global, document: &Document) -> Result<Vec<Vec<u32>>, AllocError>
    requires few { length document.now.resources < 2 ^ 32 }
    requires known { NamesResources document.now }
    requires distinct { HasDistinctIds document.now }
    ensures { IfOk result (λ depends. AreDependencies document.now depends.items) }
{
    dependencies_uncounted::<Brand>(alloc, document, Blank::new(1))
}

// The same, with a ledger for steps that nobody reads.
fn dependencies_uncounted<L: Ledger>(
    alloc: Global,
    document: &Document,
    blank: Blank,
) -> Result<Vec<Vec<u32>>, AllocError>
    requires name { blank.name ≡ L.name }
    requires parts { blank.parts ≡ L.parts }
    requires some { 0 < blank.parts }
    requires few { length document.now.resources < 2 ^ 32 }
    requires known { NamesResources document.now }
    requires distinct { HasDistinctIds document.now }
    ensures { IfOk result (λ depends. AreDependencies document.now depends.items) }
{
    let mut steps = Steps::<L>::new(blank);
    known_places(alloc, document, &mut steps)
}
