//! The places of the resources that names mean.
ghost use Rattle.std.specs.Prelude.{◌≡◌, ◌+◌, ◌<◌, ◌≤◌, ◌^◌, ℕ, List, AllPairs, IfErr, IfOk, OnOk, Some, length, slice_get, take};
ghost use Rattle.std.specs.List.{AllZip};
ghost use Rattle.mof_values.specs.Fold.{SameName, fold_case};
ghost use Rattle.dsc_document.specs.Dependencies.{HasDistinctIds, NamesResources};
ghost use Rattle.depend_order.specs.Documents.{steps_of_names};
ghost use Rattle.depend_order.specs.Index.{IsIndex, IsKnown, IsKept, AreResolvedIn};
ghost use Rattle.depend_order.specs.Refused.{IsNameFault};
ghost use Rattle.depend_order.specs.Repeats.{IsRepeatedId, spot_of};

use crate::{InOrderError, Steps};
use dsc_document::{Document, Resource, Spot};
use mof_values::Text;
use std::alloc::{AllocError, Global};
use std::collections::HashMap;
use std::marker::Brand;
use std::sync::ledger::{Blank, Ledger};

/// For each resource the places of the resources that the names in its DependsOn mean, in their order.
pub fn places_of_names(alloc: Global, document: &Document) -> Result<Vec<Vec<u32>>, InOrderError>
    requires few { length document.now.resources < 2 ^ 32 }
    ensures places { IfOk result (λ depends. AreResolvedIn document.now depends.items) }
    ensures distinct { IfOk result (λ _. HasDistinctIds document.now) }
    ensures refused { IfErr result (IsNameFault document.now) }
{
    places_uncounted::<Brand>(alloc, document, Blank::new(1))
}

// The same, with a ledger for steps that nobody reads.
fn places_uncounted<L: Ledger>(
    alloc: Global,
    document: &Document,
    blank: Blank,
) -> Result<Vec<Vec<u32>>, InOrderError>
    requires name { blank.name ≡ L.name }
    requires parts { blank.parts ≡ L.parts }
    requires some { 0 < blank.parts }
    requires few { length document.now.resources < 2 ^ 32 }
    ensures places { IfOk result (λ depends. AreResolvedIn document.now depends.items) }
    ensures distinct { IfOk result (λ _. HasDistinctIds document.now) }
    ensures refused { IfErr result (IsNameFault document.now) }
{
    let mut steps = Steps::<L>::new(blank);
    places_counted(alloc, document, &mut steps)
}

/// The same as [`places_of_names`], and its steps are counted.
#[tactic(auto, using(crate::proofs::Counting::names_at_most))]
pub fn places_counted<L: Ledger>(
    alloc: Global,
    document: &Document,
    steps: &mut Steps<L>,
) -> Result<Vec<Vec<u32>>, InOrderError>
    requires few { length document.now.resources < 2 ^ 32 }
    ensures places { IfOk result (λ depends. AreResolvedIn document.now depends.items) }
    ensures distinct { IfOk result (λ _. HasDistinctIds document.now) }
    ensures refused { IfErr result (IsNameFault document.now) }
    ensures steps { steps.new ≤ steps.old + steps_of_names document.now }
{
    let resources = document.resources.as_slice();
    let index = index_of(alloc, resources, steps)?;
    let mut depends = Vec::new(alloc);
    for resource in resources {
        let names = resource.depends.as_slice();
        let places = places_in(alloc, &index, names, steps)?;
        if places.len() < names.len() {
            return Err(InOrderError::DependsUnknown {
                spot: spot_of(resource),
                name: names[places.len()].copy()?,
            });
        }
        depends.push(places)?;
    }
    Ok(depends)
}

/// The same as [`places_counted`] of a document whose ids differ and whose dependencies are resources.
pub fn known_places<L: Ledger>(
    alloc: Global,
    document: &Document,
    steps: &mut Steps<L>,
) -> Result<Vec<Vec<u32>>, AllocError>
    requires few { length document.now.resources < 2 ^ 32 }
    requires known { NamesResources document.now }
    requires distinct { HasDistinctIds document.now }
    ensures places { IfOk result (λ depends. AreResolvedIn document.now depends.items) }
    ensures steps { steps.new ≤ steps.old + steps_of_names document.now }
{
    match places_counted(alloc, document, steps) {
        Ok(places) => Ok(places),
        Err(InOrderError::Memory) => Err(AllocError),
        Err(InOrderError::DuplicateId { .. }) => unreachable!(),
        Err(InOrderError::DependsUnknown { .. }) => unreachable!(),
        Err(InOrderError::Cycle(_)) => unreachable!(),
    }
}

// The places of the resources by the folds of their ids, where no two are the same.
fn index_of<L: Ledger>(
    alloc: Global,
    resources: &[Resource],
    steps: &mut Steps<L>,
) -> Result<HashMap<Vec<char>, u32>, InOrderError>
    requires few { length resources.now < 2 ^ 32 }
    ensures index { IfOk result (IsIndex resources.now) }
    ensures apart { IfOk result (λ _. AllPairs (λ a b. SameName a.id b.id → ⊥) resources.now) }
    ensures refused { IfErr result (IsRepeatedId resources.now) }
    ensures steps { steps.new ≤ steps.old + length resources.now }
{
    let mut index = HashMap::with_capacity(alloc, resources.len())?;
    for (place, resource) in resources.iter().enumerate() {
        let mut fold = Vec::with_capacity(alloc, resource.id.as_slice().len())?;
        write_fold(&mut fold, &resource.id)?;
        let before = index.insert(fold, place as u32)?;
        steps.tick();
        if let Some(first) = before {
            return Err(InOrderError::DuplicateId {
                first: spot_of(&resources[first as usize]),
                second: spot_of(resource),
            });
        }
    }
    Ok(index)
}

fn spot_of(resource: &Resource) -> Spot
    ensures { result ≡ spot_of resource.now }
{
    Spot {
        part: resource.part,
        index: resource.index,
    }
}

// The places that the names mean, up to the first that means none.
fn places_in<L: Ledger>(
    alloc: Global,
    index: &HashMap<Vec<char>, u32>,
    names: &[Text],
    steps: &mut Steps<L>,
) -> Result<Vec<u32>, AllocError>
    ensures places { IfOk result (λ places. AllZip (IsKept index.now) (take (length places.items) names.now) places.items) }
    ensures count { IfOk result (λ places. length places.items ≤ length names.now) }
    ensures unknown { IfOk result (λ places. (name : List ℕ) → slice_get names.now (length places.items) ≡ Some name → IsKnown index.now name → ⊥) }
    ensures steps { steps.new ≤ steps.old + length names.now }
{
    let mut places = Vec::with_capacity(alloc, names.len())?;
    let mut fold = Vec::new(alloc);
    for name in names {
        write_fold(&mut fold, name)?;
        let found = index.get(&fold);
        steps.tick();
        match found {
            Some(place) => places.push(*place)?,
            None => return Ok(places),
        }
    }
    Ok(places)
}

// Writes the fold of the text in place of what there was.
fn write_fold(fold: &mut Vec<char>, text: &Text) -> Result<(), AllocError>
    ensures { OnOk result (fold.new.items ≡ fold_case text.now) }
{
    fold.clear();
    for c in text.as_slice() {
        fold.push(c.to_ascii_lowercase())?;
    }
    Ok(())
}
