//! Partial configurations: how a node comes to the part of each, and their order.
ghost use Rattle.std.specs.Prelude.{◌≡◌, ◌<◌, ◌^◌, All, Any, ℕ, List, IfOk, IfNone, IfSome, length, option_copied};
ghost use Rattle.std.specs.List.{AllZip};
ghost use Rattle.mof_values.specs.Fold.{SameName};
ghost use Rattle.depend_order.specs.Answers.{IfCycle, OnCycle};
ghost use Rattle.meta_config.specs.Parts.{AreResolvedParts, IsCycleOfParts, IsMeta, IsOrderOfParts, IsPartName, MeansPart, is_pulled, mode_in, partial_named};

use crate::{Meta, Partial, RefreshMode};
use depend_order::{OrderError, order_of};
use mof_values::{Text, same_text};
use std::alloc::{AllocError, Global};

impl Meta {
    /// The partial configuration that has the name, where one is declared.
    pub fn partial_named<'a>(&'a self, name: &Text) -> Option<&'a Partial>
        ensures { option_copied result ≡ partial_named self.now.partials name.now }
    {
        self.partials
            .as_slice()
            .iter()
            .find(|partial| same_text(name, &partial.name))
    }
}

impl Partial {
    /// How a node of this meta-configuration comes to the part: by the mode of the partial configuration, or else by that of
    /// the meta-configuration.
    pub fn mode(&self, meta: &Meta) -> RefreshMode
        ensures { result ≡ mode_in meta.now self.now }
    {
        match self.refresh {
            Some(refresh) => refresh,
            None => meta.refresh,
        }
    }

    /// Returns whether that mode is Pull.
    pub fn is_pulled(&self, meta: &Meta) -> bool
        ensures { result ≡ is_pulled meta.now self.now }
    {
        self.mode(meta).is_pull()
    }
}

/// The order of the partial configurations, by the names in their own DependsOn; a partial configuration is its place.
///
/// At each position stands the earliest one that stands at no earlier position and whose dependencies all do. `Cycle`
/// comes exactly where no such list of all of them exists. The walk that finds it begins at the earliest one that is
/// left, and goes on from each to the first name in its DependsOn that is left.
pub fn parts_order(alloc: Global, meta: &Meta) -> Result<Vec<u32>, OrderError>
    requires { IsMeta meta.now }
    ensures order { IfOk result (λ order. IsOrderOfParts meta.now order.items) }
    ensures cycle { IfCycle result (IsCycleOfParts meta.now) }
    ensures no_order { OnCycle result
        ((order : List ℕ) → IsOrderOfParts meta.now order → ⊥) }
{
    let depends = places_of_names(alloc, meta.partials.as_slice())?;
    order_of(alloc, &depends)
}

// For each of the partial configurations the places that the names in its DependsOn mean, in their order.
fn places_of_names(alloc: Global, partials: &[Partial]) -> Result<Vec<Vec<u32>>, AllocError>
    requires few { length partials.now < 2 ^ 32 }
    requires known { All (λ partial. All (IsPartName partials.now) partial.depends) partials.now }
    ensures { IfOk result (λ depends. AreResolvedParts partials.now partials.now depends.items) }
{
    let mut depends = Vec::new(alloc);
    for partial in partials {
        let places = places_in(alloc, partials, partial.depends.as_slice())?;
        depends.push(places)?;
    }
    Ok(depends)
}

// The places that the names mean.
fn places_in(alloc: Global, partials: &[Partial], names: &[Text]) -> Result<Vec<u32>, AllocError>
    requires few { length partials.now < 2 ^ 32 }
    requires known { All (IsPartName partials.now) names.now }
    ensures { IfOk result (λ places. AllZip (MeansPart partials.now) names.now places.items) }
{
    let mut places = Vec::with_capacity(alloc, names.len())?;
    for name in names {
        places.push(place_of(partials, name))?;
    }
    Ok(places)
}

// The place that the name means.
fn place_of(partials: &[Partial], name: &Text) -> u32
    requires few { length partials.now < 2 ^ 32 }
    requires known { IsPartName partials.now name.now }
    ensures { MeansPart partials.now name.now result }
{
    match partials
        .iter()
        .position(|partial| same_text(name, &partial.name))
    {
        Some(place) => place as u32,
        None => unreachable!(),
    }
}
