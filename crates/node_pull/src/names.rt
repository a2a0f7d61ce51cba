//! The names of configurations that a node registers, that its parts have, and that it asks about.
ghost use Rattle.std.specs.Prelude.{◌≡◌, ◌<◌, ◌++◌, All, IfOk, filter, length, map, not};
ghost use Rattle.meta_config.specs.Parts.{IsOrderOfParts};
ghost use Rattle.node_state.specs.Metas.{IsNodeMeta};
ghost use Rattle.node_pull.specs.Names.{AreNamesAt, ArePartNames, asked_of, is_among, is_asked, registered_names};

use depend_order::OrderError;
use meta_config::{Meta, Partial, parts_order};
use mof_values::{Memory, Text, copy_texts};
use std::alloc::{AllocError, Global};

/// The names that a node registers: its ConfigurationNames, then each name of a partial configuration that is not among them.
pub(crate) fn registered_names(alloc: Global, meta: &Meta) -> Result<Vec<Text>, AllocError>
    ensures { IfOk result (λ names. names.items ≡ registered_names meta.now) }
{
    let own = meta.names.as_slice();
    let mut names = copy_texts(alloc, own)?;
    let mut left = meta.partials.as_slice();
    while let [partial, rest @ ..] = left {
        if !is_among(own, &partial.name) {
            names.push(partial.name.copy()?)?;
        }
        left = rest;
    }
    Ok(names)
}

fn is_among(names: &[Text], name: &Text) -> bool
    ensures { result ≡ is_among names.now name.now }
{
    names.iter().any(|other| *name == *other)
}

/// The names that the parts of a node have: those of its partial configurations, in their order, or, where none is declared,
/// its ConfigurationNames.
pub(crate) fn part_names(alloc: Global, meta: &Meta) -> Result<Vec<Text>, Memory>
    requires { IsNodeMeta meta.now }
    ensures { IfOk result (λ names. ArePartNames meta.now names.items) }
{
    let partials = meta.partials.as_slice();
    if partials.is_empty() {
        return Ok(copy_texts(alloc, meta.names.as_slice())?);
    }
    let order = order_of(alloc, meta)?;
    Ok(names_at(alloc, partials, &order)?)
}

// The order of the partial configurations, which have one.
fn order_of(alloc: Global, meta: &Meta) -> Result<Vec<u32>, Memory>
    requires { IsNodeMeta meta.now }
    ensures { IfOk result (λ order. IsOrderOfParts meta.now order.items) }
{
    match parts_order(alloc, meta) {
        Ok(order) => Ok(order),
        Err(OrderError::Memory) => Err(Memory),
        Err(OrderError::Cycle(_)) => unreachable!(),
    }
}

// The names of the partial configurations at these places.
fn names_at(alloc: Global, partials: &[Partial], places: &[u32]) -> Result<Vec<Text>, AllocError>
    requires { All (λ place. place < length partials.now) places.now }
    ensures { IfOk result (λ names. AreNamesAt partials.now places.now names.items) }
{
    let mut names = Vec::new(alloc);
    for place in places {
        names.push(partials[*place as usize].name.copy()?)?;
    }
    Ok(names)
}

/// Those of the names that the server is asked about: all whose parts are pulled.
pub(crate) fn asked_of(alloc: Global, meta: &Meta, names: &[Text]) -> Result<Vec<Text>, AllocError>
    ensures { IfOk result (λ asked. asked.items ≡ asked_of meta.now names.now) }
{
    let mut asked = Vec::new(alloc);
    let mut left = names;
    while let [name, rest @ ..] = left {
        if is_asked(meta, name) {
            asked.push(name.copy()?)?;
        }
        left = rest;
    }
    Ok(asked)
}

fn is_asked(meta: &Meta, name: &Text) -> bool
    ensures { result ≡ is_asked meta.now name.now }
{
    match meta.partial_named(name) {
        Some(partial) => partial.is_pulled(meta),
        None => true,
    }
}
