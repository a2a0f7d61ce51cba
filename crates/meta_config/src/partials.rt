//! The partial configurations that instances declare.
ghost use Rattle.std.specs.Prelude.{◌≡◌, ◌++◌, [], ◌∷◌, IfOk, OnOk, codes, filter, map, option_and_then};
ghost use Rattle.meta_config.specs.Making.{depends_of, partial_name, partial_of};
ghost use Rattle.meta_config.specs.Properties.{given};
ghost use Rattle.meta_config.specs.Tables.{is_of};
ghost use Rattle.meta_config.specs.Words.{name_of_reference, refresh_of};

use crate::making::texts_given;
use crate::properties::{given, text_given};
use crate::tables::{Class, is_of};
use crate::words::{after, refresh_of};
use crate::{Partial, RefreshMode};
use mof_values::{Instance, Items, Property, Text};
use std::alloc::{AllocError, Global};

pub fn partials_of(alloc: Global, instances: &[Instance]) -> Result<Vec<Partial>, AllocError>
    ensures { IfOk result (λ partials.
        partials.items ≡ map partial_of (filter (is_of Class.Partial) instances.now)) }
{
    let mut partials = Vec::new(alloc);
    let mut left = instances;
    while let [instance, rest @ ..] = left {
        put_partial(alloc, &mut partials, instance)?;
        left = rest;
    }
    Ok(partials)
}

fn put_partial(
    alloc: Global,
    partials: &mut Vec<Partial>,
    instance: &Instance,
) -> Result<(), AllocError>
    ensures { OnOk result (partials.new.items ≡ partials.old.items ++
        map partial_of (filter (is_of Class.Partial) (instance.now ∷ []))) }
{
    if is_of(Class::Partial, instance) {
        partials.push(partial_of(alloc, instance)?)?;
    }
    Ok(())
}

fn partial_of(alloc: Global, instance: &Instance) -> Result<Partial, AllocError>
    ensures { IfOk result (λ partial. partial ≡ partial_of instance.now) }
{
    let properties = instance.properties.as_slice();
    let name = partial_name(properties).to_vec(alloc)?;
    let depends = depends_of(alloc, properties)?;
    let exclusive = texts_given(alloc, properties, "ExclusiveResources")?;
    Ok(Partial {
        name: Text::of(name),
        depends: Items::of(depends),
        exclusive: Items::of(exclusive),
        refresh: refresh_given(properties),
    })
}

fn refresh_given(properties: &[Property]) -> Option<RefreshMode>
    ensures { result ≡ option_and_then refresh_of (given (codes "RefreshMode") properties.now) }
{
    match given(properties, "RefreshMode") {
        Some(value) => refresh_of(value),
        None => None,
    }
}

/// The name of the partial configuration of these properties.
pub fn partial_name(properties: &[Property]) -> &[char]
    ensures { result.now ≡ partial_name properties.now }
{
    match text_given(properties, "ResourceID") {
        Some(id) => after(id.as_slice(), 22),
        None => &[],
    }
}

/// The names that the partial configuration of these properties depends on.
pub fn depends_of(alloc: Global, properties: &[Property]) -> Result<Vec<Text>, AllocError>
    ensures { IfOk result (λ names. names.items ≡ depends_of properties.now) }
{
    let references = texts_given(alloc, properties, "DependsOn")?;
    names_in(alloc, &references)
}

fn names_in(alloc: Global, references: &[Text]) -> Result<Vec<Text>, AllocError>
    ensures { IfOk result (λ names. names.items ≡ map name_of_reference references.now) }
{
    let mut names = Vec::new(alloc);
    let mut left = references;
    while let [reference, rest @ ..] = left {
        names.push(name_in(alloc, reference)?)?;
        left = rest;
    }
    Ok(names)
}

fn name_in(alloc: Global, reference: &Text) -> Result<Text, AllocError>
    ensures { IfOk result (λ name. name ≡ name_of_reference reference.now) }
{
    Ok(Text::of(after(reference.as_slice(), 22).to_vec(alloc)?))
}
