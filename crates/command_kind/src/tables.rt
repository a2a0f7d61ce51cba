//! The class of commands, and the table of its properties.
ghost use Rattle.std.specs.Prelude.{◌≡◌, IfOk, find, is_some, not, option_map};
ghost use Rattle.std.specs.List.{list_all, list_any};
ghost use Rattle.std.specs.Option.{option_copied};
ghost use Rattle.mof_values.specs.Fold.{same_name};
ghost use Rattle.resource_kinds.specs.Tables.{common, fits_row, is_filled_text, is_null, may_stand};
ghost use Rattle.command_kind.specs.Tables.{are_texts, command_rows, first_missing, first_wrong_of_command, is_command, name_of};

use mof_values::{Ident, Instance, Property, Scalar, Value};
use std::alloc::{AllocError, Global};

/// Returns whether the instance is of the class of commands.
pub fn is_command(instance: &Instance) -> bool
    ensures { result ≡ is_command instance.now }
{
    instance.class.is_named("DSC_CommandResource")
}

/// The properties that each command must have.
#[derive(Clone, Copy, Debug, PartialEq, Eq)]
pub enum Needed {
    Name,
    TestProgram,
    SetProgram,
}

/// The first of them that is missing.
pub fn first_missing(instance: &Instance) -> Option<Needed>
    ensures { option_map name_of result ≡ first_missing instance.now }
{
    if instance.text_named("Name").is_none() {
        Some(Needed::Name)
    } else if instance.text_named("TestProgram").is_none() {
        Some(Needed::TestProgram)
    } else if instance.text_named("SetProgram").is_none() {
        Some(Needed::SetProgram)
    } else {
        None
    }
}

/// The name of that property.
pub fn name_of(alloc: Global, needed: Needed) -> Result<Ident, AllocError>
    ensures { IfOk result (λ name. name ≡ name_of needed) }
{
    match needed {
        Needed::Name => Ident::of_ascii(alloc, "Name"),
        Needed::TestProgram => Ident::of_ascii(alloc, "TestProgram"),
        Needed::SetProgram => Ident::of_ascii(alloc, "SetProgram"),
    }
}

/// The first property that may not stand in a command.
pub fn first_wrong<'a>(instance: &'a Instance) -> Option<&'a Property>
    ensures { option_copied result ≡ first_wrong_of_command instance.now }
{
    let mut left = instance.properties.as_slice();
    while let [property, rest @ ..] = left {
        if !may_stand(property) {
            return Some(property);
        }
        left = rest;
    }
    None
}

fn may_stand(property: &Property) -> bool
    ensures { result ≡ may_stand command_rows property.now }
{
    is_null(&property.value) || is_common(&property.name) || fits_a_row(property)
}

fn fits_a_row(property: &Property) -> bool
    ensures { result ≡ list_any (fits_row property.now) command_rows }
{
    let (name, value) = (&property.name, &property.value);
    (name.is_named("Name") && is_filled_text(value))
        || (name.is_named("TestProgram") && is_filled_text(value))
        || (name.is_named("TestArguments") && are_texts(value))
        || (name.is_named("SetProgram") && is_filled_text(value))
        || (name.is_named("SetArguments") && are_texts(value))
}

// Returns whether every kind of resource has the property.
fn is_common(name: &Ident) -> bool
    ensures { result ≡ list_any (same_name name.now) common }
{
    name.is_named("ResourceID")
        || name.is_named("ModuleName")
        || name.is_named("ModuleVersion")
        || name.is_named("SourceInfo")
        || name.is_named("ConfigurationName")
        || name.is_named("DependsOn")
}

fn is_null(value: &Value) -> bool
    ensures { result ≡ is_null value.now }
{
    matches!(value, Value::One(Scalar::Null))
}

fn is_filled_text(value: &Value) -> bool
    ensures { result ≡ is_filled_text value.now }
{
    match value.as_text() {
        Some(text) => matches!(text.as_slice(), [_, ..]),
        None => false,
    }
}

fn are_texts(value: &Value) -> bool
    ensures { result ≡ are_texts value.now }
{
    value
        .scalars()
        .iter()
        .all(|scalar| scalar.as_text().is_some())
}
