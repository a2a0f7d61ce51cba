//! The kinds of resources, and the table of each.
ghost use Rattle.std.specs.Prelude.{◌≡◌, ◌≢◌, IfOk, not, find};
ghost use Rattle.std.specs.List.{list_any};
ghost use Rattle.std.specs.Option.{option_copied};
ghost use Rattle.mof_values.specs.Fold.{same_name};
ghost use Rattle.resource_kinds.specs.Tables.{common, directory_rows, environment_rows, first_wrong, fits_row, key_of, kind_of, may_stand, rows_in, rows_of};

use crate::values::{
    is_filled_text, is_kind_of_file, is_null, is_presence, is_text, is_truth_value, says,
};
use mof_values::{Ident, Instance, Property};
use std::alloc::{AllocError, Global};

/// The kinds of resources, each with a table of its properties.
#[derive(Clone, Copy, Debug, PartialEq, Eq)]
pub enum Kind {
    /// Files and directories.
    File,
    Environment,
    Log,
}

/// The kind of an instance, by its class.
pub fn kind_of(instance: &Instance) -> Option<Kind>
    ensures { result ≡ kind_of instance.now }
{
    let class = &instance.class;
    if class.is_named("MSFT_FileDirectoryConfiguration") {
        Some(Kind::File)
    } else if class.is_named("MSFT_EnvironmentResource") {
        Some(Kind::Environment)
    } else if class.is_named("MSFT_LogResource") {
        Some(Kind::Log)
    } else {
        None
    }
}

/// The property that each instance of the kind must have.
pub fn key_of(kind: Kind) -> &'static str
    ensures { result.now ≡ key_of kind }
{
    match kind {
        Kind::File => "DestinationPath",
        Kind::Environment => "Name",
        Kind::Log => "Message",
    }
}

/// The name of that property.
pub fn key_name(alloc: Global, kind: Kind) -> Result<Ident, AllocError>
    ensures { IfOk result (λ name. name ≡ key_of kind) }
{
    match kind {
        Kind::File => Ident::of_ascii(alloc, "DestinationPath"),
        Kind::Environment => Ident::of_ascii(alloc, "Name"),
        Kind::Log => Ident::of_ascii(alloc, "Message"),
    }
}

// The table that an instance has by its kind.
#[derive(Clone, Copy)]
enum Table {
    // that of a file, without the contents
    Directory,
    File,
    Environment,
    Log,
}

fn table_of(kind: Kind, instance: &Instance) -> Table
    ensures { rows_in result ≡ rows_of kind instance.now }
{
    match kind {
        Kind::File if says(instance, "Type", "Directory") => Table::Directory,
        Kind::File => Table::File,
        Kind::Environment => Table::Environment,
        Kind::Log => Table::Log,
    }
}

/// The first property that may not stand in an instance of the kind.
pub fn first_wrong<'a>(kind: Kind, instance: &'a Instance) -> Option<&'a Property>
    ensures { option_copied result ≡ first_wrong (rows_of kind instance.now) instance.now }
{
    let table = table_of(kind, instance);
    let mut left = instance.properties.as_slice();
    while let [property, rest @ ..] = left {
        if !may_stand(table, property) {
            return Some(property);
        }
        left = rest;
    }
    None
}

fn may_stand(table: Table, property: &Property) -> bool
    ensures { result ≡ may_stand (rows_in table) property.now }
{
    is_null(&property.value) || is_common(&property.name) || fits_a_row(table, property)
}

fn fits_a_row(table: Table, property: &Property) -> bool
    ensures { result ≡ list_any (fits_row property.now) (rows_in table) }
{
    let (name, value) = (&property.name, &property.value);
    match table {
        Table::Directory => fits_directory_row(property),
        Table::File => {
            (name.is_named("Contents") && is_text(value)) || fits_directory_row(property)
        }
        Table::Environment => fits_environment_row(property),
        Table::Log => name.is_named("Message") && is_text(value),
    }
}

fn fits_directory_row(property: &Property) -> bool
    ensures { result ≡ list_any (fits_row property.now) directory_rows }
{
    let (name, value) = (&property.name, &property.value);
    (name.is_named("DestinationPath") && is_text(value))
        || (name.is_named("Type") && is_kind_of_file(value))
        || (name.is_named("Ensure") && is_presence(value))
        || (name.is_named("Force") && is_truth_value(value))
}

fn fits_environment_row(property: &Property) -> bool
    ensures { result ≡ list_any (fits_row property.now) environment_rows }
{
    let (name, value) = (&property.name, &property.value);
    (name.is_named("Name") && is_filled_text(value))
        || (name.is_named("Value") && is_text(value))
        || (name.is_named("Ensure") && is_presence(value))
        || (name.is_named("Path") && is_truth_value(value))
}

// Returns whether every kind has the property.
fn is_common(name: &Ident) -> bool
    ensures { result ≡ list_any (same_name name.now) common }
{
    name.is_named("ResourceID")
        || name.is_named("ModuleName")
        || name.is_named("ModuleVersion")
        || name.is_named("SourceInfo")
        || name.is_named("ConfigurationName")
        || name.is_named("DependsOn")
}
