//! What a resource asks for, by the table of its kind, or its fault.
ghost use Rattle.std.specs.Prelude.{◌≡◌, Ok, Err, MatchResult, IfOk, option_map, unwrap_or, [], encode_utf8_all};
ghost use Rattle.std.specs.Option.{option_copied};
ghost use Rattle.mof_values.specs.Values.{text_of};
ghost use Rattle.resource_kinds.specs.Paths.{path_of};
ghost use Rattle.resource_kinds.specs.Tables.{kind_of, says_yes};
ghost use Rattle.resource_kinds.specs.Wanted.{IsWhy, a_variable, by_key, contents_of, folded_utf8, no_variable, of_kind, on_path, standing_at, value_of, variable_of, wanted_of};

use crate::entry::Failure;
use crate::paths::path_of;
use crate::tables::{Kind, first_wrong, key_name, key_of, kind_of};
use crate::utf8::Utf8;
use crate::values::{says, says_yes};
use dsc_document::Resource;
use mof_values::{Ident, Instance, Text};
use std::alloc::{AllocError, Global};

/// What a resource without a fault asks for. Names of variables and ids stand folded.
#[derive(Debug, Drop)]
pub enum Wanted {
    /// A file, with these contents if any are given.
    File { path: Utf8, contents: Option<Utf8> },
    Folder { path: Utf8 },

    /// Nothing at the path, where a file may be taken away.
    NoFile { path: Utf8 },

    /// Nothing at the path, where a folder may be taken away, and by force one that is not empty.
    NoFolder { path: Utf8, forced: bool },
    Variable { name: Utf8, value: Utf8 },

    /// The entries of this value among those of the variable.
    Entries { name: Utf8, value: Utf8 },
    NoVariable { name: Utf8 },

    /// None of the entries of this value among those of the variable.
    NoEntries { name: Utf8, value: Utf8 },

    /// An entry of the log.
    Logged { id: Utf8, message: Utf8 },
}

/// Why it is not known what a resource asks for.
#[derive(Debug, Drop)]
pub enum WantedError {
    /// It asks for nothing, for it has this fault.
    Fault(Failure),
    Memory,
}

impl From<AllocError> for WantedError {
    ghost use Rattle.resource_kinds.specs.declared.wanted.WantedError.TheVariants as errors;

    ghost from_gives = { λ _ e. e ≡ errors.Memory };

    fn from(_: AllocError) -> Self {
        WantedError::Memory
    }
}

/// What the resource asks for, or its fault.
///
/// The fault is the first of: no kind, the first property in the text that may not stand there, a missing key, a path
/// that is none.
pub fn wanted_of(alloc: Global, resource: &Resource) -> Result<Wanted, WantedError>
    ensures { MatchResult result (λ wanted. wanted_of resource.now ≡ Ok wanted)
        (λ error. IsWhy (wanted_of resource.now) error) }
{
    match kind_of(&resource.instance) {
        Some(kind) => of_kind(alloc, kind, resource),
        None => Err(WantedError::Fault(Failure::NoSuchResource)),
    }
}

fn of_kind(alloc: Global, kind: Kind, resource: &Resource) -> Result<Wanted, WantedError>
    ensures { MatchResult result (λ wanted. of_kind (Some kind) resource.now ≡ Ok wanted)
        (λ error. IsWhy (of_kind (Some kind) resource.now) error) }
{
    if let Some(property) = first_wrong(kind, &resource.instance) {
        return Err(out_of_profile(property.name.clone()));
    }
    match resource.instance.text_named(key_of(kind)) {
        Some(text) => by_key(alloc, kind, resource, text),
        None => Err(out_of_profile(key_name(alloc, kind))),
    }
}

fn out_of_profile(name: Result<Ident, AllocError>) -> WantedError
    ensures { MatchResult name (λ name. result ≡ WantedError.Fault (Failure.OutOfProfile name))
        (λ _. result ≡ WantedError.Memory) }
{
    match name {
        Ok(name) => WantedError::Fault(Failure::OutOfProfile(name)),
        Err(AllocError) => WantedError::Memory,
    }
}

fn by_key(
    alloc: Global,
    kind: Kind,
    resource: &Resource,
    text: &Text,
) -> Result<Wanted, WantedError>
    ensures { MatchResult result (λ wanted. by_key kind resource.now text.now ≡ Ok wanted)
        (λ error. IsWhy (by_key kind resource.now text.now) error) }
{
    match kind {
        Kind::File => on_path(alloc, &resource.instance, text),
        Kind::Environment => Ok(variable_of(
            alloc,
            &resource.instance,
            Utf8::folded(alloc, text)?,
        )?),
        Kind::Log => Ok(logged(alloc, &resource.id, text)?),
    }
}

// What is to stand at the path that a text means, or not to.
fn on_path(alloc: Global, instance: &Instance, text: &Text) -> Result<Wanted, WantedError>
    ensures { MatchResult result (λ wanted. on_path instance.now (path_of text.now) ≡ Ok wanted)
        (λ error. IsWhy (on_path instance.now (path_of text.now)) error) }
{
    match path_of(alloc, text)? {
        Some(path) => Ok(standing_at(alloc, instance, Utf8::of(path))?),
        None => Err(WantedError::Fault(Failure::BadPath)),
    }
}

fn standing_at(alloc: Global, instance: &Instance, path: Utf8) -> Result<Wanted, AllocError>
    ensures { IfOk result (λ wanted. wanted ≡ standing_at instance.now path) }
{
    let is_absent = says(instance, "Ensure", "Absent");
    if says(instance, "Type", "Directory") {
        return Ok(if is_absent {
            let forced = says_yes(instance, "Force");
            Wanted::NoFolder { path, forced }
        } else {
            Wanted::Folder { path }
        });
    }
    if is_absent {
        return Ok(Wanted::NoFile { path });
    }
    let contents = contents_of(alloc, instance)?;
    Ok(Wanted::File { path, contents })
}

fn contents_of(alloc: Global, instance: &Instance) -> Result<Option<Utf8>, AllocError>
    ensures { IfOk result (λ contents. contents ≡ contents_of instance.now) }
{
    match instance.text_named("Contents") {
        Some(text) => Ok(Some(Utf8::encoded(alloc, text.as_slice())?)),
        None => Ok(None),
    }
}

fn variable_of(alloc: Global, instance: &Instance, name: Utf8) -> Result<Wanted, AllocError>
    ensures { IfOk result (λ wanted. wanted ≡ variable_of instance.now name) }
{
    if says(instance, "Ensure", "Absent") {
        no_variable(alloc, instance, name)
    } else {
        a_variable(alloc, instance, name)
    }
}

fn no_variable(alloc: Global, instance: &Instance, name: Utf8) -> Result<Wanted, AllocError>
    ensures { IfOk result (λ wanted. wanted ≡ no_variable instance.now name) }
{
    if !says_yes(instance, "Path") {
        return Ok(Wanted::NoVariable { name });
    }
    let value = value_of(alloc, instance)?;
    Ok(Wanted::NoEntries { name, value })
}

fn a_variable(alloc: Global, instance: &Instance, name: Utf8) -> Result<Wanted, AllocError>
    ensures { IfOk result (λ wanted. wanted ≡ a_variable instance.now name) }
{
    let value = value_of(alloc, instance)?;
    if says_yes(instance, "Path") {
        return Ok(Wanted::Entries { name, value });
    }
    Ok(Wanted::Variable { name, value })
}

// The value of a variable; empty where none is given.
fn value_of(alloc: Global, instance: &Instance) -> Result<Utf8, AllocError>
    ensures { IfOk result (λ value. value ≡ value_of instance.now) }
{
    match instance.text_named("Value") {
        Some(text) => Utf8::encoded(alloc, text.as_slice()),
        None => Utf8::encoded(alloc, &[]),
    }
}

fn logged(alloc: Global, id: &Text, message: &Text) -> Result<Wanted, AllocError>
    ensures { IfOk result (λ wanted. wanted ≡
        Wanted.Logged (folded_utf8 id.now) (encode_utf8_all message.now)) }
{
    Ok(Wanted::Logged {
        id: Utf8::folded(alloc, id)?,
        message: Utf8::encoded(alloc, message.as_slice())?,
    })
}
