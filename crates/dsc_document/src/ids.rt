//! Resource ids: each has its form, and no two are the same.
ghost use Rattle.std.specs.Prelude.{◌≡◌, ◌<◌, ◌^◌, ◌↔◌, ◌∷◌, length, IsTrue, IfOk, option_copied};
ghost use Rattle.dsc_document.specs.Declarations.{IsResourceId, HasKindAndName, id_of};
ghost use Rattle.dsc_document.specs.Places.{HoldsNames};
ghost use Rattle.dsc_document.specs.Rules.{HasBadId, IsIdValue, id_at, resource_ids, distinct_ids};
ghost use Rattle.dsc_document.specs.Tests.{Tests};

use crate::declarations::{id_of, id_value};
use crate::places::Places;
use crate::{DocError, MAX_ID};
use mof_values::{Instance, Text, Value};
use std::alloc::Global;

/// Finds the first resource whose ResourceID has no form of an id.
pub fn check_ids(instances: &[Instance]) -> Result<(), DocError>
    requires { length instances.now < 2 ^ 32 }
    ensures { Tests resource_ids instances.now result }
{
    for (index, instance) in instances.iter().enumerate() {
        if has_bad_id(instance) {
            return Err(DocError::BadResourceId {
                index: index as u32,
            });
        }
    }
    Ok(())
}

fn has_bad_id(instance: &Instance) -> bool
    ensures { IsTrue result ↔ HasBadId instance.now }
{
    match id_value(instance) {
        Some(value) => !is_id_value(value),
        None => false,
    }
}

fn is_id_value(value: &Value) -> bool
    ensures { IsTrue result ↔ IsIdValue value.now }
{
    match value.as_text() {
        Some(id) => is_resource_id(id),
        None => false,
    }
}

fn is_resource_id(id: &Text) -> bool
    ensures { IsTrue result ↔ IsResourceId id.now }
{
    id.fits_utf8(MAX_ID) && has_kind_and_name(id.as_slice())
}

// Returns whether the characters are `[kind]name`, with no bracket in the kind.
fn has_kind_and_name(chars: &[char]) -> bool
    ensures { IsTrue result ↔ HasKindAndName chars.now }
{
    match chars {
        ['[', rest @ ..] => ends_kind(rest),
        _ => false,
    }
}

// Returns whether the characters are `kind]name`.
fn ends_kind(chars: &[char]) -> bool
    ensures { IsTrue result ↔ HasKindAndName (91 ∷ chars.now) }
{
    let mut left = chars;
    while let [c, rest @ ..] = left {
        if *c == '[' {
            return false;
        }
        if *c == ']' {
            return left.len() < chars.len() && !rest.is_empty();
        }
        left = rest;
    }
    false
}

/// The places of the ids, where no two are the same.
pub fn id_places(alloc: Global, instances: &[Instance]) -> Result<Places, DocError>
    requires { length instances.now < 2 ^ 32 }
    ensures tested { Tests distinct_ids instances.now result }
    ensures places { IfOk result (HoldsNames (id_at instances.now)) }
{
    let mut places = Places::new(alloc);
    for (second, instance) in instances.iter().enumerate() {
        if let Some(first) = places.put_any(id_chars(instance), second as u32)? {
            return Err(DocError::DuplicateId {
                first,
                second: second as u32,
            });
        }
    }
    Ok(places)
}

fn id_chars<'a>(instance: &'a Instance) -> Option<&'a [char]>
    ensures { option_copied result ≡ id_of instance.now }
{
    match id_of(instance) {
        Some(id) => Some(id.as_slice()),
        None => None,
    }
}
