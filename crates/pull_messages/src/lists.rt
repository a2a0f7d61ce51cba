//! Reading of lists of values. Each reads its elements in order, up to the first that is refused.
ghost use Rattle.std.specs.Prelude.{◌≡◌, []};
ghost use Rattle.serde_json.specs.Data.{no_items};
ghost use Rattle.serde_json.specs.View.{view, items_view};
ghost use Rattle.pull_messages.specs.Members.{required, optional, an_object, a_text, sha256, each, few, texts, names, objects, few_objects};
ghost use Rattle.pull_messages.specs.Results.{Gives, Tests};

use crate::limits::{Limit, MAX_LIST_ITEMS};
use crate::members::{
    list, member, object, optional_sha256, optional_text, required_member, required_text, text,
};
use crate::{Field, MessageError};
use mof_values::{Items, Text};
use serde_json::Value;
use std::alloc::Global;

/// The texts of a list that may be absent.
pub fn optional_texts(
    alloc: Global,
    object: &Value,
    field: Field,
) -> Result<Items<Text>, MessageError>
    ensures { Gives (λ v. v) result (optional texts [] field (view object.now)) }
{
    match member(object, field) {
        Some(value) => Ok(Items::of(each_text(alloc, list(value, field)?, field, Limit::Free)?)),
        None => Ok(Items::of(Vec::new(alloc))),
    }
}

/// The names of a list that may be absent: at most `MAX_LIST_ITEMS`, each within `Limit::Name`.
pub fn optional_names(
    alloc: Global,
    object: &Value,
    field: Field,
) -> Result<Items<Text>, MessageError>
    ensures { Gives (λ v. v) result (optional names [] field (view object.now)) }
{
    match member(object, field) {
        Some(value) => {
            let values = few_of(list(value, field)?, field)?;
            Ok(Items::of(each_text(alloc, values, field, Limit::Name)?))
        }
        None => Ok(Items::of(Vec::new(alloc))),
    }
}

/// The objects of a list that must be there: at most `MAX_LIST_ITEMS`.
pub fn required_objects<'v>(object: &'v Value, field: Field) -> Result<&'v [Value], MessageError>
    ensures { Gives (λ v. items_view v.now) result (required few_objects field (view object.now)) }
{
    few_of(objects_of(required_member(object, field)?, field)?, field)
}

/// The objects of a list that may be absent.
pub fn optional_objects<'v>(object: &'v Value, field: Field) -> Result<&'v [Value], MessageError>
    ensures { Gives (λ v. items_view v.now) result
        (optional objects no_items field (view object.now)) }
{
    match member(object, field) {
        Some(value) => objects_of(value, field),
        None => Ok(&[]),
    }
}

fn objects_of(value: &Value, field: Field) -> Result<&[Value], MessageError>
    ensures { Gives (λ v. items_view v.now) result (objects field (view value.now)) }
{
    let values = list(value, field)?;
    test_objects(values, field)?;
    Ok(values)
}

fn few_of(values: &[Value], field: Field) -> Result<&[Value], MessageError>
    ensures { Gives (λ v. items_view v.now) result (few field (items_view values.now)) }
{
    if values.len() <= MAX_LIST_ITEMS {
        Ok(values)
    } else {
        Err(MessageError::Wrong(field))
    }
}

fn test_objects(values: &[Value], field: Field) -> Result<(), MessageError>
    ensures { Tests result (each (an_object field) (items_view values.now)) }
{
    let mut left = values;
    while let [value, rest @ ..] = left {
        object(value, field)?;
        left = rest;
    }
    Ok(())
}

/// Tests the hash that each object names.
pub fn test_hashes(objects: &[Value], field: Field) -> Result<(), MessageError>
    ensures { Tests result (each (optional sha256 tt field) (items_view objects.now)) }
{
    let mut left = objects;
    while let [value, rest @ ..] = left {
        optional_sha256(value, field)?;
        left = rest;
    }
    Ok(())
}

fn each_text(
    alloc: Global,
    values: &[Value],
    field: Field,
    limit: Limit,
) -> Result<Vec<Text>, MessageError>
    ensures { Gives (λ v. v.items) result (each (a_text limit field) (items_view values.now)) }
{
    let mut texts = Vec::new(alloc);
    let mut left = values;
    while let [value, rest @ ..] = left {
        texts.push(text(alloc, value, field, limit)?)?;
        left = rest;
    }
    Ok(texts)
}

/// The texts of a member that must be there, object by object.
pub fn each_required(
    alloc: Global,
    objects: &[Value],
    field: Field,
) -> Result<Vec<Text>, MessageError>
    ensures { Gives (λ v. v.items) result
        (each (required (a_text Limit.Free) field) (items_view objects.now)) }
{
    let mut texts = Vec::new(alloc);
    let mut left = objects;
    while let [value, rest @ ..] = left {
        texts.push(required_text(alloc, value, field)?)?;
        left = rest;
    }
    Ok(texts)
}

/// The texts of a member, empty where it is absent, object by object.
pub fn each_optional(
    alloc: Global,
    objects: &[Value],
    field: Field,
) -> Result<Vec<Text>, MessageError>
    ensures { Gives (λ v. v.items) result
        (each (optional (a_text Limit.Free) [] field) (items_view objects.now)) }
{
    let mut texts = Vec::new(alloc);
    let mut left = objects;
    while let [value, rest @ ..] = left {
        texts.push(optional_text(alloc, value, field, Limit::Free)?)?;
        left = rest;
    }
    Ok(texts)
}
