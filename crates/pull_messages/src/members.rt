//! The members of an object, and what a value is.
ghost use Rattle.std.specs.Prelude.{◌≡◌, [], if◌then◌else◌, option_map};
ghost use Rattle.std.specs.Str.{chars};
ghost use Rattle.serde_json.specs.View.{view, items_view};
ghost use Rattle.pull_messages.specs.Members.{member_of, present, required, optional, an_object, a_string, within, a_text, an_id, id_of, is_sha256, sha256, a_list};
ghost use Rattle.pull_messages.specs.Results.{Gives};

use crate::limits::Limit;
use crate::{Field, MessageError};
use mof_values::Text;
use serde_json::Value;
use std::alloc::Global;
use uuid::Uuid;

/// The member of that name, unless it is null.
pub fn member<'v>(object: &'v Value, field: Field) -> Option<&'v Value>
    ensures { option_map (λ v. view v.now) result ≡ member_of field (view object.now) }
{
    let value = object.get(field.name())?;
    if value.is_null() { None } else { Some(value) }
}

/// The member of that name, which must be there.
pub fn required_member<'v>(object: &'v Value, field: Field) -> Result<&'v Value, MessageError>
    ensures { Gives (λ v. view v.now) result (present field (view object.now)) }
{
    member(object, field).ok_or(MessageError::Missing(field))
}

/// The value, where it is an object.
pub fn object(value: &Value, field: Field) -> Result<&Value, MessageError>
    ensures { Gives (λ v. view v.now) result (an_object field (view value.now)) }
{
    if value.is_object() {
        Ok(value)
    } else {
        Err(MessageError::Wrong(field))
    }
}

/// The elements of a list.
pub fn list(value: &Value, field: Field) -> Result<&[Value], MessageError>
    ensures { Gives (λ v. items_view v.now) result (a_list field (view value.now)) }
{
    match value.as_array() {
        Some(values) => Ok(values),
        None => Err(MessageError::Wrong(field)),
    }
}

/// A text within the limit.
pub fn text(alloc: Global, value: &Value, field: Field, limit: Limit) -> Result<Text, MessageError>
    ensures { Gives (λ t. t) result (a_text limit field (view value.now)) }
{
    text_within(alloc, string(value, field)?, field, limit)
}

fn string(value: &Value, field: Field) -> Result<&str, MessageError>
    ensures { Gives (λ s. chars s.now) result (a_string field (view value.now)) }
{
    match value.as_str() {
        Some(text) => Ok(text),
        None => Err(MessageError::Wrong(field)),
    }
}

fn text_within(alloc: Global, text: &str, field: Field, limit: Limit) -> Result<Text, MessageError>
    ensures { Gives (λ t. t) result (within limit field (chars text.now)) }
{
    if limit.allows(text.len()) {
        Ok(Text::from_utf8(alloc, text)?)
    } else {
        Err(MessageError::Wrong(field))
    }
}

/// A text that must be there.
pub fn required_text(alloc: Global, object: &Value, field: Field) -> Result<Text, MessageError>
    ensures { Gives (λ t. t) result (required (a_text Limit.Free) field (view object.now)) }
{
    text(alloc, required_member(object, field)?, field, Limit::Free)
}

/// A text within the limit, empty where it is absent.
pub fn optional_text(
    alloc: Global,
    object: &Value,
    field: Field,
    limit: Limit,
) -> Result<Text, MessageError>
    ensures { Gives (λ t. t) result (optional (a_text limit) [] field (view object.now)) }
{
    match member(object, field) {
        Some(value) => text(alloc, value, field, limit),
        None => Ok(Text::of(Vec::new(alloc))),
    }
}

/// The number of an identifier that must be there.
pub fn required_id(object: &Value, field: Field) -> Result<u128, MessageError>
    ensures { Gives (λ n. n) result (required an_id field (view object.now)) }
{
    id_in(required_member(object, field)?, field)
}

fn id_in(value: &Value, field: Field) -> Result<u128, MessageError>
    ensures { Gives (λ n. n) result (an_id field (view value.now)) }
{
    match value.as_str() {
        Some(text) => id(text).ok_or(MessageError::Wrong(field)),
        None => Err(MessageError::Wrong(field)),
    }
}

fn id(text: &str) -> Option<u128>
    ensures { result ≡ id_of text.now }
{
    match Uuid::parse_str(text) {
        Ok(id) => Some(id.as_u128()),
        Err(_) => None,
    }
}

/// Tests that a hash has the name `SHA-256`, by fold, where it is named.
pub fn optional_sha256(object: &Value, field: Field) -> Result<(), MessageError>
    ensures { Gives (λ u. u) result (optional sha256 tt field (view object.now)) }
{
    match member(object, field) {
        Some(value) => named_sha256(value, field),
        None => Ok(()),
    }
}

fn named_sha256(value: &Value, field: Field) -> Result<(), MessageError>
    ensures { Gives (λ u. u) result (sha256 field (view value.now)) }
{
    match value.as_str() {
        Some(text) => test_sha256(text, field),
        None => Err(MessageError::Wrong(field)),
    }
}

fn test_sha256(text: &str, field: Field) -> Result<(), MessageError>
    ensures { Gives (λ u. u) result (if is_sha256 text.now then Ok tt else Err (MessageError.Wrong field)) }
{
    if text.eq_ignore_ascii_case("SHA-256") {
        Ok(())
    } else {
        Err(MessageError::Wrong(field))
    }
}
