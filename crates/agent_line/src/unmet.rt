//! The resources that a report names as not in the desired state.
ghost use Rattle.std.specs.Prelude.{◌≡◌, ◌++◌, ◌+◌, ◌≤◌, IfOk, IfSome, OnOk, encode_utf8_all, length, map, string_bytes};
ghost use Rattle.serde_json.specs.View.{view};
ghost use Rattle.agent_line.specs.Unmet.{id_in, is_mark, last_mark, reason_in, unmet_data, unmet_items, unmet_json};

use crate::json::push_value;
use mof_values::Text;
use serde_json::{Value, json};
use std::alloc::{AllocError, Global};

/// Adds the resources that the errors of a report name, as a JSON array.
#[tactic(auto, unfolding(crate::specs::Unmet::unmet_json))]
pub(crate) fn push_unmet(
    out: &mut Vec<u8>,
    alloc: Global,
    errors: &[Text],
) -> Result<(), AllocError>
    ensures { OnOk result (out.new.items ≡ out.old.items ++ unmet_json errors.now) }
{
    let value = unmet_array(alloc, errors)?;
    push_value(out, alloc, &value)
}

fn unmet_array(alloc: Global, errors: &[Text]) -> Result<Value, AllocError>
    ensures { IfOk result (λ value. view value ≡ unmet_items errors.now) }
{
    Ok(Value::Array(unmet_values(alloc, errors)?))
}

fn unmet_values(alloc: Global, errors: &[Text]) -> Result<Vec<Value>, AllocError>
    ensures { IfOk result (λ values. map view values.items ≡ map unmet_data errors.now) }
{
    let mut values = Vec::new(alloc);
    for error in errors {
        values.push(unmet_value(alloc, error.as_slice())?)?;
    }
    Ok(values)
}

fn unmet_value(alloc: Global, error: &[char]) -> Result<Value, AllocError>
    ensures { IfOk result (λ value. view value ≡ unmet_data error.now) }
{
    let (id, reason) = divided(error);
    let id = Value::String(in_utf8(alloc, id)?);
    let reason = Value::String(in_utf8(alloc, reason)?);
    json!(in alloc; {"id": id, "reason": reason})
}

fn in_utf8(alloc: Global, chars: &[char]) -> Result<String, AllocError>
    ensures { IfOk result (λ text. string_bytes text ≡ encode_utf8_all chars.now) }
{
    chars.iter().copied().collect(alloc)
}

/// What stands before the last mark, and what stands after it.
pub(crate) fn divided(error: &[char]) -> (&[char], &[char])
    ensures id { result.0.now ≡ id_in error.now }
    ensures reason { result.1.now ≡ reason_in error.now }
{
    match place_of_mark(error) {
        Some(at) => (&error[..at], &error[at + 2..]),
        None => (error, &error[error.len()..]),
    }
}

// The place of the last mark.
fn place_of_mark(error: &[char]) -> Option<usize>
    ensures place { result ≡ last_mark error.now }
    ensures within { IfSome result (λ at. at + 2 ≤ length error.now) }
{
    let mut found = None;
    let mut at = 0;
    let mut left = error;
    while let [_, rest @ ..] = left {
        if is_mark(left) {
            found = Some(at);
        }
        at += 1;
        left = rest;
    }
    found
}

// Whether it begins with a colon and a space.
fn is_mark(left: &[char]) -> bool
    ensures { result ≡ is_mark left.now }
{
    left.len() >= 2 && left[0] == ':' && left[1] == ' '
}
