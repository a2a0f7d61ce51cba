//! Texts as JSON strings, added to a text.
ghost use Rattle.std.specs.Prelude.{◌≡◌, ◌++◌, IfOk, OnOk, false, map};
ghost use Rattle.serde_json.specs.View.{view};
ghost use Rattle.serde_json.specs.Written.{compact_text, has_float};
ghost use Rattle.pull_messages.specs.Writing.{text_data, texts_data};
ghost use Rattle.agent_line.specs.Lines.{json_text, text_or_null, texts_json};

use mof_values::Text;
use serde_json::Value;
use std::alloc::{AllocError, Global};

/// Adds a text as a JSON string.
#[tactic(auto, unfolding(crate::specs::Lines::json_text))]
pub fn push_text(out: &mut Vec<u8>, alloc: Global, text: &Text) -> Result<(), AllocError>
    ensures { OnOk result (out.new.items ≡ out.old.items ++ json_text text.now) }
{
    let value = text_value(text)?;
    push_value(out, alloc, &value)
}

/// Adds a text as a JSON string, or null where it is empty.
#[tactic(auto, unfolding(crate::specs::Lines::text_or_null))]
pub(crate) fn push_text_or_null(
    out: &mut Vec<u8>,
    alloc: Global,
    text: &Text,
) -> Result<(), AllocError>
    ensures { OnOk result (out.new.items ≡ out.old.items ++ text_or_null text.now) }
{
    match text.as_slice() {
        [] => out.extend_from_slice(b"null"),
        [_, ..] => push_text(out, alloc, text),
    }
}

/// Adds texts as a JSON array.
#[tactic(auto, unfolding(crate::specs::Lines::texts_json))]
pub(crate) fn push_texts(out: &mut Vec<u8>, alloc: Global, texts: &[Text]) -> Result<(), AllocError>
    ensures { OnOk result (out.new.items ≡ out.old.items ++ texts_json texts.now) }
{
    let value = texts_value(alloc, texts)?;
    push_value(out, alloc, &value)
}

/// Adds a value that has no float as compact JSON.
pub(crate) fn push_value(out: &mut Vec<u8>, alloc: Global, value: &Value) -> Result<(), AllocError>
    requires { has_float (view value.now) ≡ false }
    ensures { OnOk result (out.new.items ≡ out.old.items ++ compact_text (view value.now)) }
{
    let text = value.to_string(alloc)?;
    out.extend_from_slice(text.as_bytes())
}

fn text_value(text: &Text) -> Result<Value, AllocError>
    ensures { IfOk result (λ value. view value ≡ text_data text.now) }
{
    Ok(Value::String(text.to_utf8()?))
}

fn texts_value(alloc: Global, texts: &[Text]) -> Result<Value, AllocError>
    ensures { IfOk result (λ value. view value ≡ texts_data texts.now) }
{
    Ok(Value::Array(text_values(alloc, texts)?))
}

fn text_values(alloc: Global, texts: &[Text]) -> Result<Vec<Value>, AllocError>
    ensures { IfOk result (λ values. map view values.items ≡ map text_data texts.now) }
{
    let mut values = Vec::new(alloc);
    for text in texts {
        values.push(text_value(text)?)?;
    }
    Ok(values)
}
