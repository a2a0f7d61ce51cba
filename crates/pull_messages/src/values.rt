//! Texts as JSON values.
ghost use Rattle.std.specs.Prelude.{◌≡◌, IfOk, OnOk, map, string_bytes};
ghost use Rattle.serde_json.specs.View.{view};
ghost use Rattle.pull_messages.specs.Recoding.{recoded};
ghost use Rattle.pull_messages.specs.Writing.{id_text, text_data, texts_data};
ghost use Rattle.serde_json.specs.Data.{string};

use mof_values::{Items, Text};
use serde_json::Value;
use std::alloc::{AllocError, Global};
use uuid::Uuid;

/// A text as a JSON string.
pub fn text_value(text: &Text) -> Result<Value, AllocError>
    ensures value { IfOk result (λ value. view value ≡ text_data text.now) }
    ensures recoded { OnOk result (recoded text.now ≡ text.now) }
{
    Ok(Value::String(text.to_utf8()?))
}

/// Texts as a JSON array.
pub fn texts_value(alloc: Global, texts: &Items<Text>) -> Result<Value, AllocError>
    ensures value { IfOk result (λ value. view value ≡ texts_data texts.now) }
    ensures recoded { OnOk result (map recoded texts.now ≡ texts.now) }
{
    Ok(Value::Array(text_values(alloc, texts.as_slice())?))
}

fn text_values(alloc: Global, texts: &[Text]) -> Result<Vec<Value>, AllocError>
    ensures value { IfOk result (λ values. map view values.items ≡ map text_data texts.now) }
    ensures recoded { OnOk result (map recoded texts.now ≡ texts.now) }
{
    let mut values = Vec::new(alloc);
    for text in texts {
        values.push(text_value(text)?)?;
    }
    Ok(values)
}

/// The identifier of a number, hyphenated in lower case.
pub fn id_value(alloc: Global, id: u128) -> Result<Value, AllocError>
    ensures { IfOk result (λ value. view value ≡ string (id_text id)) }
{
    Ok(Value::String(id_string(alloc, id)?))
}

#[tactic(auto, unfolding(crate::specs::Writing::id_text))]
fn id_string(alloc: Global, id: u128) -> Result<String, AllocError>
    ensures { IfOk result (λ s. string_bytes s ≡ id_text id) }
{
    let id = Uuid::from_u128(id);
    format!(in alloc; "{id}")
}
