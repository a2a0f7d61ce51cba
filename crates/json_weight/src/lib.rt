//! JSON texts (RFC 8259) as `serde_json` reads them, with a bound on what they hold: the strings of a value, names of
//! members among them, have together no more bytes than the text that it was read from.
//!
//! Where a thing is:
//! - how many bytes the strings of a value have together: `specs/Weight.antt`
#![tactic(auto)]

ghost use Rattle.std.specs.Prelude.{◌≡◌, ◌≤◌, length, IfOk, IfErr, IsUtf8};
ghost use Rattle.serde_json.specs.Errors.{IsMemory};
ghost use Rattle.serde_json.specs.Read.{read};
ghost use Rattle.serde_json.specs.View.{view};
ghost use Rattle.json_weight.specs.Weight.{weight, AreTexts};

use serde_json::{Error, Value};
use std::alloc::Global;

/// The value that a text is, or the error of `serde_json`.
pub fn value_of(alloc: Global, text: &[u8]) -> Result<Value, Error>
    ensures read { IfOk result (λ value. IsUtf8 text.now × (read text.now ≡ Some (view value))) }
    ensures texts { IfOk result (λ value. AreTexts (view value)) }
    ensures weighed { IfOk result (λ value. weight (view value) ≤ length text.now) }
    ensures refused { IfErr result (λ e. ¬ IsMemory e → IsUtf8 text.now → read text.now ≡ None) }
{
    Value::from_slice(alloc, text)
}
