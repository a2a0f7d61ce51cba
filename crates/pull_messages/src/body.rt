//! The JSON value of a body.
ghost use Rattle.std.specs.Prelude.{◌≤◌, IfOk, IfErr, length};
ghost use Rattle.json_weight.specs.Weight.{weight, AreTexts};
ghost use Rattle.serde_json.specs.View.{view};
ghost use Rattle.pull_messages.specs.Bodies.{IsJson, IsNoJson};

use crate::MessageError;
use serde_json::Value;
use std::alloc::Global;

/// The value that a body is.
pub fn value_of(alloc: Global, body: &[u8]) -> Result<Value, MessageError>
    ensures ok { IfOk result (λ value. IsJson body.now (view value)) }
    ensures texts { IfOk result (λ value. AreTexts (view value)) }
    ensures weighed { IfOk result (λ value. weight (view value) ≤ length body.now) }
    ensures json { IfErr result (IsNoJson body.now) }
{
    match json_weight::value_of(alloc, body) {
        Ok(value) => Ok(value),
        Err(error) => {
            if error.is_memory() {
                Err(MessageError::Memory)
            } else {
                Err(MessageError::Json)
            }
        }
    }
}
