//! How many resources are not in the desired state.
ghost use Rattle.std.specs.Prelude.{◌≡◌, IfOk, length, slice_get};
ghost use Rattle.agent_line.specs.Numbers.{count_of, number_in, number_said};

use mof_values::Text;
use serde_json::Value;
use std::alloc::{AllocError, Global};

/// The number that a report says, or how many resources it names.
pub(crate) fn count_of(
    alloc: Global,
    errors: &[Text],
    status_data: &[Text],
) -> Result<u64, AllocError>
    ensures { IfOk result (λ count. count ≡ count_of errors.now status_data.now) }
{
    match number_said(alloc, status_data)? {
        Some(number) => Ok(number),
        None => Ok(errors.len() as u64),
    }
}

fn number_said(alloc: Global, status_data: &[Text]) -> Result<Option<u64>, AllocError>
    ensures { IfOk result (λ number. number ≡ number_said status_data.now) }
{
    match status_data {
        [first, ..] => number_in(alloc, first),
        [] => Ok(None),
    }
}

#[tactic(auto, unfolding(crate::specs::Numbers::number_in))]
fn number_in(alloc: Global, text: &Text) -> Result<Option<u64>, AllocError>
    ensures { IfOk result (λ number. number ≡ number_in text.now) }
{
    let written = text.to_utf8()?;
    match Value::from_str(alloc, written.as_str()) {
        Ok(value) => Ok(value.get("NumberNotInDesiredState").and_then(Value::as_u64)),
        Err(error) => {
            if error.is_memory() {
                Err(AllocError)
            } else {
                Ok(None)
            }
        }
    }
}
