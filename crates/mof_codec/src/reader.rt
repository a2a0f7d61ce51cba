//! Reads instances from bytes.
ghost use Rattle.std.specs.Prelude.{◌≡◌, ◌≢◌, List, IfOk, IfErr};
ghost use Rattle.std.specs.Str.{chars};
ghost use Rattle.mof_values.specs.declared.instance.Instance.{Instance};
ghost use Rattle.mof_syntax.specs.declared.mof_error.MofError.TheVariants.{Memory};
ghost use Rattle.mof_syntax.specs.Limits.{Spells};
ghost use Rattle.mof_syntax.specs.Refusals.{Reads, ReadsNothing, Refuses, Wins};

use crate::refusing::refusal::refusal_of;
use crate::values::instances_of;
use mof_syntax::{MAX_DOCUMENT, MofError, TextError, decode_text};
use mof_values::Instance;
use std::alloc::{AllocError, Global};

/// The instances that the bytes spell (DSP0004, in this profile), or why they spell none.
pub fn read(alloc: Global, bytes: &[u8]) -> Result<Vec<Instance>, MofError>
    ensures ok { IfOk result (λ instances. Reads bytes.now instances.items) }
    ensures refused { IfErr result (λ e. Refuses bytes.now e) }
    ensures only { IfErr result (λ e. e ≢ Memory → ReadsNothing bytes.now) }
{
    if bytes.len() > MAX_DOCUMENT {
        return Err(MofError::TooLong);
    }
    let text = match decode_text(alloc, bytes) {
        Ok(text) => text,
        Err(TextError::TextFault { at }) => return Err(MofError::Text { at }),
        Err(TextError::Memory) => return Err(MofError::Memory),
    };
    let text = text.as_str();
    match instances_of(alloc, text) {
        Ok(Some(instances)) => Ok(instances),
        Ok(None) => Err(refusal(text)),
        Err(AllocError) => Err(MofError::Memory),
    }
}

// Why a text that spells no instances is refused.
fn refusal(text: &str) -> MofError
    requires { (is : List Instance) → Spells (chars text.now) is → ⊥ }
    ensures { Wins (chars text.now) result }
{
    match refusal_of(text) {
        Some(refusal) => refusal,
        None => unreachable!(),
    }
}
