//! The names of parts: no two are the same.
ghost use Rattle.std.specs.Prelude.{◌<◌, ◌^◌, IfErr, IfOk, length};
ghost use Rattle.partial_merge.specs.Parts.{NamesDiffer};
ghost use Rattle.partial_merge.specs.Refused.{IsNameFault};

use crate::{MergeError, Part};
use dsc_document::Places;
use std::alloc::Global;

/// Finds the first two parts with the same name.
pub fn check_names(alloc: Global, parts: &[Part]) -> Result<(), MergeError>
    requires { length parts.now < 2 ^ 32 }
    ensures differ { IfOk result (λ _. NamesDiffer parts.now) }
    ensures refused { IfErr result (IsNameFault parts.now) }
{
    let mut places = Places::new(alloc);
    for (second, part) in parts.iter().enumerate() {
        if let Some(first) = places.put(part.name.as_slice(), second as u32)? {
            return Err(MergeError::TwoNames {
                first,
                second: second as u32,
            });
        }
    }
    Ok(())
}
