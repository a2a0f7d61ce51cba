//! The generated document.
ghost use Rattle.std.specs.Prelude.{◌≡◌, ◌≤◌, [], IfOk};
ghost use Rattle.generated_document.specs.Contents.{HasContents};
ghost use Rattle.generated_document.specs.Generated.{IsGenerated, generated_instances};
ghost use Rattle.dsc_document.specs.declared.limits.TheConstants.{MAX_RESOURCES};
ghost use Rattle.mof_syntax.specs.Canonical.{canonical_bytes};

use crate::instances::instances;
use dsc_document::{Document, MAX_RESOURCES};
use mof_codec::write;
use mof_values::{Bytes, Memory, Text};
use partial_merge::{MergeError, Part, merge, part_of};
use std::alloc::{AllocError, Global};

/// The document of that many resources, at most [`MAX_RESOURCES`].
///
/// The resources stand by falling number. That of number i, 0 to `count` - 1, is an environment resource of the id
/// `[Environment]Ri`, the name `Vi` and the value i, and depends on that of number (i - 1) / 2, rounded down, where i
/// is above 0. The version is `2.0.0`.
pub fn generated_document(alloc: Global, count: u32) -> Result<Document, AllocError>
    requires few { count ≤ MAX_RESOURCES }
    ensures generated { IfOk result (IsGenerated count) }
    ensures contents { IfOk result (HasContents count) }
{
    let part = part(alloc, count)?;
    match merge(alloc, &[part]) {
        Ok(document) => Ok(document),
        Err(error) => Err(out_of_memory(error)),
    }
}

// The part without a name that is the text of the instances.
fn part(alloc: Global, count: u32) -> Result<Part, AllocError>
    ensures name { IfOk result (λ part. part.name ≡ []) }
    ensures text { IfOk result (λ part. part.bytes ≡ canonical_bytes (generated_instances count)) }
{
    let instances = instances(alloc, count)?;
    match write(alloc, &instances) {
        Ok(text) => part_of(alloc, Text::of(Vec::new(alloc)), Bytes::of(text)),
        Err(Memory) => Err(AllocError),
    }
}

// Nothing else stands in the way of a generated document.
fn out_of_memory(error: MergeError) -> AllocError
    requires only { error ≡ MergeError.Memory }
{
    match error {
        MergeError::Memory => AllocError,
        _ => unreachable!(),
    }
}
