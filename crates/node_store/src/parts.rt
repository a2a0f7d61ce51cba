//! How the parts of a configuration are written into the bodies of a store, and read.
ghost use Rattle.std.specs.Prelude.{◌≡◌, OnOk};
ghost use Rattle.store_fields.specs.Writing.{Writes};
ghost use Rattle.node_store.specs.Split.{front_of_part};
ghost use Rattle.node_store.specs.Parts.{FitsPart, IsPart};

use crate::reports::NodeForm;
use mof_values::Memory;
use partial_merge::{Part, part_of};
use std::alloc::Global;
use store_fields::{
    FieldError, FieldForm, Fields, MAX_TEXT, put_blob, put_digest, put_text, put_u32,
};

impl FieldForm<Part> for NodeForm {
    ghost use Rattle.node_store.specs.Parts.{bytes_of_part, FitsPart, IsPart};

    ghost bytes_of = { bytes_of_part };

    ghost is_in_range = { IsPart };

    ghost fits = { FitsPart };

    /// A stored digest that is not the digest of the bytes is refused.
    fn read(alloc: Global, fields: &mut Fields<'_>) -> Result<Part, FieldError> {
        let name = fields.text(alloc, MAX_TEXT)?;
        let digest = fields.digest()?;
        let bytes = fields.blob(alloc)?;
        let part = part_of(alloc, name, bytes)?;
        if part.digest == digest {
            Ok(part)
        } else {
            Err(FieldError::Wrong)
        }
    }

    fn write(part: &Part, into: &mut Vec<u8>) -> Result<(), Memory> {
        put_text(into, &part.name)?;
        put_digest(into, &part.digest)?;
        put_blob(into, part.bytes.as_slice())
    }
}

/// Appends a part, but for its document.
pub(crate) fn put_front_of_part(into: &mut Vec<u8>, part: &Part) -> Result<(), Memory>
    requires { FitsPart part.now }
    ensures writes { Writes (front_of_part part.now) into.old into.new result }
    ensures in_range { OnOk result (IsPart part.now) }
{
    put_text(into, &part.name)?;
    put_digest(into, &part.digest)?;
    put_u32(into, part.bytes.as_slice().len() as u32)
}
