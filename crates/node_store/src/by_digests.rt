//! The bodies of format 2 that have digests: a Blob, and the names and digests of parts.
ghost use Rattle.std.specs.Prelude.{◌∷◌, length, OnOk};
ghost use Rattle.std.specs.List.{AllByRecursion};
ghost use Rattle.store_fields.specs.Writing.{Writes};
ghost use Rattle.node_state.specs.Lists.{IsStaged};
ghost use Rattle.node_store.specs.Digests.{blob_body, mark_of, slot_body};
ghost use Rattle.node_store.specs.Growing.{marks_of};
ghost use Rattle.node_store.specs.Parts.{AreParts, FitsPart, IsPart};
ghost use Rattle.node_store.specs.Reports.{bytes_of_mark};

use crate::blob::Blob;
use crate::spelling::put_stage_byte;
use mof_values::Memory;
use node_state::Stage;
use partial_merge::Part;
use store_fields::{put_byte, put_bytes, put_digest, put_text};

/// Appends the body of a Blob.
pub(crate) fn put_blob(into: &mut Vec<u8>, blob: &Blob) -> Result<(), Memory>
    ensures writes { Writes (blob_body blob.now.bytes) into.old into.new result }
{
    put_byte(into, 16)?;
    put_digest(into, &blob.digest)?;
    put_bytes(into, blob.bytes.as_slice())
}

/// Appends the body of a Stage by digests.
pub(crate) fn put_stage_by_digests(into: &mut Vec<u8>, parts: &[Part]) -> Result<(), Memory>
    requires { IsStaged parts.now }
    ensures writes { Writes (17 ∷ length parts.now ∷ marks_of parts.now) into.old into.new result }
    ensures in_range { OnOk result (AreParts parts.now) }
{
    put_byte(into, 17)?;
    put_byte(into, parts.len() as u8)?;
    put_marks(into, parts)
}

/// Appends the body of a Slot by digests.
pub(crate) fn put_slot_by_digests(
    into: &mut Vec<u8>,
    stage: Stage,
    parts: &[Part],
) -> Result<(), Memory>
    requires { IsStaged parts.now }
    ensures writes { Writes (slot_body stage parts.now) into.old into.new result }
{
    put_byte(into, 18)?;
    put_stage_byte(into, stage)?;
    put_byte(into, parts.len() as u8)?;
    put_marks(into, parts)
}

// Appends the names and the digests of the parts.
fn put_marks(into: &mut Vec<u8>, parts: &[Part]) -> Result<(), Memory>
    requires { AllByRecursion FitsPart parts.now }
    ensures writes { Writes (marks_of parts.now) into.old into.new result }
    ensures in_range { OnOk result (AllByRecursion IsPart parts.now) }
{
    let mut left = parts;
    while let [part, rest @ ..] = left {
        put_mark(into, part)?;
        left = rest;
    }
    Ok(())
}

fn put_mark(into: &mut Vec<u8>, part: &Part) -> Result<(), Memory>
    requires { FitsPart part.now }
    ensures writes { Writes (bytes_of_mark (mark_of part.now)) into.old into.new result }
    ensures in_range { OnOk result (IsPart part.now) }
{
    put_text(into, &part.name)?;
    put_digest(into, &part.digest)
}
