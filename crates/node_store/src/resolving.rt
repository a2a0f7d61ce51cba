//! Bodies that name parts by their digests: the bytes of the parts are those of Blobs, which are shared.
ghost use Rattle.std.specs.Prelude.{◌≡◌, ℕ, List, IfErr, IfOk};
ghost use Rattle.std.specs.List.{AllByRecursion};
ghost use Rattle.partial_merge.specs.declared.part.Part.{Part as PartTerm};
ghost use Rattle.node_state.specs.Lists.{IsStaged};
ghost use Rattle.node_state.specs.StagedParts.{parts_of};
ghost use Rattle.node_store.specs.declared.body.Body.{Body as BodyTerm};
ghost use Rattle.node_store.specs.declared.body.Body.TheVariants as bodies;
ghost use Rattle.node_state.specs.declared.piece.Piece.TheVariants as pieces;
ghost use Rattle.node_store.specs.Digests.{kind_of};
ghost use Rattle.node_store.specs.Parts.{AreParts};
ghost use Rattle.node_store.specs.Reports.{IsMark};
ghost use Rattle.node_store.specs.Taking.{Apart};
ghost use Rattle.node_store.specs.Resolving.{AreAmong, AreNamedBy, HasNone, HaveNone, NamesPart, NamesParts, SaysBody};

use crate::blobs::Blobs;
use crate::kinds::after_kind;
use crate::reading::{read_stage, read_whole};
use crate::reports::NodeForm;
use mof_values::{Items, Memory};
use node_state::{SharedParts, Stage, Staged, stored};
use partial_merge::Part;
use report_log::PartMark;
use std::alloc::Global;
use store_fields::{FieldError, Fields};

/// The Slot that a body by digests says.
///
/// # Errors
///
/// `Wrong` where it says none: it is no Slot by digests, names a digest that no Blob has, or a list that no node may keep.
pub fn slot_named(
    alloc: Global,
    blobs: &Blobs,
    body: &[u8],
) -> Result<(Stage, SharedParts), FieldError>
    requires kind { kind_of body.now ≡ 18 }
    requires apart { Apart blobs.now }
    ensures says { IfOk result (λ slot. SaysBody blobs.now body.now (bodies.Piece (pieces.Slot slot.0 slot.1))) }
    ensures among { IfOk result (λ slot. IsStaged slot.1 × AreParts slot.1 × AreAmong blobs.now slot.1) }
    ensures wrong { IfErr result (λ e. e ≡ FieldError.Wrong → (of : BodyTerm) → SaysBody blobs.now body.now of → ⊥) }
{
    let mut fields = Fields::of(after_kind(body));
    let stage = match read_stage(&mut fields) {
        Ok(stage) => stage,
        Err(error) => return Err(error),
    };
    match staged_by(alloc, blobs, fields.rest()) {
        Ok(staged) => Ok((stage, staged.into_parts())),
        Err(error) => Err(error),
    }
}

/// The list that these marks name.
///
/// # Errors
///
/// `Wrong` where these are no marks, a digest is that of no Blob, or no node may keep the list.
pub fn staged_by(alloc: Global, blobs: &Blobs, marks: &[u8]) -> Result<Staged, FieldError>
    requires apart { Apart blobs.now }
    ensures named { IfOk result (λ staged. AreNamedBy blobs.now marks.now (parts_of staged)) }
    ensures wrong { IfErr result (λ e. e ≡ FieldError.Wrong → (parts : List PartTerm) → IsStaged parts → AreNamedBy blobs.now marks.now parts → ⊥) }
{
    let marks = match read_whole::<NodeForm, Items<PartMark>>(alloc, marks) {
        Ok(marks) => marks,
        Err(error) => return Err(error),
    };
    let parts = match parts_named(alloc, blobs, marks.as_slice()) {
        Ok(parts) => parts,
        Err(error) => return Err(error),
    };
    match stored(alloc, parts) {
        Ok(Some(staged)) => Ok(staged),
        Ok(None) => Err(FieldError::Wrong),
        Err(Memory) => Err(FieldError::Memory),
    }
}

// The parts that the marks name.
fn parts_named(alloc: Global, blobs: &Blobs, marks: &[PartMark]) -> Result<Vec<Part>, FieldError>
    requires { AllByRecursion IsMark marks.now }
    ensures named { IfOk result (λ parts. NamesParts blobs.now marks.now parts.items) }
    ensures wrong { IfErr result (λ e. e ≡ FieldError.Wrong → HaveNone blobs.now marks.now) }
{
    let (mut parts, mut left) = (Vec::new(alloc), marks);
    while let [mark, rest @ ..] = left {
        let part = match part_named(blobs, mark) {
            Ok(part) => part,
            Err(error) => return Err(error),
        };
        parts.push(part)?;
        left = rest;
    }
    Ok(parts)
}

// The part that the mark names.
fn part_named(blobs: &Blobs, mark: &PartMark) -> Result<Part, FieldError>
    requires { IsMark mark.now }
    ensures named { IfOk result (NamesPart blobs.now mark.now) }
    ensures wrong { IfErr result (λ e. e ≡ FieldError.Wrong → HasNone blobs.now mark.now) }
{
    let Some(blob) = blobs.find(&mark.digest) else {
        return Err(FieldError::Wrong);
    };
    Ok(Part {
        name: mark.name.copy()?,
        digest: mark.digest,
        bytes: blob.bytes.share()?,
    })
}
