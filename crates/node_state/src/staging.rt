//! Stages parts: a list of them that a node may keep, or why there is none.
ghost use Rattle.std.specs.Prelude.{◌≡◌, ◌≢◌, ◌<◌, ◌^◌, ◌↔◌, false, All, IsTrue, IfOk, IfErr, IfSome, IfNone, length, vec_len};
ghost use Rattle.dsc_document.specs.Sizes.{DocumentInSize, Fits};
ghost use Rattle.mof_values.specs.declared.limits.TheConstants.{MAX_NAME_BYTES};
ghost use Rattle.depend_order.specs.Ordered.{IsOrdered};
ghost use Rattle.meta_config.specs.Parts.{IsMeta};
ghost use Rattle.partial_merge.specs.Merged.{Merged};
ghost use Rattle.node_state.specs.Lists.{AreNamed, IsMerged, IsStaged, bytes_of};
ghost use Rattle.node_state.specs.StagedParts.{parts_of};
ghost use Rattle.node_state.specs.Staging.{AreFitting, AreRefused};

use crate::limits::MAX_BYTES;
use crate::{SharedParts, StageError, Staged, fits};
use meta_config::Meta;
use mof_values::{MAX_NAME_BYTES, Memory};
use partial_merge::{MergeError, OrderedDocument, Part, merge, merge_ordered};
use report_log::MAX_PARTS;
use std::alloc::Global;

/// The list of these parts, which are to fit the meta-configuration.
///
/// # Errors
///
/// The first reason that applies, in the order of [`StageError`].
pub fn staged(alloc: Global, meta: &Meta, parts: Vec<Part>) -> Result<Staged, StageError>
    requires named { AreNamed parts.items }
    requires meta { IsMeta meta.now }
    ensures staged { IfOk result (λ staged. parts_of staged ≡ parts.items) }
    ensures fits { IfOk result (λ staged. AreFitting meta.now parts.items) }
    ensures refused { IfErr result (AreRefused meta.now parts.items) }
{
    let (staged, _) = staged_in_order(alloc, meta, parts)?;
    Ok(staged)
}

/// The list of these parts, as of [`staged`], together with the document that they are merged to and its order.
pub fn staged_in_order(
    alloc: Global,
    meta: &Meta,
    parts: Vec<Part>,
) -> Result<(Staged, OrderedDocument), StageError>
    requires named { AreNamed parts.items }
    requires meta { IsMeta meta.now }
    ensures staged { IfOk result (λ pair. parts_of pair.0 ≡ parts.items) }
    ensures merged { IfOk result (λ pair. Merged parts.items pair.1.document) }
    ensures ordered { IfOk result (λ pair. IsOrdered pair.1) }
    ensures in_size { IfOk result (λ pair. DocumentInSize pair.1.document) }
    ensures fits { IfOk result (λ pair. AreFitting meta.now parts.items) }
    ensures refused { IfErr result (AreRefused meta.now parts.items) }
{
    let ordered = match merge_ordered(alloc, &parts) {
        Ok(ordered) => ordered,
        Err(MergeError::Memory) => return Err(StageError::Memory),
        Err(refusal) => return Err(StageError::Merge(refusal)),
    };
    if let Err(misfit) = fits(meta, &ordered.document) {
        return Err(StageError::Fit(misfit));
    }
    let bytes = bytes_of(&parts);
    if bytes > MAX_BYTES {
        return Err(StageError::TooLong { bytes });
    }
    let staged = Staged {
        parts: SharedParts::of(alloc, parts)?,
    };
    Ok((staged, ordered))
}

/// The list of these parts, where they can be one, whether they fit a meta-configuration or not: 1 to `MAX_PARTS` parts with
/// names of at most `MAX_NAME_BYTES` bytes of UTF-8 and at most `MAX_BYTES` bytes together, which are merged to a document.
pub fn stored(alloc: Global, parts: Vec<Part>) -> Result<Option<Staged>, Memory>
    ensures staged { IfOk result (λ found.
        IfSome found (λ staged. parts_of staged ≡ parts.items)) }
    ensures none { IfOk result (λ found. IfNone found (IsStaged parts.items → ⊥)) }
{
    if !are_named(&parts) || !are_merged(alloc, &parts)? {
        return Ok(None);
    }
    listed(alloc, parts)
}

// Returns whether the parts are merged to a document.
fn are_merged(alloc: Global, parts: &[Part]) -> Result<bool, Memory>
    requires named { AreNamed parts.now }
    ensures { IfOk result (λ merged. IsTrue merged ↔ IsMerged parts.now) }
{
    match merge(alloc, parts) {
        Ok(_) => Ok(true),
        Err(refusal) => not_merged(refusal),
    }
}

fn not_merged(refusal: MergeError) -> Result<bool, Memory>
    ensures { IfOk result (λ merged. (merged ≡ false) × (refusal ≢ MergeError.Memory)) }
{
    match refusal {
        MergeError::Memory => Err(Memory),
        _ => Ok(false),
    }
}

// The list of these parts, where they are not too long together.
fn listed(alloc: Global, parts: Vec<Part>) -> Result<Option<Staged>, Memory>
    requires named { AreNamed parts.items }
    requires merged { IsMerged parts.items }
    ensures staged { IfOk result (λ found. IfSome found (λ staged. parts_of staged ≡ parts.items)) }
    ensures none { IfOk result (λ found. IfNone found (MAX_BYTES < bytes_of parts.items)) }
{
    if bytes_of(&parts) > MAX_BYTES {
        return Ok(None);
    }
    Ok(Some(Staged {
        parts: SharedParts::of(alloc, parts)?,
    }))
}

fn are_named(parts: &[Part]) -> bool
    ensures { IsTrue result ↔ AreNamed parts.now }
{
    !parts.is_empty() && parts.len() <= MAX_PARTS && names_fit(parts)
}

fn names_fit(parts: &[Part]) -> bool
    ensures { IsTrue result ↔ All (λ part. Fits MAX_NAME_BYTES part.name) parts.now }
{
    parts.iter().all(|part| part.name.fits_utf8(MAX_NAME_BYTES))
}

fn bytes_of(parts: &[Part]) -> u64
    requires { bytes_of parts.now < 2 ^ 64 }
    ensures { result ≡ bytes_of parts.now }
{
    let (mut bytes, mut left) = (0, parts);
    while let [part, rest @ ..] = left {
        bytes += part.bytes.as_slice().len() as u64;
        left = rest;
    }
    bytes
}
