//! Lists of parts that a node holds already, whose bytes are not read again.
//!
//! Reading a list takes the digest of each document, and merges all of them to one. Where its bytes are those of a list that the
//! node holds, this was done before: the list is shared with it.
ghost use Rattle.std.specs.Prelude.{◌≡◌, ◌≢◌, ◌↔◌, ◌++◌, ℕ, List, Some, IfOk, IfSome, IsTrue, MatchOption};
ghost use Rattle.std.specs.List.{AllByRecursion};
ghost use Rattle.partial_merge.specs.declared.part.Part.{Part as PartTerm};
ghost use Rattle.node_state.specs.Lists.{IsStaged};
ghost use Rattle.node_state.specs.Sound.{Sound};
ghost use Rattle.node_store.specs.Bodies.{IsWhole};
ghost use Rattle.node_store.specs.Held.{AreBytesOf, IsHeld, StagesHeld};
ghost use Rattle.node_store.specs.Parts.{bytes_of_part, bytes_of_parts, AreParts, FitsPart, IsPart};

use crate::parts::put_front_of_part;
use mof_values::Memory;
use node_state::{Node, SharedParts};
use partial_merge::Part;
use std::alloc::Global;

/// The list that the body stages, where the node holds it.
pub(crate) fn staged_again(
    alloc: Global,
    node: &Node,
    body: &[u8],
) -> Result<Option<SharedParts>, Memory>
    requires sound { Sound node.now }
    ensures { IfOk result (λ found. MatchOption found
        ((parts : List PartTerm) → StagesHeld node.now body.now parts → ⊥)
        (λ parts. StagesHeld node.now body.now parts)) }
{
    match body {
        [4, bytes @ ..] => match held_in(alloc, node, bytes)? {
            Some(parts) => Ok(Some(parts.share()?)),
            None => Ok(None),
        },
        _ => Ok(None),
    }
}

/// The list that the node holds of which these are all the bytes. They are compared byte by byte, since other documents may
/// have the same digests.
pub(crate) fn held_in<'a>(
    alloc: Global,
    node: &'a Node,
    bytes: &[u8],
) -> Result<Option<&'a SharedParts>, Memory>
    requires sound { Sound node.now }
    ensures { IfOk result (λ found. MatchOption found
        ((parts : List PartTerm) → IsHeld node.now bytes.now parts → ⊥)
        (λ parts. IsHeld node.now bytes.now parts.now)) }
{
    match in_slot(alloc, &node.pending, bytes)? {
        Some(parts) => Ok(Some(parts)),
        None => match in_slot(alloc, &node.current, bytes)? {
            Some(parts) => Ok(Some(parts)),
            None => in_slot(alloc, &node.previous, bytes),
        },
    }
}

// The list of the slot, where these are all their bytes.
fn in_slot<'a>(
    alloc: Global,
    slot: &'a Option<SharedParts>,
    bytes: &[u8],
) -> Result<Option<&'a SharedParts>, Memory>
    requires { IfSome slot.now IsStaged }
    ensures { IfOk result (λ found. MatchOption found
        ((parts : List PartTerm) → slot.now ≡ Some parts → IsWhole bytes_of_parts AreParts bytes.now parts → ⊥)
        (λ parts. (slot.now ≡ Some parts.now) × IsWhole bytes_of_parts AreParts bytes.now parts.now)) }
{
    match slot {
        Some(parts) => {
            if are_all_of(alloc, parts.as_slice(), bytes)? {
                Ok(Some(parts))
            } else {
                Ok(None)
            }
        }
        None => Ok(None),
    }
}

// Whether these are all the bytes of the list.
fn are_all_of(alloc: Global, parts: &[Part], bytes: &[u8]) -> Result<bool, Memory>
    requires { IsStaged parts.now }
    ensures { IfOk result (λ all. IsTrue all ↔ IsWhole bytes_of_parts AreParts bytes.now parts.now) }
{
    match bytes {
        [count, rest @ ..] => {
            if usize::from(*count) == parts.len() {
                are_bytes_of(alloc, parts, rest)
            } else {
                Ok(false)
            }
        }
        [] => Ok(false),
    }
}

// Whether these are the bytes of the parts.
fn are_bytes_of(alloc: Global, parts: &[Part], bytes: &[u8]) -> Result<bool, Memory>
    requires { AllByRecursion FitsPart parts.now }
    ensures { IfOk result (λ are. IsTrue are ↔ AreBytesOf parts.now bytes.now) }
{
    let (mut left, mut after) = (parts, bytes);
    while let [part, rest @ ..] = left {
        let Some(more) = after_part(alloc, part, after)? else {
            return Ok(false);
        };
        (left, after) = (rest, more);
    }
    Ok(after.is_empty())
}

// What follows the part, where it stands in front.
fn after_part<'a>(alloc: Global, part: &Part, bytes: &'a [u8]) -> Result<Option<&'a [u8]>, Memory>
    requires { FitsPart part.now }
    ensures { IfOk result (λ found. MatchOption found
        ((rest : List ℕ) → bytes.now ≢ bytes_of_part part.now ++ rest)
        (λ rest. IsPart part.now × (bytes.now ≡ bytes_of_part part.now ++ rest.now))) }
{
    let mut front = Vec::new(alloc);
    put_front_of_part(&mut front, part)?;
    match bytes.strip_prefix(&front) {
        Some(rest) => Ok(rest.strip_prefix(part.bytes.as_slice())),
        None => Ok(None),
    }
}
