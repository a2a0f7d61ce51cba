//! Marks of parts, and comparisons of lists of them.
ghost use Rattle.std.specs.Prelude.{◌≡◌, IfOk, map};
ghost use Rattle.node_pull.specs.Marks.{mark_of, same_marks, same_parts};

use partial_merge::Part;
use report_log::PartMark;
use std::alloc::{AllocError, Global};

/// The names and digests of parts, in their order.
pub fn marks_of(alloc: Global, parts: &[Part]) -> Result<Vec<PartMark>, AllocError>
    ensures { IfOk result (λ marks. marks.items ≡ map mark_of parts.now) }
{
    let mut marks = Vec::new(alloc);
    for part in parts {
        marks.push(PartMark {
            name: part.name.copy()?,
            digest: part.digest,
        })?;
    }
    Ok(marks)
}

/// Returns whether two lists of parts have the same names and digests, in the same order.
pub(crate) fn same_marks(others: &[Part], parts: &[Part]) -> bool
    ensures { result ≡ same_marks others.now parts.now }
{
    let (mut left, mut right) = (others, parts);
    while let [other, rest @ ..] = left {
        let [part, later @ ..] = right else {
            return false;
        };
        if other.name != part.name || other.digest != part.digest {
            return false;
        }
        (left, right) = (rest, later);
    }
    right.is_empty()
}

/// Returns whether two lists of parts are the same: they have the same names and bytes, in the same order.
pub(crate) fn same_parts(others: &[Part], parts: &[Part]) -> bool
    ensures { result ≡ same_parts others.now parts.now }
{
    let (mut left, mut right) = (others, parts);
    while let [other, rest @ ..] = left {
        let [part, later @ ..] = right else {
            return false;
        };
        if other.name != part.name || other.bytes.as_slice() != part.bytes.as_slice() {
            return false;
        }
        (left, right) = (rest, later);
    }
    right.is_empty()
}
