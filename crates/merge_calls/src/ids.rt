//! The ids of a merged document, in the order of dependencies.
ghost use Rattle.std.specs.Prelude.{◌<◌, All, length};

use mof_codec::push_literal;
use partial_merge::OrderedDocument;
use std::alloc::{AllocError, Global};

/// The ids, a line each.
pub fn id_lines(alloc: Global, merged: &OrderedDocument) -> Result<String, AllocError>
    requires { All (λ place. place < length merged.now.document.resources) merged.now.order }
{
    let resources = merged.document.resources.as_slice();
    let mut lines = String::new(alloc);
    for place in merged.order.as_slice() {
        push_literal(&mut lines, resources[*place as usize].id.as_slice())?;
        lines.push_str("\n")?;
    }
    Ok(lines)
}
