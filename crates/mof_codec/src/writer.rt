//! Writes instances as their canonical text.
ghost use Rattle.std.specs.Prelude.{◌≡◌, ◌≤◌, length, IfOk};
ghost use Rattle.mof_syntax.specs.Canonical.{canonical_bytes};
ghost use Rattle.mof_syntax.specs.Limits.{IsWithinLimits, document_limit};
ghost use Rattle.mof_syntax.specs.Refusals.{Reads};

mod declarations;
mod literals;
mod scalars;

use declarations::push_instances;
pub use literals::{push_literal, push_literal_char};
use mof_values::{Instance, Memory};
use std::alloc::Global;

/// The canonical text of the instances, in UTF-8 without a mark. Where instances and text are within the limits of a
/// document, `read` gives the instances back.
pub fn write(alloc: Global, instances: &[Instance]) -> Result<Vec<u8>, Memory>
    ensures text { IfOk result (λ bytes. bytes.items ≡ canonical_bytes instances.now) }
    ensures reads_back { IfOk result (λ bytes. IsWithinLimits instances.now
        → length bytes.items ≤ document_limit → Reads bytes.items instances.now) }
{
    let mut out = String::new(alloc);
    push_instances(&mut out, instances)?;
    Ok(out.into_bytes())
}
