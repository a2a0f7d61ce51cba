//! The merge of parts.
ghost use Rattle.std.specs.Prelude.{◌<◌, ◌^◌, [], ◌∷◌, IfErr, IfOk, length};
ghost use Rattle.dsc_document.specs.Sizes.{DocumentInSize};
ghost use Rattle.depend_order.specs.Ordered.{IsOrdered};
ghost use Rattle.partial_merge.specs.Merged.{Merged};
ghost use Rattle.partial_merge.specs.Parts.{DeclaresDocument, text_part};
ghost use Rattle.partial_merge.specs.Refused.{IsFaultAt, Refused};

use crate::checked::checked;
use crate::joined::{declared, document_of, joined};
use crate::part_names::check_names;
use crate::{MergeError, Part};
use depend_order::OrderedDocument;
use dsc_document::Document;
use mof_values::Text;
use std::alloc::Global;

/// The document that the parts are together; there is at least one.
///
/// Its resources and other instances stand in the parts' order, each resource with the place of its part; the version
/// is that of the first part, and the names are those of the parts.
///
/// # Errors
///
/// The first reason that applies, in the order of [`MergeError`].
pub fn merge(alloc: Global, parts: &[Part]) -> Result<Document, MergeError>
    requires some { 0 < length parts.now }
    requires countable { length parts.now < 2 ^ 32 }
    ensures merged { IfOk result (Merged parts.now) }
    ensures in_size { IfOk result DocumentInSize }
    ensures refused { IfErr result (Refused parts.now) }
{
    let ordered = merge_ordered(alloc, parts)?;
    Ok(ordered.document)
}

/// The document that [`merge`] gives, with its order.
pub fn merge_ordered(alloc: Global, parts: &[Part]) -> Result<OrderedDocument, MergeError>
    requires some { 0 < length parts.now }
    requires countable { length parts.now < 2 ^ 32 }
    ensures merged { IfOk result (λ ordered. Merged parts.now ordered.document) }
    ensures ordered { IfOk result IsOrdered }
    ensures in_size { IfOk result (λ ordered. DocumentInSize ordered.document) }
    ensures refused { IfErr result (Refused parts.now) }
{
    check_names(alloc, parts)?;
    let document = joined(alloc, parts)?;
    checked(alloc, document)
}

/// The document that [`merge`] gives of the part that a text is under a name, with its order. No digest is computed.
pub fn merge_text(alloc: Global, name: &Text, bytes: &[u8]) -> Result<OrderedDocument, MergeError>
    ensures merged { IfOk result (λ ordered.
        Merged (text_part name.now bytes.now ∷ []) ordered.document) }
    ensures ordered { IfOk result IsOrdered }
    ensures in_size { IfOk result (λ ordered. DocumentInSize ordered.document) }
    ensures refused { IfErr result (Refused (text_part name.now bytes.now ∷ [])) }
{
    let document = document_of(alloc, name, bytes)?;
    checked(alloc, document)
}

/// Checks that the text declares a document by the rules of parts, whatever its resources are and depend on elsewhere.
///
/// # Errors
///
/// `Part` with index 0 and the fault that [`merge`] reports of a part with this text; `Memory`.
pub fn check_text(alloc: Global, bytes: &[u8]) -> Result<(), MergeError>
    ensures declared { IfOk result (λ _. DeclaresDocument bytes.now) }
    ensures refused { IfErr result (IsFaultAt 0 bytes.now) }
{
    declared(alloc, 0, bytes)?;
    Ok(())
}
