//! What the document that parts are joined to has to be: not too large, of distinct ids, which alone are depended on, and
//! with an order.
ghost use Rattle.std.specs.Prelude.{◌≡◌, ◌≤◌, IfErr, IfOk, length};
ghost use Rattle.depend_order.specs.Ordered.{IsOrdered};
ghost use Rattle.partial_merge.specs.Refused.{IsDocumentFault};

use crate::MergeError;
use depend_order::{InOrderError, OrderedDocument, in_order};
use dsc_document::{Document, MAX_RESOURCES};
use std::alloc::Global;

/// The document with its order, where it has not too many resources, their ids differ, and they depend on resources.
pub fn checked(alloc: Global, document: Document) -> Result<OrderedDocument, MergeError>
    ensures same { IfOk result (λ ordered. ordered.document ≡ document) }
    ensures few { IfOk result (λ ordered. length ordered.document.resources ≤ MAX_RESOURCES) }
    ensures ordered { IfOk result IsOrdered }
    ensures refused { IfErr result (IsDocumentFault document) }
{
    let count = document.resources.as_slice().len();
    if count > MAX_RESOURCES {
        return Err(MergeError::TooMany {
            count: count as u64,
        });
    }
    match in_order(alloc, document) {
        Ok(ordered) => Ok(ordered),
        Err(InOrderError::DuplicateId { first, second }) => {
            Err(MergeError::DuplicateId { first, second })
        }
        Err(InOrderError::DependsUnknown { spot, name }) => {
            Err(MergeError::DependsUnknown { spot, name })
        }
        Err(InOrderError::Cycle(cycle)) => Err(MergeError::Cycle(cycle)),
        Err(InOrderError::Memory) => Err(MergeError::Memory),
    }
}
