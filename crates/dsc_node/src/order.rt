//! A merged document with its order.
ghost use Rattle.std.specs.Prelude.{◌≡◌, List, IfOk};
ghost use Rattle.partial_merge.specs.declared.part.Part.{Part};
ghost use Rattle.partial_merge.specs.Merged.{Merged};
ghost use Rattle.depend_order.specs.Documents.{IsOrderOfDocument};
ghost use Rattle.depend_order.specs.Ordered.{IsOrdered};

use depend_order::{OrderError, OrderedDocument, dependencies, order};
use dsc_document::Document;
use mof_values::Items;
use std::alloc::{AllocError, Global};

/// A merged document with its order, which it has, and with the places that its resources depend on.
pub fn ordered_of_merged(alloc: Global, document: Document) -> Result<OrderedDocument, AllocError>
    requires merged { (parts : List Part) × Merged parts document }
    ensures same { IfOk result (λ ordered. ordered.document ≡ document) }
    ensures ordered { IfOk result IsOrdered }
{
    let order = order_of_merged(alloc, &document)?;
    let depends = dependencies(alloc, &document)?;
    Ok(OrderedDocument {
        document,
        order: Items::of(order),
        depends: Items::of(depends),
    })
}

// The order of the resources of a merged document.
fn order_of_merged(alloc: Global, document: &Document) -> Result<Vec<u32>, AllocError>
    requires merged { (parts : List Part) × Merged parts document.now }
    ensures { IfOk result (λ order. IsOrderOfDocument document.now order.items) }
{
    match order(alloc, document) {
        Ok(order) => Ok(order),
        Err(OrderError::Memory) => Err(AllocError),
        Err(OrderError::Cycle(_)) => unreachable!(),
    }
}
