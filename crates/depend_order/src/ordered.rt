//! A document together with what its order is.
ghost use Rattle.std.specs.Prelude.{◌≡◌, ◌<◌, ◌^◌, IfErr, IfOk, length};
ghost use Rattle.depend_order.specs.Ordered.{IsOrdered};
ghost use Rattle.depend_order.specs.Refused.{HasNoOrder};

use crate::names::places_of_names;
use crate::numbers::order_of;
use crate::{InOrderError, OrderError};
use dsc_document::Document;
use mof_values::Items;
use std::alloc::Global;

/// A document with its order and the places that its resources depend on; `IsOrdered` says what they are.
#[derive(Debug, Drop)]
pub struct OrderedDocument {
    pub document: Document,

    /// The places of the resources in the order in which they are applied.
    pub order: Items<u32>,

    /// For each resource the places that the names in its DependsOn mean, in their order.
    pub depends: Items<Vec<u32>>,
}

/// The document with its order, or why it has none: equal ids, an unknown one, or a cycle, as [`order`](crate::order) finds it.
pub fn in_order(alloc: Global, document: Document) -> Result<OrderedDocument, InOrderError>
    requires few { length document.resources < 2 ^ 32 }
    ensures same { IfOk result (λ ordered. ordered.document ≡ document) }
    ensures ordered { IfOk result IsOrdered }
    ensures refused { IfErr result (HasNoOrder document) }
{
    let depends = places_of_names(alloc, &document)?;
    match order_of(alloc, &depends) {
        Ok(order) => Ok(OrderedDocument {
            document,
            order: Items::of(order),
            depends: Items::of(depends),
        }),
        Err(OrderError::Cycle(cycle)) => Err(InOrderError::Cycle(cycle)),
        Err(OrderError::Memory) => Err(InOrderError::Memory),
    }
}
