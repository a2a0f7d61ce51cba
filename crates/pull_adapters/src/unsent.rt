//! What a peer has not taken of its answer.
use crate::last_items::{DigestedItem, LastItems};
use std::alloc::{AllocError, Global};
use std::rc::Rc;

/// Bytes of an answer: its own, or those of an item that a shelf keeps too.
#[derive(Drop)]
pub enum Unsent {
    Own(Vec<u8>),
    Item(Rc<DigestedItem>),
}

impl Unsent {
    pub fn new(alloc: Global) -> Unsent {
        Unsent::Own(Vec::new(alloc))
    }

    pub fn as_slice(&self) -> &[u8] {
        match self {
            Unsent::Own(bytes) => bytes,
            Unsent::Item(item) => item.as_slice(),
        }
    }

    pub fn len(&self) -> usize {
        self.as_slice().len()
    }

    pub fn is_empty(&self) -> bool {
        self.as_slice().is_empty()
    }

    /// Whether both are of the same bytes.
    pub fn is_same(&self, other: &Unsent) -> bool {
        match (self, other) {
            (Unsent::Item(one), Unsent::Item(other)) if Rc::ptr_eq(one, other) => true,
            _ => self.as_slice() == other.as_slice(),
        }
    }

    /// Appends a piece. The first one is not copied where it is one of the items. Out of memory nothing changes.
    pub fn append(
        &mut self,
        alloc: Global,
        items: &LastItems,
        piece: &[u8],
    ) -> Result<(), AllocError> {
        if self.is_empty() {
            if let Some(item) = items.find(piece) {
                *self = Unsent::Item(item);
                return Ok(());
            }
        }
        match self {
            Unsent::Own(bytes) => append_exact(bytes, piece),
            Unsent::Item(item) => {
                let mut both = item.as_slice().to_vec(alloc)?;
                append_exact(&mut both, piece)?;
                *self = Unsent::Own(both);
                Ok(())
            }
        }
    }
}

fn append_exact(bytes: &mut Vec<u8>, piece: &[u8]) -> Result<(), AllocError> {
    bytes.reserve_exact(piece.len())?;
    bytes.extend_from_slice(piece)
}
