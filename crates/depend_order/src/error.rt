//! Why there is no order.
ghost use Rattle.std.specs.Prelude.{◌≡◌};
ghost use Rattle.depend_order.specs.declared.error.OrderError.TheVariants.{Memory};

use dsc_document::Spot;
use mof_values::{Items, Memory, Text};
use std::alloc::{AllocError, AllocFailed};
use std::fmt;

/// Why the places have no order.
#[derive(Debug, Drop, PartialEq)]
pub enum OrderError {
    /// The dependencies form a cycle: each of these places depends on the next, and the last on the first.
    Cycle(Items<u32>),

    Memory,
}

/// Why a document has no order, in the order in which the reasons win.
#[derive(Debug, Drop)]
pub enum InOrderError {
    /// Two resources have the same id by fold. Of all such pairs it is the one whose second resource stands first, and then its
    /// first.
    DuplicateId { first: Spot, second: Spot },

    /// The first resource that depends on what is no resource's id, and its first such name.
    DependsUnknown { spot: Spot, name: Text },

    /// The dependencies form a cycle: each of these places depends on the next, and the last on the first.
    Cycle(Items<u32>),

    Memory,
}

impl From<AllocError> for OrderError {
    ghost from_gives = { λ _ e. e ≡ Memory };

    fn from(_: AllocError) -> Self {
        OrderError::Memory
    }
}

impl<T: Drop> From<AllocFailed<T>> for OrderError {
    ghost from_gives = { λ _ e. e ≡ Memory };

    fn from(_: AllocFailed<T>) -> Self {
        OrderError::Memory
    }
}

impl From<AllocError> for InOrderError {
    ghost use Rattle.depend_order.specs.declared.error.InOrderError.TheVariants as errors;

    ghost from_gives = { λ _ e. e ≡ errors.Memory };

    fn from(_: AllocError) -> Self {
        InOrderError::Memory
    }
}

impl<T: Drop> From<AllocFailed<T>> for InOrderError {
    ghost use Rattle.depend_order.specs.declared.error.InOrderError.TheVariants as errors;

    ghost from_gives = { λ _ e. e ≡ errors.Memory };

    fn from(_: AllocFailed<T>) -> Self {
        InOrderError::Memory
    }
}

impl fmt::Display for OrderError {
    fn fmt<W: fmt::Write>(&self, f: &mut fmt::Formatter<W>) -> fmt::Result {
        match self {
            OrderError::Cycle(walk) => write!(f, "{}", Cycle(walk.as_slice())),
            OrderError::Memory => write!(f, "{Memory}"),
        }
    }
}

/// The places of a cycle, one after the other: its Display says that the dependencies form it.
#[derive(Clone, Copy, Debug)]
pub struct Cycle<'a>(pub &'a [u32]);

impl<'a> fmt::Display for Cycle<'a> {
    fn fmt<W: fmt::Write>(&self, f: &mut fmt::Formatter<W>) -> fmt::Result {
        f.write_str("the dependencies form a cycle:")?;
        for place in self.0 {
            write!(f, " {place}")?;
        }
        Ok(())
    }
}
