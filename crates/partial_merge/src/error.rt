//! Why parts have no document.
ghost use Rattle.std.specs.Prelude.{◌≡◌};
ghost use Rattle.partial_merge.specs.declared.error.MergeError.TheVariants.{Memory};

use depend_order::Cycle;
use dsc_document::{DocError, MAX_RESOURCES, Spot};
use mof_codec::MofError;
use mof_values::{Items, Memory, Text};
use std::alloc::{AllocError, AllocFailed};
use std::fmt;

/// Why a part is no part of a document.
#[derive(Debug, Drop, PartialEq)]
pub enum PartFault {
    /// Its bytes spell no instances.
    Mof(MofError),

    /// Its instances break a rule of parts.
    Doc(DocError),
}

/// Why parts have no document, in the order in which the reasons win. Parts are counted from 0.
#[derive(Debug, Drop, PartialEq)]
pub enum MergeError {
    /// Two parts have the same name by fold. Of all such pairs it is the one whose second part is the least, and then
    /// its first.
    TwoNames { first: u32, second: u32 },

    /// The first part with a fault.
    Part { index: u32, fault: PartFault },

    /// The parts have that many resources together, which are more than [`MAX_RESOURCES`](dsc_document::MAX_RESOURCES).
    TooMany { count: u64 },

    /// Two resources have the same id by fold. Of all such pairs it is the one whose second resource stands first in the
    /// parts' order, and then its first.
    DuplicateId { first: Spot, second: Spot },

    /// The first resource that depends on what is no resource's id, and its first such name.
    DependsUnknown { spot: Spot, name: Text },

    /// The dependencies form a cycle: each of these resources depends on the next, and the last on the first. A
    /// resource is its place in the document, counted from 0.
    Cycle(Items<u32>),

    Memory,
}

impl From<AllocError> for MergeError {
    ghost from_gives = { λ _ e. e ≡ Memory };

    fn from(_: AllocError) -> Self {
        MergeError::Memory
    }
}

impl<T: Drop> From<AllocFailed<T>> for MergeError {
    ghost from_gives = { λ _ e. e ≡ Memory };

    fn from(_: AllocFailed<T>) -> Self {
        MergeError::Memory
    }
}

impl fmt::Display for PartFault {
    fn fmt<W: fmt::Write>(&self, f: &mut fmt::Formatter<W>) -> fmt::Result {
        match self {
            PartFault::Mof(error) => write!(f, "{error}"),
            PartFault::Doc(error) => write!(f, "{error}"),
        }
    }
}

impl fmt::Display for MergeError {
    fn fmt<W: fmt::Write>(&self, f: &mut fmt::Formatter<W>) -> fmt::Result {
        match self {
            MergeError::TwoNames { first, second } => {
                write!(f, "parts {first} and {second} have the same name")
            }
            MergeError::Part { index, fault } => write!(f, "part {index}: {fault}"),
            MergeError::TooMany { count } => {
                write!(f, "{count} resources, more than {MAX_RESOURCES}")
            }
            MergeError::DuplicateId { first, second } => {
                write!(f, "{first} and {second} have the same ResourceID")
            }
            MergeError::DependsUnknown { spot, name } => {
                write!(f, "no resource has the id that {spot} depends on: {name}")
            }
            MergeError::Cycle(walk) => write!(f, "{}", Cycle(walk.as_slice())),
            MergeError::Memory => write!(f, "{Memory}"),
        }
    }
}
