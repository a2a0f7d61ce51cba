//! Why a list of instances is no document.
ghost use Rattle.std.specs.Prelude.{◌≡◌};
ghost use Rattle.dsc_document.specs.declared.error.DocError.TheVariants.{Memory};

use mof_values::{Ident, Memory, Text};
use std::alloc::{AllocError, AllocFailed};
use std::fmt;

/// Which rule the instances break. An index is an instance's place in the list, counted from 0.
///
/// The rules stand in the order in which they win; of one rule the least index is reported, and of a pair the least
/// second and then the least first.
#[derive(Debug, Drop, PartialEq)]
pub enum DocError {
    /// Two properties of an instance have the same name; `name` is how the later one spells it.
    DuplicateProperty { index: u32, name: Ident },

    TwoAliases { first: u32, second: u32 },

    /// A value is an alias that no instance has.
    AliasUnknown { index: u32 },

    NoHeader,
    TwoHeaders { first: u32, second: u32 },

    /// The ResourceID is no text of at most [`MAX_ID`](crate::MAX_ID) bytes in the form `[kind]name`.
    BadResourceId { index: u32 },

    DuplicateId { first: u32, second: u32 },

    /// The DependsOn is neither null, nor a text, nor an array of texts.
    BadDependsOn { index: u32 },

    /// No resource has the id `name`, the first such name in the DependsOn.
    DependsUnknown { index: u32, name: Text },

    Memory,
}

impl From<AllocError> for DocError {
    ghost from_gives = { λ _ e. e ≡ Memory };

    fn from(_: AllocError) -> Self {
        DocError::Memory
    }
}

impl<T: Drop> From<AllocFailed<T>> for DocError {
    ghost from_gives = { λ _ e. e ≡ Memory };

    fn from(_: AllocFailed<T>) -> Self {
        DocError::Memory
    }
}

impl fmt::Display for DocError {
    fn fmt<W: fmt::Write>(&self, f: &mut fmt::Formatter<W>) -> fmt::Result {
        match self {
            DocError::DuplicateProperty { index, name } => {
                write!(f, "instance {index} has two properties named {name}")
            }
            DocError::TwoAliases { first, second } => {
                write!(f, "instances {first} and {second} have the same alias")
            }
            DocError::AliasUnknown { index } => {
                write!(
                    f,
                    "instance {index} refers to an alias that no instance has"
                )
            }
            DocError::NoHeader => f.write_str("no OMI_ConfigurationDocument"),
            DocError::TwoHeaders { first, second } => {
                write!(
                    f,
                    "instances {first} and {second} are both OMI_ConfigurationDocument"
                )
            }
            DocError::BadResourceId { index } => {
                write!(
                    f,
                    "the ResourceID of instance {index} is not of the form [kind]name"
                )
            }
            DocError::DuplicateId { first, second } => {
                write!(f, "instances {first} and {second} have the same ResourceID")
            }
            DocError::BadDependsOn { index } => {
                write!(f, "the DependsOn of instance {index} is no list of texts")
            }
            DocError::DependsUnknown { index, name } => {
                write!(
                    f,
                    "no resource has the id that instance {index} depends on: {name}"
                )
            }
            DocError::Memory => write!(f, "{Memory}"),
        }
    }
}
