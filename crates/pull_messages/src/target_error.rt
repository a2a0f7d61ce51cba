//! Why a text is no target.
ghost use Rattle.std.specs.Prelude.{◌≡◌};
ghost use Rattle.pull_messages.specs.declared.target_error.TargetError.TheVariants.{Memory as OutOfMemory};

use mof_values::Memory;
use std::alloc::{AllocError, AllocFailed};
use std::error::Error;
use std::fmt;

/// Why a text is no target.
#[derive(Debug, Drop, PartialEq)]
pub enum TargetError {
    /// No target; `at` is the length of the longest front with which some target begins, in bytes before decoding. A
    /// front that ends inside an escape or a character begins none.
    BadTarget { at: usize },

    Memory,
}

impl From<AllocError> for TargetError {
    ghost from_gives = { λ _ e. e ≡ OutOfMemory };

    fn from(_: AllocError) -> Self {
        TargetError::Memory
    }
}

impl<T: Drop> From<AllocFailed<T>> for TargetError {
    ghost from_gives = { λ _ e. e ≡ OutOfMemory };

    fn from(_: AllocFailed<T>) -> Self {
        TargetError::Memory
    }
}

impl fmt::Display for TargetError {
    fn fmt<W: fmt::Write>(&self, f: &mut fmt::Formatter<W>) -> fmt::Result {
        match self {
            TargetError::BadTarget { at } => write!(f, "no target goes on so from byte {at}"),
            TargetError::Memory => write!(f, "{Memory}"),
        }
    }
}

impl Error for TargetError {}
