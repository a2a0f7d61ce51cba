//! Why a field could not be read.
ghost use Rattle.std.specs.Prelude.{◌≡◌};

use std::alloc::{AllocError, AllocFailed};
use std::fmt;

/// Why a field could not be read.
#[derive(Clone, Copy, Debug, PartialEq, Eq)]
pub enum FieldError {
    /// No value in range stands there.
    Wrong,

    /// Out of memory.
    Memory,
}

impl From<AllocError> for FieldError {
    ghost use Rattle.store_fields.specs.declared.error.FieldError.TheVariants.{Memory};

    ghost from_gives = { λ _ e. e ≡ Memory };

    fn from(_: AllocError) -> FieldError {
        FieldError::Memory
    }
}

impl<T: Drop> From<AllocFailed<T>> for FieldError {
    ghost use Rattle.store_fields.specs.declared.error.FieldError.TheVariants.{Memory};

    ghost from_gives = { λ _ e. e ≡ Memory };

    fn from(_: AllocFailed<T>) -> FieldError {
        FieldError::Memory
    }
}

impl fmt::Display for FieldError {
    fn fmt<W: fmt::Write>(&self, f: &mut fmt::Formatter<W>) -> fmt::Result {
        f.write_str(match self {
            FieldError::Wrong => "no such field",
            FieldError::Memory => "out of memory",
        })
    }
}
