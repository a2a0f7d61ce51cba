//! Why parts are not staged.
ghost use Rattle.std.specs.Prelude.{◌≡◌};
ghost use Rattle.node_state.specs.declared.error.StageError.TheVariants.{Memory as OutOfMemory};

use mof_values::Memory;
use partial_merge::MergeError;
use std::alloc::{AllocError, AllocFailed};

/// Why a document does not fit a meta-configuration, in the order in which the reasons win.
#[derive(Clone, Copy, Debug, PartialEq, Eq)]
pub enum FitError {
    /// No partial configuration is declared, and the parts are not one but this many.
    PartCount { found: u32 },

    /// The first part that is no partial configuration.
    StrangePart { part: u32 },

    /// The first partial configuration that has no part and that one which has a part depends on.
    MissingPart { partial: u32 },

    /// The first resource of a type that another partial configuration claims: its part's place in the list of parts, and its own
    /// place in the document.
    ExclusiveTaken { part: u32, resource: u32 },
}

/// Why parts are not staged, in the order in which the reasons win.
#[derive(Debug, Drop, PartialEq)]
pub enum StageError {
    /// They are no document.
    Merge(MergeError),

    /// Their document does not fit the meta-configuration.
    Fit(FitError),

    /// They have more than `MAX_BYTES` bytes together: this many.
    TooLong { bytes: u64 },

    Memory,
}

impl From<AllocError> for StageError {
    ghost from_gives = { λ _ e. e ≡ OutOfMemory };

    fn from(_: AllocError) -> Self {
        StageError::Memory
    }
}

impl<T: Drop> From<AllocFailed<T>> for StageError {
    ghost from_gives = { λ _ e. e ≡ OutOfMemory };

    fn from(_: AllocFailed<T>) -> Self {
        StageError::Memory
    }
}

impl From<Memory> for StageError {
    ghost from_gives = { λ _ e. e ≡ OutOfMemory };

    fn from(_: Memory) -> Self {
        StageError::Memory
    }
}
