//! Why a call of a log failed.
use dsc_outside::Failed;
use std::alloc::{AllocError, AllocFailed};
use std::fmt;

/// Why a log was not opened, or a call of it failed.
#[derive(Clone, Copy, Debug, PartialEq, Eq)]
pub enum LogError {
    /// The disk failed.
    Disk,

    /// The disk holds no store; the first byte that is in no text of the grammar stands at this place, or is missing there.
    NotAStore { at: u64 },

    Memory,
}

impl From<Failed> for LogError {
    ghost use Rattle.gate_log.specs.declared.error.LogError.TheVariants.{Disk};
    ghost use Rattle.std.specs.Prelude.{◌≡◌};

    ghost from_gives = { λ _ e. e ≡ Disk };

    fn from(_: Failed) -> Self {
        LogError::Disk
    }
}

impl From<AllocError> for LogError {
    ghost use Rattle.gate_log.specs.declared.error.LogError.TheVariants.{Memory};
    ghost use Rattle.std.specs.Prelude.{◌≡◌};

    ghost from_gives = { λ _ e. e ≡ Memory };

    fn from(_: AllocError) -> Self {
        LogError::Memory
    }
}

impl<T: Drop> From<AllocFailed<T>> for LogError {
    ghost use Rattle.gate_log.specs.declared.error.LogError.TheVariants.{Memory};
    ghost use Rattle.std.specs.Prelude.{◌≡◌};

    ghost from_gives = { λ _ e. e ≡ Memory };

    fn from(_: AllocFailed<T>) -> Self {
        LogError::Memory
    }
}

impl fmt::Display for LogError {
    fn fmt<W: fmt::Write>(&self, f: &mut fmt::Formatter<W>) -> fmt::Result {
        match self {
            LogError::Disk => f.write_str("the disk failed"),
            LogError::NotAStore { at } => write!(f, "no store: byte {at} is wrong or missing"),
            LogError::Memory => f.write_str("out of memory"),
        }
    }
}
