//! Why a call of a store failed.
use dsc_outside::Failed;
use std::alloc::{AllocError, AllocFailed};
use std::fmt;

/// Why a store was not opened, or did not keep a change.
#[derive(Clone, Copy, Debug, PartialEq, Eq)]
pub enum PullError {
    /// An earlier call answered `Disk`.
    Spent,

    /// The agent is new, and 512 agents have a row.
    Agents,

    /// The agent has no row.
    NoAgent,

    /// Neither the change fits the live bank, nor do the rows after it fit a bank: they need that many bytes.
    Full { need: u64, room: u64 },

    /// The disk failed.
    Disk,

    /// The disk holds no store of rows: the byte at this place is wrong or missing, or a body that begins there is no
    /// registration and no report that is accepted.
    NotAStore { at: u64 },

    Memory,
}

impl From<Failed> for PullError {
    ghost use Rattle.pull_store.specs.declared.error.PullError.TheVariants.{Disk};
    ghost use Rattle.std.specs.Prelude.{◌≡◌};

    ghost from_gives = { λ _ e. e ≡ Disk };

    fn from(_: Failed) -> Self {
        PullError::Disk
    }
}

impl From<AllocError> for PullError {
    ghost use Rattle.pull_store.specs.declared.error.PullError.TheVariants.{Memory};
    ghost use Rattle.std.specs.Prelude.{◌≡◌};

    ghost from_gives = { λ _ e. e ≡ Memory };

    fn from(_: AllocError) -> Self {
        PullError::Memory
    }
}

impl<T: Drop> From<AllocFailed<T>> for PullError {
    ghost use Rattle.pull_store.specs.declared.error.PullError.TheVariants.{Memory};
    ghost use Rattle.std.specs.Prelude.{◌≡◌};

    ghost from_gives = { λ _ e. e ≡ Memory };

    fn from(_: AllocFailed<T>) -> Self {
        PullError::Memory
    }
}

impl From<mof_values::Memory> for PullError {
    ghost use Rattle.pull_store.specs.declared.error.PullError.TheVariants.{Memory};
    ghost use Rattle.std.specs.Prelude.{◌≡◌};

    ghost from_gives = { λ _ e. e ≡ Memory };

    fn from(_: mof_values::Memory) -> Self {
        PullError::Memory
    }
}

impl fmt::Display for PullError {
    fn fmt<W: fmt::Write>(&self, f: &mut fmt::Formatter<W>) -> fmt::Result {
        match self {
            PullError::Spent => f.write_str("the store is spent"),
            PullError::Agents => f.write_str("too many agents"),
            PullError::NoAgent => f.write_str("no such agent"),
            PullError::Full { need, room } => write!(f, "no room: {need} bytes needed of {room}"),
            PullError::Disk => f.write_str("the disk failed"),
            PullError::NotAStore { at } => write!(f, "no store: byte {at} is wrong or missing"),
            PullError::Memory => f.write_str("out of memory"),
        }
    }
}
