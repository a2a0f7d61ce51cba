//! Why a store was not opened, or an event not committed.
use node_state::Why;
use std::alloc::{AllocError, AllocFailed};
use std::fmt;

/// Why a store was not opened, or an event not committed.
#[derive(Clone, Copy, Debug, PartialEq, Eq)]
pub enum StoreError {
    /// A commit of this store answered `Disk`; it must be opened again.
    Spent,

    /// The node does not allow the event.
    NotAllowed(Why),

    /// The disk failed.
    Disk,

    /// The disk holds no store of a node: the byte at which the text of a store fails, or the first byte of the first body that
    /// is no allowed event and no piece of a node where one may stand.
    NotAStore { at: u64 },

    Memory,
}

impl From<AllocError> for StoreError {
    ghost use Rattle.node_store.specs.declared.error.StoreError.TheVariants.{Memory};
    ghost use Rattle.std.specs.Prelude.{◌≡◌};

    ghost from_gives = { λ _ e. e ≡ Memory };

    fn from(_: AllocError) -> Self {
        StoreError::Memory
    }
}

impl<T: Drop> From<AllocFailed<T>> for StoreError {
    ghost use Rattle.node_store.specs.declared.error.StoreError.TheVariants.{Memory};
    ghost use Rattle.std.specs.Prelude.{◌≡◌};

    ghost from_gives = { λ _ e. e ≡ Memory };

    fn from(_: AllocFailed<T>) -> Self {
        StoreError::Memory
    }
}

impl From<mof_values::Memory> for StoreError {
    ghost use Rattle.node_store.specs.declared.error.StoreError.TheVariants.{Memory};
    ghost use Rattle.std.specs.Prelude.{◌≡◌};

    ghost from_gives = { λ _ e. e ≡ Memory };

    fn from(_: mof_values::Memory) -> Self {
        StoreError::Memory
    }
}

impl fmt::Display for StoreError {
    fn fmt<W: fmt::Write>(&self, f: &mut fmt::Formatter<W>) -> fmt::Result {
        match self {
            StoreError::Spent => f.write_str("the store must be opened again"),
            StoreError::NotAllowed(_) => f.write_str("the node does not allow the event"),
            StoreError::Disk => f.write_str("the disk failed"),
            StoreError::NotAStore { at } => write!(
                f,
                "no store of a node: byte {at} is wrong or missing"
            ),
            StoreError::Memory => f.write_str("out of memory"),
        }
    }
}
