//! What takes the bodies of a store, one after the other.
ghost use Rattle.std.specs.Prelude.{◌≡◌, List, ℕ};
ghost use Rattle.gate_log.specs.Replay.{Taken};

use std::alloc::{AllocError, AllocFailed};

/// Why a body was not taken.
#[derive(Clone, Copy, Debug, PartialEq, Eq)]
pub enum TakeError {
    /// The store is none with this body.
    Refused,

    Memory,
}

impl From<AllocError> for TakeError {
    ghost use Rattle.gate_log.specs.declared.replay.TakeError.TheVariants.{Memory};
    ghost use Rattle.std.specs.Prelude.{◌≡◌};

    ghost from_gives = { λ _ e. e ≡ Memory };

    fn from(_: AllocError) -> Self {
        TakeError::Memory
    }
}

impl<T: Drop> From<AllocFailed<T>> for TakeError {
    ghost use Rattle.gate_log.specs.declared.replay.TakeError.TheVariants.{Memory};
    ghost use Rattle.std.specs.Prelude.{◌≡◌};

    ghost from_gives = { λ _ e. e ≡ Memory };

    fn from(_: AllocFailed<T>) -> Self {
        TakeError::Memory
    }
}

/// What takes the bodies of a store while it is opened, one after the other.
///
/// The facts speak of the bodies taken so far, so a layer above states both over its own values: that a value is the one
/// after these bodies, and that a body has no meaning after these bodies.
pub trait Replay {
    /// These bodies were taken, in this order, and no other.
    ghost took: { Self → List (List ℕ) → Type 0 };

    /// These bodies were taken, in this order, and then this one was refused.
    ghost refused: { Self → List (List ℕ) → List ℕ → Type 0 };

    /// Takes the next body. After an error no call follows.
    fn take(&mut self, body: &[u8]) -> Result<(), TakeError>
        requires so_far { (bodies : List (List ℕ)) × took self.old bodies }
        ensures { (bodies : List (List ℕ)) → took self.old bodies
            → Taken (took self.new) (refused self.new) bodies body.now result };
}
