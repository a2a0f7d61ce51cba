//! A shelf of what a server hands out.
ghost use Rattle.std.specs.Prelude.{◌≡◌, ℕ, Option};
ghost use Rattle.sha2.specs.Sha256.{sha256};
ghost use Rattle.dsc_outside.specs.Causes.{HasCauseOf};
ghost use Rattle.pull_outside.specs.Shelf.{Contents, FindsConfiguration, FindsKey, FindsPackage, Leaves};
ghost use Rattle.pull_outside.specs.declared.shelf.ShelfError.TheVariants.{Memory};

use std::alloc::{AllocError, AllocFailed};
use std::fmt;

/// The most bytes of an item of a shelf; a longer one counts as a failure.
pub const LONGEST_ITEM: usize = 62_914_560;

/// Why a shelf did not say whether an item is there.
#[derive(Clone, Copy, Debug, PartialEq, Eq)]
pub enum ShelfError {
    Failed,
    Memory,
}

impl From<AllocError> for ShelfError {
    ghost from_gives = { λ _ e. e ≡ Memory };

    fn from(_: AllocError) -> Self {
        ShelfError::Memory
    }
}

impl<T: Drop> From<AllocFailed<T>> for ShelfError {
    ghost from_gives = { λ _ e. e ≡ Memory };

    fn from(_: AllocFailed<T>) -> Self {
        ShelfError::Memory
    }
}

impl fmt::Display for ShelfError {
    fn fmt<W: fmt::Write>(&self, f: &mut fmt::Formatter<W>) -> fmt::Result {
        f.write_str(match self {
            ShelfError::Failed => "failed",
            ShelfError::Memory => "out of memory",
        })
    }
}

/// What an administrator puts out for agents: configurations by name, packages of modules by name and version, and keys in order.
///
/// A look for an item answers whether it is there, and then appends it. Where it is not there, or the call failed, the buffer
/// stays as it was. An item has at most `LONGEST_ITEM` bytes; one that is longer counts as a failure.
pub trait Shelf {
    /// What stands on the shelf, where it is shown.
    ghost holds: { Self → Option Contents };

    /// How often a call has failed.
    ghost faults: { Self → ℕ };

    /// Looks for the configuration of that name.
    fn configuration(&mut self, name: &str, into: &mut Vec<u8>) -> Result<bool, ShelfError>
        ensures finds { FindsConfiguration name.now (holds self.old) result
            into.old.items into.new.items }
        ensures leaves { Leaves result into.old.items into.new.items }
        ensures same { holds self.new ≡ holds self.old }
        ensures cause { HasCauseOf ShelfError.Failed (faults self.old) (faults self.new) result };

    /// Looks for the package of the module of that name and version.
    fn package(&mut self, name: &str, version: &str, into: &mut Vec<u8>) -> Result<bool, ShelfError>
        ensures finds { FindsPackage name.now version.now (holds self.old) result
            into.old.items into.new.items }
        ensures leaves { Leaves result into.old.items into.new.items }
        ensures same { holds self.new ≡ holds self.old }
        ensures cause { HasCauseOf ShelfError.Failed (faults self.old) (faults self.new) result };

    /// Looks for the key of that index, counted from 0.
    fn key(&mut self, index: u32, into: &mut Vec<u8>) -> Result<bool, ShelfError>
        ensures finds { FindsKey index (holds self.old) result into.old.items into.new.items }
        ensures leaves { Leaves result into.old.items into.new.items }
        ensures same { holds self.new ≡ holds self.old }
        ensures cause { HasCauseOf ShelfError.Failed (faults self.old) (faults self.new) result };

    /// The SHA-256 digest of these bytes (FIPS 180-4), those of an item that was found. It never fails. A shelf may remember
    /// the digest of the item that it was asked for last.
    fn digest(&mut self, item: &[u8]) -> [u8; 32]
        ensures digest { result ≡ sha256 item.now }
        ensures same { holds self.new ≡ holds self.old }
        ensures faults { faults self.new ≡ faults self.old };
}
