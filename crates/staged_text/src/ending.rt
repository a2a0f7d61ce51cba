//! How the program ends.
ghost use Rattle.std.specs.Prelude.{◌≡◌};
ghost use Rattle.staged_text.specs.Endings.{number_of};
ghost use Rattle.staged_text.specs.declared.ending.Unshown.TheVariants.{Memory};

use std::alloc::{AllocError, AllocFailed};

/// Why the text of a stage is not to be had.
#[derive(Clone, Copy, Debug, PartialEq, Eq)]
pub enum Unshown {
    /// A call of the disk failed.
    DiskFault,

    /// The disk holds no store of a node: the first byte at which that shows.
    NotAStore { at: u64 },

    /// The node has nothing at the stage.
    Empty,
    Memory,
}

impl From<AllocError> for Unshown {
    ghost from_gives = { λ _ e. e ≡ Memory };

    fn from(_: AllocError) -> Self {
        Unshown::Memory
    }
}

impl From<mof_values::Memory> for Unshown {
    ghost from_gives = { λ _ e. e ≡ Memory };

    fn from(_: mof_values::Memory) -> Self {
        Unshown::Memory
    }
}

/// How the program ends.
#[derive(Clone, Copy, Debug, PartialEq, Eq)]
pub enum Ending {
    /// The text was printed.
    Done,

    /// The arguments are not a store and a stage.
    Usage,

    /// Printing the text failed.
    WriteFault,

    /// There is no text, and the line that says why was printed.
    Unshown(Unshown),
}

impl Ending {
    /// The number with which the program ends.
    pub fn number(&self) -> u8
        ensures { result ≡ number_of self.now }
    {
        match self {
            Ending::Done => 0,
            Ending::Usage => 2,
            Ending::WriteFault | Ending::Unshown(Unshown::DiskFault) => 4,
            Ending::Unshown(Unshown::NotAStore { .. }) => 5,
            Ending::Unshown(Unshown::Empty) => 7,
            Ending::Unshown(Unshown::Memory) => 8,
        }
    }
}
