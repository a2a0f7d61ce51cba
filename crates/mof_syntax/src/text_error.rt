//! Why bytes are no text.
ghost use Rattle.std.specs.Prelude.{◌≡◌};
ghost use Rattle.mof_syntax.specs.declared.text_error.TextError.TheVariants.{Memory};

use std::alloc::{AllocError, AllocFailed};
use std::fmt;

/// Why bytes were not decoded.
#[derive(Clone, Copy, Debug, PartialEq, Eq)]
pub enum TextError {
    /// At byte `at`, counted from the front of the input with its mark, begins the first sequence that is no character.
    TextFault { at: usize },

    Memory,
}

impl From<AllocError> for TextError {
    ghost from_gives = { λ _ e. e ≡ Memory };

    fn from(_: AllocError) -> Self {
        TextError::Memory
    }
}

impl<T: Drop> From<AllocFailed<T>> for TextError {
    ghost from_gives = { λ _ e. e ≡ Memory };

    fn from(_: AllocFailed<T>) -> Self {
        TextError::Memory
    }
}

impl fmt::Display for TextError {
    fn fmt<W: fmt::Write>(&self, f: &mut fmt::Formatter<W>) -> fmt::Result {
        match self {
            TextError::TextFault { at } => write!(f, "no character at byte {at}"),
            TextError::Memory => f.write_str("out of memory"),
        }
    }
}
