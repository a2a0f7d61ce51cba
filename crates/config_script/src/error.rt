//! Why a script gives a node no document.
ghost use Rattle.std.specs.Prelude.{◌≡◌};
ghost use Rattle.config_script.specs.declared.error.CompileError.TheVariants.{Memory};

use mof_values::Memory;
use partial_merge::MergeError;
use std::alloc::{AllocError, AllocFailed};
use std::fmt;

/// Why a script gives a node no document, in the order in which the reasons win. A line is the number of line feeds
/// before a place.
#[derive(Debug, Drop, PartialEq)]
pub enum CompileError {
    /// It has more than [`MAX_SCRIPT`](crate::MAX_SCRIPT) bytes.
    TooLong,

    /// At byte `at` begins the first sequence that is no character of UTF-8.
    NotText { at: usize },

    /// The text is no script: it goes wrong on this line.
    Shape { line: usize },

    /// The first kind that is not known.
    UnknownKind { line: usize },

    /// The first property with a name that a script may not give.
    Reserved { line: usize },

    /// No block names the node.
    NoNode,

    /// The node's document is refused; places are those of its text, not of the script.
    Merge(MergeError),

    Memory,
}

impl From<AllocError> for CompileError {
    ghost from_gives = { λ _ e. e ≡ Memory };

    fn from(_: AllocError) -> Self {
        CompileError::Memory
    }
}

impl<T: Drop> From<AllocFailed<T>> for CompileError {
    ghost from_gives = { λ _ e. e ≡ Memory };

    fn from(_: AllocFailed<T>) -> Self {
        CompileError::Memory
    }
}

impl From<Memory> for CompileError {
    ghost from_gives = { λ _ e. e ≡ Memory };

    fn from(_: Memory) -> Self {
        CompileError::Memory
    }
}

impl fmt::Display for CompileError {
    fn fmt<W: fmt::Write>(&self, f: &mut fmt::Formatter<W>) -> fmt::Result {
        match self {
            CompileError::TooLong => f.write_str("the script is too long"),
            CompileError::NotText { at } => write!(f, "no character at byte {at}"),
            CompileError::Shape { line } => write!(f, "no script from line {line} on"),
            CompileError::UnknownKind { line } => write!(f, "an unknown kind on line {line}"),
            CompileError::Reserved { line } => write!(f, "a reserved property on line {line}"),
            CompileError::NoNode => f.write_str("no block names the node"),
            CompileError::Merge(error) => write!(f, "{error}"),
            CompileError::Memory => write!(f, "{Memory}"),
        }
    }
}
