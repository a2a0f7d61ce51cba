//! Why a message was refused.
ghost use Rattle.std.specs.Prelude.{◌≡◌};
ghost use Rattle.pull_messages.specs.declared.error.MessageError.TheVariants.{Memory as OutOfMemory};

use crate::Field;
use mof_values::Memory;
use std::alloc::{AllocError, AllocFailed};
use std::error::Error;
use std::fmt;

/// Why a body is no message of its kind. Of several fields the first in the order of the message's table is named.
#[derive(Debug, Drop, PartialEq)]
pub enum MessageError {
    /// The body is no JSON value, or one that nests more than 127 deep.
    Json,

    /// A required member is absent or null.
    Missing(Field),

    /// A member has the wrong kind, or its value is none that the table allows.
    Wrong(Field),

    Memory,
}

impl From<AllocError> for MessageError {
    ghost from_gives = { λ _ e. e ≡ OutOfMemory };

    fn from(_: AllocError) -> Self {
        MessageError::Memory
    }
}

impl<T: Drop> From<AllocFailed<T>> for MessageError {
    ghost from_gives = { λ _ e. e ≡ OutOfMemory };

    fn from(_: AllocFailed<T>) -> Self {
        MessageError::Memory
    }
}

impl fmt::Display for MessageError {
    fn fmt<W: fmt::Write>(&self, f: &mut fmt::Formatter<W>) -> fmt::Result {
        match self {
            MessageError::Json => f.write_str("the body is no JSON value"),
            MessageError::Missing(field) => write!(f, "the member {field} is missing"),
            MessageError::Wrong(field) => write!(f, "the value of {field} is wrong"),
            MessageError::Memory => write!(f, "{Memory}"),
        }
    }
}

impl Error for MessageError {}
