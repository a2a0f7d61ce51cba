//! Why a server did not give what it was asked for.
ghost use Rattle.std.specs.Prelude.{◌≡◌};
ghost use Rattle.pull_client.specs.declared.error.PeerError.TheVariants.{Memory as OutOfMemory};

use http_frames::FrameError;
use mof_values::{Memory, Text};
use pull_messages::MessageError;
use std::alloc::{AllocError, AllocFailed};

/// Why a server did not give what it was asked for, in the order in which the reasons win.
#[derive(Debug, Drop, PartialEq)]
pub enum PeerError {
    /// The server's URL is one of https. Nothing was sent.
    NotServed,

    /// The link failed.
    Link,

    /// The answer reached 67,108,864 bytes; or, once its code was accepted, a content has more than 8,388,608, or the
    /// answer to a query more than 131,072.
    TooLong,

    /// The answer is no message of HTTP.
    Frame(FrameError),

    /// The answer's code is not 200, 201 or 204.
    Status {
        code: u16,
    },

    /// The answer's body is no message of its kind.
    Message(MessageError),

    /// The server says to ask again for this name.
    Retry {
        name: Text,
    },

    /// The answer has no known status for this name, or says that what is held of it is right where nothing is held.
    Uncovered {
        name: Text,
    },

    /// No Checksum header has 64 hexadecimal digits, or a ChecksumAlgorithm header is not `SHA-256`.
    NoChecksum,

    /// The digest of the body is another than was announced.
    Mismatch {
        announced: [u8; 32],
        found: [u8; 32],
    },

    Memory,
}

impl From<AllocError> for PeerError {
    ghost from_gives = { λ _ e. e ≡ OutOfMemory };

    fn from(_: AllocError) -> Self {
        PeerError::Memory
    }
}

impl<T: Drop> From<AllocFailed<T>> for PeerError {
    ghost from_gives = { λ _ e. e ≡ OutOfMemory };

    fn from(_: AllocFailed<T>) -> Self {
        PeerError::Memory
    }
}

impl From<Memory> for PeerError {
    ghost from_gives = { λ _ e. e ≡ OutOfMemory };

    fn from(_: Memory) -> Self {
        PeerError::Memory
    }
}
