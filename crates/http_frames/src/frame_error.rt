//! Why bytes are no message.
ghost use Rattle.std.specs.Prelude.{◌≡◌};
ghost use Rattle.http_frames.specs.declared.frame_error.FrameError.TheVariants.{Memory};

use std::alloc::{AllocError, AllocFailed};
use std::fmt;

/// Why bytes were not read as a message. Places count bytes from the front of the message.
#[derive(Clone, Copy, Debug, PartialEq, Eq)]
pub enum FrameError {
    /// No continuation makes a head of at most 64 header lines.
    Head,

    /// The first 16,384 bytes hold no whole head.
    HeadTooLong,

    /// A transfer coding other than one `chunked`, or a content coding other than `identity`.
    Coding,

    /// A Content-Length beside a Transfer-Encoding, twice, or not 1 to 10 digits.
    Length,

    /// A PUT or a POST that does not say how long its body is.
    NoLength,

    /// The body goes past its limit.
    BodyTooLong,

    /// The chunk line, or the line end after a chunk, that begins at `at` is wrong.
    Chunk { at: u64 },

    /// The bytes end inside the message, after `at` bytes.
    Torn { at: u64 },

    Memory,
}

impl From<AllocError> for FrameError {
    ghost from_gives = { λ _ e. e ≡ Memory };

    fn from(_: AllocError) -> Self {
        FrameError::Memory
    }
}

impl<T: Drop> From<AllocFailed<T>> for FrameError {
    ghost from_gives = { λ _ e. e ≡ Memory };

    fn from(_: AllocFailed<T>) -> Self {
        FrameError::Memory
    }
}

impl fmt::Display for FrameError {
    fn fmt<W: fmt::Write>(&self, f: &mut fmt::Formatter<W>) -> fmt::Result {
        match self {
            FrameError::Head => f.write_str("no head of a message"),
            FrameError::HeadTooLong => f.write_str("the head is too long"),
            FrameError::Coding => f.write_str("a coding that is not known"),
            FrameError::Length => f.write_str("a Content-Length that cannot stand"),
            FrameError::NoLength => f.write_str("the length of the body is missing"),
            FrameError::BodyTooLong => f.write_str("the body is too long"),
            FrameError::Chunk { at } => write!(f, "a wrong chunk at byte {at}"),
            FrameError::Torn { at } => write!(f, "torn after byte {at}"),
            FrameError::Memory => f.write_str("out of memory"),
        }
    }
}
