//! How large messages may be.

/// The header lines of a head.
pub(crate) const HEADER_LINES: usize = 64;

/// The bytes of a head.
pub(crate) const HEAD_BYTES: usize = 16_384;

/// The most bytes of a body that is read as a message: that of a request, and of the answer that is read as one. Other answers
/// hand over files.
pub const MAX_MESSAGE_BODY: usize = 131_072;

/// The limits of a body.
#[derive(Clone, Copy, Debug)]
pub(crate) struct Limits {
    /// The bytes of the content.
    pub content: u64,

    /// All bytes of a body in chunks.
    pub chunked: u64,
}

/// The limits of a request's body.
pub(crate) const REQUEST_LIMITS: Limits = Limits {
    content: MAX_MESSAGE_BODY as u64,
    chunked: 1_048_576,
};

/// The limits of an answer's body.
pub(crate) const ANSWER_LIMITS: Limits = Limits {
    content: 67_108_864,
    chunked: 67_108_864,
};
