//! The formats of a bank.

/// Of which format a bank is.
#[derive(Clone, Copy, Debug)]
pub enum Format {
    /// Format 1: a body has the bytes of its parts in full.
    InFull,

    /// Format 2: a body has the digests of its parts, whose bytes stand in Blobs before it.
    ByDigests,
}
