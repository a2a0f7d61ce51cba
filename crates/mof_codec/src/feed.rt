//! A document that comes in pieces.
ghost use Rattle.std.specs.Prelude.{◌≡◌, ◌≢◌, ◌<◌, ◌↔◌, ◌++◌, [], length, OnOk, OnErr, IfOk, IfErr, IsErrOf};
ghost use Rattle.mof_syntax.specs.Limits.{document_limit};
ghost use Rattle.mof_syntax.specs.Refusals.{Reads, ReadsNothing, Refuses};

use crate::reader::read;
use mof_syntax::{MAX_DOCUMENT, MofError};
use mof_values::Instance;
use std::alloc::{AllocError, Global};
use std::fmt;
use std::marker::Model;

/// The pieces that came, joined: at most [`MAX_DOCUMENT`] bytes.
#[derive(Debug, Drop)]
pub struct Feed {
    bytes: Vec<u8>,
}

impl Model for Feed {
    ghost use Rattle.std.specs.Prelude.{List, ℕ, ◌≤◌, length};
    ghost use Rattle.mof_syntax.specs.Limits.{document_limit};

    ghost Value = { List ℕ };

    ghost view = { λ f. f.bytes.items };

    ghost invariant = { λ f. length f.bytes.items ≤ document_limit };
}

/// Why a piece was not taken.
#[derive(Clone, Copy, Debug, PartialEq, Eq)]
pub enum FeedError {
    /// The pieces would have more bytes than a document may have.
    TooLong,
    Memory,
}

impl From<AllocError> for FeedError {
    ghost use Rattle.std.specs.Prelude.{◌≡◌};
    ghost use Rattle.mof_codec.specs.declared.feed.FeedError.TheVariants.{Memory};

    ghost from_gives = { λ _ e. e ≡ Memory };

    fn from(_: AllocError) -> Self {
        FeedError::Memory
    }
}

impl fmt::Display for FeedError {
    fn fmt<W: fmt::Write>(&self, f: &mut fmt::Formatter<W>) -> fmt::Result {
        match self {
            FeedError::TooLong => write!(f, "the document is longer than {MAX_DOCUMENT} bytes"),
            FeedError::Memory => f.write_str("out of memory"),
        }
    }
}

impl Feed {
    /// No piece; takes no memory.
    pub fn new(alloc: Global) -> Feed
        ensures { result ≡ [] }
    {
        Feed {
            bytes: Vec::new(alloc),
        }
    }

    /// Takes one more piece, or leaves the feed as it was.
    pub fn feed(&mut self, piece: &[u8]) -> Result<(), FeedError>
        ensures ok { OnOk result (self.new ≡ self.old ++ piece.now) }
        ensures too_long { IsErrOf result FeedError.TooLong
            ↔ (document_limit < length (self.old ++ piece.now)) }
        ensures unchanged { OnErr result (self.new ≡ self.old) }
    {
        if piece.len() > MAX_DOCUMENT - self.bytes.len() {
            return Err(FeedError::TooLong);
        }
        self.bytes.extend_from_slice(piece)?;
        Ok(())
    }

    /// What `read` answers for the joined pieces.
    pub fn finish(self) -> Result<Vec<Instance>, MofError>
        ensures ok { IfOk result (λ instances. Reads self instances.items) }
        ensures refused { IfErr result (λ e. Refuses self e) }
        ensures only { IfErr result (λ e. e ≢ MofError.Memory → ReadsNothing self) }
    {
        let alloc = *self.bytes.allocator();
        read(alloc, &self.bytes)
    }
}
