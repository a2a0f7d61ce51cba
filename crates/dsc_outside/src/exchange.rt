//! What a link shows of an exchange: the request, to whom it was sent, and what came of it.
use crate::Peer;
use mof_values::Bytes;

/// What came of a request.
#[derive(Debug, Drop, PartialEq)]
pub enum ExchangeOutcome {
    /// All bytes that were answered.
    Answered(Bytes),

    Failed,

    /// `ANSWER_LIMIT` bytes were reached.
    TooLong,
}

/// A request, the machine that it was sent to, and what came of it.
#[derive(Debug, Drop, PartialEq)]
pub struct Exchange {
    pub peer: Peer,
    pub request: Bytes,
    pub outcome: ExchangeOutcome,
}
