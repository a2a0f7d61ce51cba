//! A link that sends requests to other machines and takes their answers.
ghost use Rattle.std.specs.Prelude.{◌≡◌, ℕ, List, Option};
ghost use Rattle.dsc_outside.specs.Causes.{HasCauseOf};
ghost use Rattle.dsc_outside.specs.Link.{AddsExchange, LeavesAnswer};
ghost use Rattle.dsc_outside.specs.declared.exchange.Exchange.{Exchange};
ghost use Rattle.dsc_outside.specs.declared.link.LinkError.TheVariants.{Memory};

use mof_values::Text;
use std::alloc::{AllocError, AllocFailed};
use std::fmt;

/// An answer has fewer bytes.
pub const ANSWER_LIMIT: usize = 67_108_864;

/// A machine that listens at a port.
#[derive(Clone, Debug, Drop, PartialEq)]
pub struct Peer {
    pub host: Text,
    pub port: u16,
}

/// Why an exchange gave no answer.
#[derive(Clone, Copy, Debug, PartialEq, Eq)]
pub enum LinkError {
    Failed,

    /// `ANSWER_LIMIT` bytes were reached.
    TooLong,

    Memory,
}

impl From<AllocError> for LinkError {
    ghost from_gives = { λ _ e. e ≡ Memory };

    fn from(_: AllocError) -> Self {
        LinkError::Memory
    }
}

impl<T: Drop> From<AllocFailed<T>> for LinkError {
    ghost from_gives = { λ _ e. e ≡ Memory };

    fn from(_: AllocFailed<T>) -> Self {
        LinkError::Memory
    }
}

impl fmt::Display for LinkError {
    fn fmt<W: fmt::Write>(&self, f: &mut fmt::Formatter<W>) -> fmt::Result {
        f.write_str(match self {
            LinkError::Failed => "failed",
            LinkError::TooLong => "the answer is too long",
            LinkError::Memory => "out of memory",
        })
    }
}

pub trait Link {
    /// The exchanges so far, in order, where they are shown.
    ghost shown: { Self → Option (List Exchange) };

    /// How often a call has failed.
    ghost faults: { Self → ℕ };

    /// What a link may become by exchanges: a relation of its value before them and after. A link says by it more than
    /// its exchanges show.
    ghost may_become: { Self → Self → Type 0 };

    /// Sends the request, and appends all bytes that were answered until the connection ended.
    ///
    /// Where it gives no answer, nothing is appended.
    fn exchange(&mut self, to: &Peer, request: &[u8], answer: &mut Vec<u8>) -> Result<(), LinkError>
        ensures answer { LeavesAnswer result answer.old.items answer.new.items }
        ensures shown { AddsExchange (shown self.old) (shown self.new) to.now request.now result
            answer.old.items answer.new.items }
        ensures becomes { may_become self.old self.new }
        ensures cause { HasCauseOf LinkError.Failed (faults self.old) (faults self.new) result };

    /// A link may become itself.
    ghost stays: { (l : Self) → may_become l l };

    /// What a link may become, it may become by way of another.
    ghost becomes_on: { (a b c : Self) → may_become a b → may_become b c → may_become a c };
}
