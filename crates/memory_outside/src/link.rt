//! A link in memory.
ghost use Rattle.std.specs.Prelude.{◌≡◌, ◌<◌, ◌≤◌, ◌||◌, not, true, ◌++◌, ◌∷◌, [], Some, Ok, IfOk, OnOk, OnErr, drop, false, vec_len, vec_capacity};
ghost use Rattle.dsc_outside.specs.Causes.{HasCauseOf};
ghost use Rattle.dsc_outside.specs.Link.{AddsExchange, LeavesAnswer};
ghost use Rattle.dsc_terms.specs.Counts.{Rose};
ghost use Rattle.memory_outside.specs.Memory.{is_to_fail};
ghost use Rattle.memory_outside.specs.MemoryLink.{Appends, Exchanges, MayBecome, answered, counted_with, first_outcome, has_answer, next_exchange, next_outcome, result_of, unasked};

use crate::calls::Calls;
use dsc_outside::{ANSWER_LIMIT, Exchange, ExchangeOutcome, Link, LinkError, Peer};
use mof_values::Bytes;
use std::alloc::{AllocError, Global};
use std::marker::Model;

/// A link that gives these answers, one for each request, whatever is asked, and fails once none is left.
#[derive(Drop)]
pub struct MemoryLink {
    answers: Vec<Bytes>,
    at: usize,
    exchanges: Vec<Exchange>,
    calls: Calls,
}

impl Model for MemoryLink {
    ghost use Rattle.std.specs.Prelude.{drop};
    ghost use Rattle.memory_outside.specs.MemoryLink.{LinkInMemory};

    ghost Value = { LinkInMemory };

    ghost view = { λ l. record { answers = drop l.at l.answers.items; exchanges = l.exchanges.items; calls = l.calls } };
}

impl MemoryLink {
    /// A link of these answers, whose calls of these numbers, counted from 0, are to fail; each takes its answer all
    /// the same.
    pub fn new(answers: Vec<Bytes>, failing: Vec<u64>) -> MemoryLink
        ensures { result ≡ unasked answers.items failing.items }
    {
        let alloc = *answers.allocator();
        MemoryLink {
            answers,
            at: 0,
            exchanges: Vec::new(alloc),
            calls: Calls::new(failing),
        }
    }

    /// The exchanges so far, in order.
    pub fn exchanges(&self) -> &[Exchange]
        ensures { result.now ≡ self.now.exchanges }
    {
        &self.exchanges
    }

    /// Answers whether a call ran out of memory. None does: it answers `Memory`.
    pub fn short(&self) -> bool
        ensures { result ≡ false }
    {
        false
    }

    // The exchange that a request is.
    fn next_exchange(
        &self,
        alloc: Global,
        to: &Peer,
        request: &[u8],
    ) -> Result<Exchange, AllocError>
        ensures { IfOk result (λ exchange.
            exchange ≡ next_exchange self.now to.now request.now) }
    {
        let outcome = self.next_outcome(alloc)?;
        Ok(Exchange {
            peer: copy_of_peer(to)?,
            request: Bytes::of(request.to_vec(alloc)?),
            outcome,
        })
    }

    fn next_outcome(&self, alloc: Global) -> Result<ExchangeOutcome, AllocError>
        ensures { IfOk result (λ outcome. outcome ≡ next_outcome self.now) }
    {
        if self.calls.is_to_fail() {
            return Ok(ExchangeOutcome::Failed);
        }
        match self.answers.get(self.at) {
            Some(answer) => outcome_of(alloc, answer.as_slice()),
            None => Ok(ExchangeOutcome::Failed),
        }
    }

    // Takes the first answer, if one is left, and answers whether one was.
    fn take_answer(&mut self) -> bool
        ensures has { result ≡ has_answer self.old.answers }
        ensures rest { self.new ≡ record {
          answers = drop 1 self.old.answers;
          exchanges = self.old.exchanges;
          calls = self.old.calls;
        } }
    {
        match self.answers.get(self.at) {
            Some(_) => {
                self.at += 1;
                true
            }
            None => false,
        }
    }
}

impl Link for MemoryLink {
    ghost use Rattle.memory_outside.specs.MemoryLinks.{link_becomes_on, link_stays};

    ghost shown = { λ l. Some l.exchanges };

    ghost faults = { λ l. l.calls.faults };

    /// Its exchanges are only added, and its count of faults does not fall.
    ghost may_become = { MayBecome };

    ghost stays = { link_stays };

    ghost becomes_on = { link_becomes_on };

    fn exchange(&mut self, to: &Peer, request: &[u8], answer: &mut Vec<u8>) -> Result<(), LinkError>
        ensures answer { LeavesAnswer result answer.old.items answer.new.items }
        ensures shown { AddsExchange (Some self.old.exchanges) (Some self.new.exchanges)
            to.now request.now result answer.old.items answer.new.items }
        ensures becomes { MayBecome self.old self.new }
        ensures cause { HasCauseOf LinkError.Failed
            self.old.calls.faults self.new.calls.faults result }

        // Exactly what comes of it.
        ensures exact { Exchanges self.old to.now request.now result
            answer.old.items answer.new.items self.new }
    {
        let exchange = self.next_exchange(*answer.allocator(), to, request)?;
        self.exchanges.reserve(1)?;
        append(answer, &exchange.outcome)?;
        let result = result_of(&exchange.outcome);
        push_within(&mut self.exchanges, exchange);
        let has = self.take_answer();
        count(&mut self.calls, has);
        result
    }
}

fn copy_of_peer(peer: &Peer) -> Result<Peer, AllocError>
    ensures { IfOk result (λ copy. copy ≡ peer.now) }
{
    peer.clone()
}

fn outcome_of(alloc: Global, answer: &[u8]) -> Result<ExchangeOutcome, AllocError>
    ensures { IfOk result (λ outcome. outcome ≡ answered answer.now) }
{
    if answer.len() >= ANSWER_LIMIT {
        return Ok(ExchangeOutcome::TooLong);
    }
    Ok(ExchangeOutcome::Answered(Bytes::of(answer.to_vec(alloc)?)))
}

// Appends what was answered. Without memory the bytes stay.
fn append(answer: &mut Vec<u8>, outcome: &ExchangeOutcome) -> Result<(), AllocError>
    ensures ok { OnOk result (Appends outcome.now answer.old.items answer.new.items) }
    ensures err { OnErr result (answer.new.items ≡ answer.old.items) }
{
    match outcome {
        ExchangeOutcome::Answered(bytes) => answer.extend_from_slice(bytes.as_slice()),
        ExchangeOutcome::Failed => Ok(()),
        ExchangeOutcome::TooLong => Ok(()),
    }
}

fn result_of(outcome: &ExchangeOutcome) -> Result<(), LinkError>
    ensures { result ≡ result_of outcome.now }
{
    match outcome {
        ExchangeOutcome::Answered(_) => Ok(()),
        ExchangeOutcome::Failed => Err(LinkError::Failed),
        ExchangeOutcome::TooLong => Err(LinkError::TooLong),
    }
}

// Counts an exchange, for which there was an answer or not.
fn count(calls: &mut Calls, has: bool)
    ensures count { calls.new ≡ counted_with has calls.old }
    ensures later { calls.old.faults ≤ calls.new.faults }
    ensures cause { (is_to_fail calls.old || not has) ≡ true
        → Rose calls.old.faults calls.new.faults }
{
    if calls.begin().is_ok() && !has {
        calls.add_fault();
    }
}

fn push_within(exchanges: &mut Vec<Exchange>, exchange: Exchange)
    requires { vec_len exchanges.old < vec_capacity exchanges.old }
    ensures { exchanges.new.items ≡ exchanges.old.items ++ exchange ∷ [] }
{
    match exchanges.push(exchange) {
        Ok(()) => {}
        Err(_) => unreachable!(),
    }
}
