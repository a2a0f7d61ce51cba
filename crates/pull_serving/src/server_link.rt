//! A pull server in memory, as a link that a node's calls are rehearsed over.
ghost use Rattle.std.specs.Prelude.{◌≡◌, ◌<◌, ◌++◌, ◌∷◌, [], Some, Ok, IfOk, OnOk, IsTrue, vec_len, vec_capacity};
ghost use Rattle.dsc_outside.specs.Causes.{HasCauseOf};
ghost use Rattle.dsc_outside.specs.Link.{AddsExchange, ComesTo, LeavesAnswer};
ghost use Rattle.pull_store.specs.Store.{IsReady};
ghost use Rattle.pull_serving.specs.ServerLink.{Becomes, IsOutcomeOf, TookAll};

use crate::connection::{ConnectionEnd, serve_connection};
use dsc_outside::{ANSWER_LIMIT, Disk, Exchange, ExchangeOutcome, Link, LinkError, Peer};
use mof_values::{Bytes, Memory};
use pull_outside::{MemoryConn, Shelf};
use pull_store::PullStore;
use std::alloc::{AllocError, Global};
use std::marker::Model;

/// A link to a pull server, whoever the peer is: it owns the store of the server, the disk that the store is of, and the shelf.
///
/// It keeps its exchanges. None answers `Failed`: out of memory it answers `Memory`, and shows the exchange without an answer, or
/// has not begun it.
#[derive(Drop)]
pub struct ServerLink<D: Disk, F: Shelf> {
    store: PullStore,
    disk: D,
    shelf: F,
    exchanges: Vec<Exchange>,
}

impl<D: Disk, F: Shelf> Model for ServerLink<D, F> {
    ghost use Rattle.pull_store.specs.Store.{IsReady};
    ghost use Rattle.pull_serving.specs.ServerLink.{ServerInMemory};

    ghost Value = { ServerInMemory D F };

    ghost view = { λ l. record { store = l.store; disk = l.disk; shelf = l.shelf; exchanges = l.exchanges.items } };

    ghost invariant = { λ l. IsReady D.Disk l.disk l.store };
}

impl<D: Disk, F: Shelf> ServerLink<D, F> {
    /// A link without exchanges, over a store that is of the disk, or spent.
    pub fn new(alloc: Global, store: PullStore, disk: D, shelf: F) -> ServerLink<D, F>
        requires { IsReady D.Disk disk store }
        ensures { result ≡ record { store = store; disk = disk; shelf = shelf; exchanges = [] } }
    {
        ServerLink {
            store,
            disk,
            shelf,
            exchanges: Vec::new(alloc),
        }
    }

    /// The exchanges so far, in order.
    pub fn exchanges(&self) -> &[Exchange]
        ensures { result.now ≡ self.now.exchanges }
    {
        &self.exchanges
    }
}

impl<D: Disk + Drop, F: Shelf + Drop> ServerLink<D, F> {
    /// The store, its disk and the shelf, so that a shelf can change between two links. The store is of the disk, or spent.
    pub fn into_parts(self) -> (PullStore, D, F)
        ensures parts { result ≡ (self.store, self.disk, self.shelf) }
        ensures ready { IsReady D.Disk result.1 result.0 }
    {
        (self.store, self.disk, self.shelf)
    }
}

impl<D: Disk, F: Shelf> Link for ServerLink<D, F> {
    ghost use Rattle.pull_serving.specs.ServerLinks.{server_becomes_on, server_stays};

    ghost shown = { λ l. Some l.exchanges };

    ghost faults = { λ l. 0 };

    /// The shelf holds the same, exchanges are added, each answered by the table over the rows that the one before it left, and
    /// no count of faults fell.
    ghost may_become = { Becomes D.Disk F.Shelf };

    ghost stays = { server_stays _ _ };

    ghost becomes_on = { server_becomes_on _ _ };

    fn exchange(&mut self, to: &Peer, request: &[u8], answer: &mut Vec<u8>) -> Result<(), LinkError>
        ensures answer { LeavesAnswer result answer.old.items answer.new.items }
        ensures shown { AddsExchange (Some self.old.exchanges) (Some self.new.exchanges)
            to.now request.now result answer.old.items answer.new.items }
        ensures becomes { Becomes D.Disk F.Shelf self.old self.new }
        ensures cause { HasCauseOf LinkError.Failed 0 0 result }
    {
        let alloc = *answer.allocator();
        let ready = match make_ready(alloc, &mut self.exchanges, to, request) {
            Ok(ready) => ready,
            Err(AllocError) => return Err(LinkError::Memory),
        };
        let mut conn = ready.conn;
        let end = serve_connection(
            alloc,
            &mut conn,
            &mut self.store,
            &mut self.disk,
            &mut self.shelf,
        );
        let given = give(answer, taken(alloc, end, &conn));
        let exchange = Exchange {
            peer: ready.peer,
            request: ready.request,
            outcome: given.0,
        };
        push_within(&mut self.exchanges, exchange);
        given.1
    }
}

// What an exchange has before anything is done: the peer and the request to show, and a connection on which the request comes.
#[derive(Drop)]
struct Ready {
    peer: Peer,
    request: Bytes,
    conn: MemoryConn,
}

// Makes an exchange ready, with capacity for it among the exchanges.
fn make_ready(
    alloc: Global,
    exchanges: &mut Vec<Exchange>,
    to: &Peer,
    request: &[u8],
) -> Result<Ready, AllocError>
    ensures peer { IfOk result (λ ready. ready.peer ≡ to.now) }
    ensures request { IfOk result (λ ready. ready.request ≡ request.now) }
    ensures left { IfOk result (λ ready. ready.conn.left ≡ request.now) }
    ensures held { IfOk result (λ ready. ready.conn.held ≡ []) }
    ensures capacity { OnOk result (vec_len exchanges.new < vec_capacity exchanges.new) }
    ensures same { exchanges.new.items ≡ exchanges.old.items }
{
    let peer = to.clone()?;
    let shown = request.to_vec(alloc)?;
    let conn = connection(alloc, request)?;
    exchanges.reserve(1)?;
    Ok(Ready {
        peer,
        request: Bytes::of(shown),
        conn,
    })
}

fn connection(alloc: Global, request: &[u8]) -> Result<MemoryConn, AllocError>
    ensures left { IfOk result (λ conn. conn.left ≡ request.now) }
    ensures held { IfOk result (λ conn. conn.held ≡ []) }
{
    let bytes = request.to_vec(alloc)?;
    Ok(MemoryConn::new(alloc, bytes, usize::MAX, Vec::new(alloc)))
}

// All that was written to a connection that ended so.
fn taken(alloc: Global, end: ConnectionEnd, conn: &MemoryConn) -> Result<Bytes, Memory>
    ensures { IfOk result (λ bytes. TookAll end conn.now.calls.faults × (bytes ≡ conn.now.held)) }
{
    Ok(Bytes::of(whole(end, conn)?.to_vec(alloc)?))
}

// What was written, where it is all; a connection in memory fails only where it is short of memory.
fn whole(end: ConnectionEnd, conn: &MemoryConn) -> Result<&[u8], Memory>
    ensures { IfOk result (λ bytes. TookAll end conn.now.calls.faults × (bytes.now ≡ conn.now.held)) }
{
    if end == ConnectionEnd::Memory || conn.failed() {
        return Err(Memory);
    }
    Ok(conn.taken())
}

// What comes of the exchange, and what is answered: these bytes are appended, unless they are too many or it runs out of memory.
fn give(
    answer: &mut Vec<u8>,
    bytes: Result<Bytes, Memory>,
) -> (ExchangeOutcome, Result<(), LinkError>)
    ensures outcome { IsOutcomeOf bytes result.0 }
    ensures comes { ComesTo result.1 answer.old.items answer.new.items result.0 }
    ensures leaves { LeavesAnswer result.1 answer.old.items answer.new.items }
    ensures cause { HasCauseOf LinkError.Failed 0 0 result.1 }
{
    match bytes {
        Ok(bytes) => give_bytes(answer, bytes),
        Err(Memory) => (ExchangeOutcome::Failed, Err(LinkError::Memory)),
    }
}

fn give_bytes(answer: &mut Vec<u8>, bytes: Bytes) -> (ExchangeOutcome, Result<(), LinkError>)
    ensures outcome { IsOutcomeOf (Ok bytes) result.0 }
    ensures comes { ComesTo result.1 answer.old.items answer.new.items result.0 }
    ensures leaves { LeavesAnswer result.1 answer.old.items answer.new.items }
    ensures cause { HasCauseOf LinkError.Failed 0 0 result.1 }
{
    if bytes.as_slice().len() >= ANSWER_LIMIT {
        return (ExchangeOutcome::TooLong, Err(LinkError::TooLong));
    }
    match answer.extend_from_slice(bytes.as_slice()) {
        Ok(()) => (ExchangeOutcome::Answered(bytes), Ok(())),
        Err(AllocError) => (ExchangeOutcome::Failed, Err(LinkError::Memory)),
    }
}

fn push_within(exchanges: &mut Vec<Exchange>, exchange: Exchange)
    requires { vec_len exchanges.old < vec_capacity exchanges.old }
    ensures { exchanges.new.items ≡ exchanges.old.items ++ exchange ∷ [] }
{
    match exchanges.push(exchange) {
        Ok(()) => {}
        Err(_) => unreachable!(),
    }
}
