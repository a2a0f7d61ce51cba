//! Serving of one connection: a request is read, answered, and its answer written.
ghost use Rattle.std.specs.Prelude.{◌≡◌, ◌≤◌, ◌&&◌, not, if◌then◌else◌};
ghost use Rattle.pull_outside.specs.Door.{known_of};
ghost use Rattle.pull_store.specs.Store.{IsReady, is_spent};
ghost use Rattle.pull_serving.specs.Parting.{parting_of};
ghost use Rattle.pull_serving.specs.Sent.{IsSentEnd};
ghost use Rattle.pull_serving.specs.Turn.{IsServed, state};

use crate::answerer::Answerer;
use dsc_outside::{Disk, Sink, Source};
use http_frames::Reply;
use mof_values::Memory;
use pull_exchange::{Received, SendEnd, receive, refusal, send_reply};
use pull_outside::{Parting, Shelf};
use std::alloc::Global;

/// How serving a connection ended.
#[derive(Clone, Copy, Debug, PartialEq, Eq)]
pub enum ConnectionEnd {
    /// The answer, with this code, was written whole.
    Answered { code: u16 },

    /// The disk failed while the request was answered: 500 was written, or a part of it where the connection failed too.
    DiskFault,

    /// The connection ended after that many bytes, inside a request; nothing was written.
    Torn { at: u64 },

    /// Nothing was written.
    ReadFault,

    /// A part of the answer was written.
    WriteFault,

    /// Nothing was written; a change that the request asked for may have been made.
    Memory,
}

impl ConnectionEnd {
    /// How the connection is to end: at once where a request was read whole and its answer says that it was done. Any other
    /// answer may come before the end of what the peer sends. Bytes after the request get no answer, and where they are still
    /// on their way at the end, the peer may find the connection reset before it has read the whole answer.
    pub fn parting(self) -> Parting
        ensures { result ≡ parting_of self }
    {
        match self {
            ConnectionEnd::Answered { code: 200 | 204 } => Parting::AtOnce,
            _ => Parting::AfterPeer,
        }
    }
}

/// Reads one request, has it answered, and writes the answer.
///
/// What is no request leaves store, disk and shelf as they were. A crash at any moment leaves the rows before the request, or those
/// after the change that the table makes.
pub fn serve_connection<A: Answerer, X: Source + Sink, D: Disk, S: Shelf>(
    alloc: Global,
    conn: &mut X,
    service: &mut A,
    disk: &mut D,
    shelf: &mut S,
) -> ConnectionEnd
    requires { IsReady D.Disk disk.old (A.store service.old) }
    ensures ready { IsReady D.Disk disk.new (A.store service.new) }
    ensures served { IsServed A.replies D.Disk disk.old disk.new (S.holds shelf.old)
        (known_of X.Ends conn.old) (known_of X.Ends conn.new)
        (state D.Disk disk.old (A.store service.old) (S.faults shelf.old))
        (state D.Disk disk.new (A.store service.new) (S.faults shelf.new)) result }
    ensures shelf { S.holds shelf.new ≡ S.holds shelf.old }
    ensures shelf_count { S.faults shelf.old ≤ S.faults shelf.new }
    ensures count { D.faults disk.old ≤ D.faults disk.new }
    ensures conn_count { X.faults conn.old ≤ X.faults conn.new }
{
    match receive(alloc, conn) {
        Received::Request(request) => {
            let was_spent = service.is_spent();
            match service.answer(alloc, disk, shelf, &request) {
                Ok(reply) => send(alloc, conn, &reply, is_newly_spent(was_spent, service)),
                Err(Memory) => ConnectionEnd::Memory,
            }
        }
        Received::Refused(error) => match refusal(alloc, &error) {
            Ok(reply) => send(alloc, conn, &reply, false),
            Err(Memory) => ConnectionEnd::Memory,
        },
        Received::Torn { at } => ConnectionEnd::Torn { at },
        Received::ReadFault => ConnectionEnd::ReadFault,
        Received::Memory => ConnectionEnd::Memory,
    }
}

fn is_newly_spent<A: Answerer>(was_spent: bool, service: &A) -> bool
    ensures { result ≡ (not was_spent && is_spent (A.store service.now)) }
{
    !was_spent && service.is_spent()
}

// Writes the reply, in whose making the disk failed or did not.
fn send<X: Sink>(alloc: Global, conn: &mut X, reply: &Reply, broken: bool) -> ConnectionEnd
    ensures sent { IsSentEnd (X.held conn.old) (X.held conn.new) reply.now
        (X.faults conn.old) (X.faults conn.new) broken result }
    ensures count { X.faults conn.old ≤ X.faults conn.new }
{
    match send_reply(alloc, conn, reply) {
        SendEnd::Memory => ConnectionEnd::Memory,
        SendEnd::Sent => sent_end(reply.code, broken),
        SendEnd::WriteFault => cut_end(broken),
    }
}

fn sent_end(code: u16, broken: bool) -> ConnectionEnd
    ensures { result ≡ (if broken then ConnectionEnd.DiskFault else ConnectionEnd.Answered code) }
{
    if broken {
        ConnectionEnd::DiskFault
    } else {
        ConnectionEnd::Answered { code }
    }
}

fn cut_end(broken: bool) -> ConnectionEnd
    ensures { result ≡ (if broken then ConnectionEnd.DiskFault else ConnectionEnd.WriteFault) }
{
    if broken {
        ConnectionEnd::DiskFault
    } else {
        ConnectionEnd::WriteFault
    }
}
