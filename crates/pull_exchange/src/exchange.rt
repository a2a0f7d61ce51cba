//! Reading of one request from a connection, and writing of one reply.
ghost use Rattle.std.specs.Prelude.{◌≡◌, ◌≤◌, ◌++◌, IfOk, IfSome, codes};
ghost use Rattle.std.specs.Fmt.{decimal};
ghost use Rattle.http_frames.specs.Replies.{saying};
ghost use Rattle.http_frames.specs.Writing.{answer_text};
ghost use Rattle.pull_exchange.specs.Exchange.{IsReadCause, IsReceived, IsRefusal, IsSent, IsSized, refusal_of, received_of};

use crate::streams::write_both;
use dsc_outside::{Failed, Sink, Source, write_all};
use http_frames::{FrameError, Reply, Request, RequestReader, write_answer, write_answer_head};
use mof_values::Memory;
use std::alloc::Global;

/// What a connection gave.
#[derive(Drop)]
pub enum Received {
    Request(Request),

    /// The bytes are no request.
    Refused(FrameError),

    /// The connection ended after `at` bytes, inside a request.
    Torn { at: u64 },

    ReadFault,
    Memory,
}

/// How the writing of a reply ended.
#[derive(Clone, Copy, Debug, PartialEq, Eq)]
pub enum SendEnd {
    Sent,

    /// A part of the answer was written.
    WriteFault,

    /// Nothing was written.
    Memory,
}

/// Reads one request, however its bytes are cut into pieces. Bytes after it do not count.
pub fn receive<X: Source>(alloc: Global, conn: &mut X) -> Received
    ensures received { IfSome (X.left conn.old) (λ all. IsReceived all result) }
    ensures sized { IsSized result }
    ensures cause { IsReadCause (X.faults conn.old) (X.faults conn.new) result }
    ensures held { X.held conn.new ≡ X.held conn.old }
    ensures count { X.faults conn.old ≤ X.faults conn.new }
{
    let mut reader = RequestReader::new(alloc);
    let mut buffer = [0u8; 8192];
    let mut length = 0;
    loop {
        let count = match conn.read(&mut buffer) {
            Err(Failed) => return Received::ReadFault,
            Ok(0) => return Received::Torn { at: length },
            Ok(count) => count,
        };
        match reader.feed(&buffer[..count]) {
            Ok(Some(request)) => return Received::Request(request),
            Ok(None) => length += count as u64,
            Err(error) => return received_of(error),
        }
    }
}

// Out of memory, the reader has not judged the bytes.
fn received_of(error: FrameError) -> Received
    ensures { result ≡ received_of error }
{
    match error {
        FrameError::Memory => Received::Memory,
        other => Received::Refused(other),
    }
}

/// The reply to bytes that are no request.
pub fn refusal(alloc: Global, error: &FrameError) -> Result<Reply, Memory>
    requires { IsRefusal error.now }
    ensures { IfOk result (λ reply. reply ≡ refusal_of error.now) }
{
    match error {
        FrameError::Head | FrameError::HeadTooLong => Reply::saying(alloc, 400, b"head"),
        FrameError::Coding => Reply::saying(alloc, 501, b""),
        FrameError::Length => Reply::saying(alloc, 400, b"length"),
        FrameError::NoLength => Reply::saying(alloc, 411, b""),
        FrameError::BodyTooLong => Reply::saying(alloc, 413, b""),
        FrameError::Chunk { at } => bad_chunk(alloc, *at),
        FrameError::Torn { .. } | FrameError::Memory => unreachable!(),
    }
}

// That the chunk at this place is wrong.
fn bad_chunk(alloc: Global, at: u64) -> Result<Reply, Memory>
    ensures { IfOk result (λ reply. reply ≡ saying 400 (codes "chunk " ++ decimal at)) }
{
    let text = format!(in alloc; "chunk {at}")?;
    Reply::saying(alloc, 400, text.as_bytes())
}

/// Writes a reply. A body of more than 64 KiB is written from where it lies, after the head.
pub fn send_reply<X: Sink>(alloc: Global, conn: &mut X, reply: &Reply) -> SendEnd
    ensures sent { IsSent (X.held conn.old) (X.held conn.new) (answer_text reply.now)
        (X.faults conn.old) (X.faults conn.new) result }
    ensures left { X.left conn.new ≡ X.left conn.old }
    ensures count { X.faults conn.old ≤ X.faults conn.new }
{
    if reply.body.as_slice().len() <= LONGEST_COPY {
        return send_copy(alloc, conn, reply);
    }
    let head = match write_answer_head(alloc, reply) {
        Ok(head) => head,
        Err(Memory) => return SendEnd::Memory,
    };
    match write_both(conn, &head, reply.body.as_slice()) {
        Ok(()) => SendEnd::Sent,
        Err(Failed) => SendEnd::WriteFault,
    }
}

// The bytes of a body that is copied after its head, so that both are one piece.
const LONGEST_COPY: usize = 65_536;

fn send_copy<X: Sink>(alloc: Global, conn: &mut X, reply: &Reply) -> SendEnd
    ensures sent { IsSent (X.held conn.old) (X.held conn.new) (answer_text reply.now)
        (X.faults conn.old) (X.faults conn.new) result }
    ensures left { X.left conn.new ≡ X.left conn.old }
    ensures count { X.faults conn.old ≤ X.faults conn.new }
{
    let text = match write_answer(alloc, reply) {
        Ok(text) => text,
        Err(Memory) => return SendEnd::Memory,
    };
    match write_all(conn, &text) {
        Ok(()) => SendEnd::Sent,
        Err(Failed) => SendEnd::WriteFault,
    }
}
