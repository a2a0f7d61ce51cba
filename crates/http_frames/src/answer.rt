//! Reading of an answer from all bytes that came.
ghost use Rattle.std.specs.Prelude.{◌≡◌, ◌≤◌, ◌+◌, length, take, drop, IfOk, IfErr};
ghost use Rattle.http_frames.specs.Frames.{IsAnswerFrame, NoAnswer};
ghost use Rattle.http_frames.specs.Framing.{answer_framing};
ghost use Rattle.http_frames.specs.Answering.{is_interim, IsLastHead, Answers};

use crate::body::{Progress, read_body};
use crate::chunks::Walk;
use crate::framing::{Framing, answer_framing};
use crate::head::{AnswerHead, answer_head};
use crate::limits::ANSWER_LIMITS;
use crate::{FrameError, Reply};
use mof_values::Bytes;
use std::alloc::Global;

/// The answer at the front of the bytes, after the heads of status 100 to 199 (RFC 9110, section 15.2). Bytes after
/// its body are ignored. A body that is not in chunks stays in the memory of the bytes.
///
/// An error is that of the shortest prefix of the bytes that has one, and `Torn` where none has. Places count from the
/// front of the bytes.
pub fn read_answer(alloc: Global, bytes: Vec<u8>) -> Result<Reply, FrameError>
    ensures whole { IfOk result (IsAnswerFrame bytes.items) }
    ensures refused { IfErr result (NoAnswer bytes.items) }
{
    pass_heads(alloc, bytes)
}

// The same, by what was read of the heads and of the body.
fn pass_heads(alloc: Global, bytes: Vec<u8>) -> Result<Reply, FrameError>
    ensures { Answers bytes.items result }
{
    let (head, at) = last_head(alloc, &bytes)?;
    let framing = answer_framing(head.code, head.headers.as_slice())?;
    framed_answer(alloc, bytes, head, at, framing)
}

// The first head after which no other answer follows, and where it begins.
fn last_head(alloc: Global, bytes: &[u8]) -> Result<(AnswerHead, usize), FrameError>
    ensures last { IfOk result (λ last. IsLastHead bytes.now (drop last.1 bytes.now) last.0) }
    ensures fits { IfOk result (λ last. last.1 ≤ length bytes.now) }
    ensures refused { IfErr result (λ e. Answers bytes.now (Err e)) }
{
    let mut at = 0;
    'heads: loop {
        match answer_head(alloc, bytes.split_at(at).1)? {
            Some(head) => {
                if !is_interim(head.code) {
                    return Ok((head, at));
                }
                at += head.length;
            }
            None => return Err(torn(bytes)),
        }
    }
}

// Another answer follows.
fn is_interim(code: u16) -> bool
    ensures { result ≡ is_interim code }
{
    100 <= code && code < 200
}

// The answer whose head begins at that place.
fn framed_answer(
    alloc: Global,
    bytes: Vec<u8>,
    head: AnswerHead,
    at: usize,
    framing: Framing,
) -> Result<Reply, FrameError>
    requires fits { at ≤ length bytes.items }
    requires last { IsLastHead bytes.items (drop at bytes.items) head }
    requires says { answer_framing head.code head.headers ≡ Ok framing }
    ensures { Answers bytes.items result }
{
    let (_, rest) = bytes.split_at(at);
    let (_, body) = rest.split_at(head.length);
    let front = bytes.len() - body.len();
    match read_body(
        alloc,
        &ANSWER_LIMITS,
        front as u64,
        framing,
        Walk::new(),
        body,
    )? {
        Progress::Front(count) => Ok(reply(head, cut(bytes, front, count))),
        Progress::Joined(content) => Ok(reply(head, content)),
        Progress::More(_) => Err(torn(&bytes)),
    }
}

// That many bytes from that place on.
fn cut(mut bytes: Vec<u8>, front: usize, count: usize) -> Vec<u8>
    requires { front + count ≤ length bytes.items }
    ensures { result.items ≡ take count (drop front bytes.items) }
{
    bytes.copy_within(front..front + count, 0);
    bytes.truncate(count);
    bytes
}

fn reply(head: AnswerHead, content: Vec<u8>) -> Reply
    ensures code { result.code ≡ head.code }
    ensures headers { result.headers ≡ head.headers }
    ensures body { result.body ≡ content.items }
{
    Reply {
        code: head.code,
        headers: head.headers,
        body: Bytes::of(content),
    }
}

fn torn(bytes: &[u8]) -> FrameError
    ensures { result ≡ FrameError.Torn (length bytes.now) }
{
    FrameError::Torn {
        at: bytes.len() as u64,
    }
}
