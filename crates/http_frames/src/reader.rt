//! Reading of a request from the pieces in which its bytes come.
ghost use Rattle.std.specs.Prelude.{◌≡◌, ◌≢◌, ◌⊎◌, ◌<◌, ◌≤◌, ◌++◌, ℕ, [], true, IfOk, IfSome, IfNone, IfErr, length};
ghost use Rattle.http_frames.specs.Heads.{IsRequestHeadOf};
ghost use Rattle.http_frames.specs.HeadWalks.{IsWalkedHead};
ghost use Rattle.http_frames.specs.Limits.{request_bytes, request_limits};
ghost use Rattle.http_frames.specs.Frames.{BeginsWithRequest, AwaitsRest, RefusesRequest};
ghost use Rattle.http_frames.specs.Reading.{IsStarted, IsStageOf, IsAdvance, IsStart, IsReadRequest, AwaitsMore, Refuses, is_open_stage};

use crate::body::{Progress, read_body};
use crate::chunks::Walk;
use crate::framing::{Framing, request_framing};
use crate::head::RequestHead;
use crate::head_walk::{HeadRead, HeadWalk, read_head};
use crate::limits::REQUEST_LIMITS;
use crate::{FrameError, Request};
use mof_values::Bytes;
use std::alloc::{AllocError, Global};
use std::marker::Model;
use std::mem;

/// Reads one request out of the pieces in which its bytes come.
///
/// Callers see the bytes that were fed, and whether the reader is open: no request and no error came yet.
#[derive(Drop)]
pub struct RequestReader {
    bytes: Vec<u8>,
    stage: Stage,
}

#[derive(Drop)]
pub(crate) enum Stage {
    Head(HeadWalk),
    Body(Started),
    Closed,
}

// A request whose head has come.
#[derive(Drop)]
pub(crate) struct Started {
    pub head: RequestHead,
    pub framing: Framing,
    pub walk: Walk,
}

// What bytes lead to.
#[derive(Drop)]
pub(crate) enum Advance {
    More(Stage),
    Whole(Request),
    Refused(FrameError),
    OutOfMemory(Stage),
}

impl Model for RequestReader {
    ghost use Rattle.http_frames.specs.Reading.{Fed, fed, IsStageOf};

    ghost Value = { Fed };

    ghost view = { λ r. fed r.bytes.items r.stage };

    ghost invariant = { λ r. IsStageOf r.bytes.items r.stage };
}

impl RequestReader {
    /// A reader of no bytes; takes no memory.
    pub fn new(alloc: Global) -> RequestReader
        ensures bytes { result.bytes ≡ [] }
        ensures is_open { result.is_open ≡ true }
        ensures awaits { AwaitsRest result.bytes }
    {
        RequestReader {
            bytes: Vec::new(alloc),
            stage: Stage::Head(HeadWalk::new()),
        }
    }

    /// Takes a piece, and gives the request once its bytes are whole. Bytes after the request are ignored.
    ///
    /// A request's body has at most 131,072 bytes, and at most 1,064,959 bytes are held while more are needed. An error
    /// is that of the shortest prefix of the bytes that has one, and never `Torn`. After `Memory` the reader is as before.
    pub fn feed(&mut self, piece: &[u8]) -> Result<Option<Request>, FrameError>
        requires { self.old.is_open ≡ true }
        ensures fed { result ≡ Err FrameError.Memory
            ⊎ (self.new.bytes ≡ self.old.bytes ++ piece.now) }
        ensures memory { result ≡ Err FrameError.Memory → self.new ≡ self.old }
        ensures whole { IfOk result (λ read. IfSome read (BeginsWithRequest self.new.bytes)) }
        ensures small { IfOk result (λ read. IfSome read (λ request.
            length request.body ≤ request_limits.content)) }
        ensures more { IfOk result (λ read. IfNone read (AwaitsRest self.new.bytes)) }
        ensures few { IfOk result (λ read. IfNone read (length self.new.bytes < request_bytes)) }
        ensures goes_on { IfOk result (λ read. IfNone read (self.new.is_open ≡ true)) }
        ensures refused { IfErr result (λ e. e ≢ FrameError.Memory
            → RefusesRequest self.new.bytes e) }
        ensures not_torn { IfErr result (λ e. (at : ℕ) → e ≢ FrameError.Torn at) }
    {
        self.take_in(piece)
    }

    /// `Torn` after the bytes that were fed.
    pub fn torn(&self) -> FrameError
        ensures { result ≡ FrameError.Torn (length self.now.bytes) }
    {
        FrameError::Torn {
            at: self.bytes.len() as u64,
        }
    }

    // The same, by what was read of the head and of the body.
    fn take_in(&mut self, piece: &[u8]) -> Result<Option<Request>, FrameError>
        requires { self.old.is_open ≡ true }
        ensures fed { result ≡ Err FrameError.Memory
            ⊎ (self.new.bytes ≡ self.old.bytes ++ piece.now) }
        ensures memory { result ≡ Err FrameError.Memory → self.new ≡ self.old }
        ensures whole { IfOk result (λ read. IfSome read (IsReadRequest self.new.bytes)) }
        ensures more { IfOk result (λ read. IfNone read (AwaitsMore self.new.bytes)) }
        ensures goes_on { IfOk result (λ read. IfNone read (self.new.is_open ≡ true)) }
        ensures refused { IfErr result (λ e. e ≢ FrameError.Memory → Refuses self.new.bytes e) }
    {
        let before = self.bytes.len();
        self.bytes.extend_from_slice(piece)?;
        let stage = mem::replace(&mut self.stage, Stage::Closed);
        let alloc = *self.bytes.allocator();
        match step_on(alloc, stage, &self.bytes) {
            Advance::More(stage) => {
                self.stage = stage;
                Ok(None)
            }
            Advance::Whole(request) => Ok(Some(request)),
            Advance::Refused(error) => Err(error),
            Advance::OutOfMemory(stage) => {
                self.bytes.truncate(before);
                self.stage = stage;
                Err(FrameError::Memory)
            }
        }
    }
}

// One step on, over all bytes that were fed.
fn step_on(alloc: Global, stage: Stage, bytes: &[u8]) -> Advance
    requires stage { IsStageOf bytes.now stage }
    requires is_open { is_open_stage stage ≡ true }
    ensures { IsAdvance bytes.now stage result }
{
    match stage {
        Stage::Head(walk) => begin(alloc, walk, bytes),
        Stage::Body(started) => started.go_on(alloc, bytes),
        Stage::Closed => unreachable!(),
    }
}

fn begin(alloc: Global, walk: HeadWalk, bytes: &[u8]) -> Advance
    requires { IsWalkedHead bytes.now walk }
    ensures { IsAdvance bytes.now (Stage.Head walk) result }
{
    match read_head(alloc, walk, bytes) {
        Ok(HeadRead::Whole(head)) => begin_body(alloc, walk, head, bytes),
        Ok(HeadRead::More(reached)) => Advance::More(Stage::Head(reached)),
        Err(FrameError::Memory) => Advance::OutOfMemory(Stage::Head(walk)),
        Err(error) => Advance::Refused(error),
    }
}

fn begin_body(alloc: Global, walk: HeadWalk, head: RequestHead, bytes: &[u8]) -> Advance
    requires { IsRequestHeadOf bytes.now head }
    ensures { IsAdvance bytes.now (Stage.Head walk) result }
{
    match start_body(head, bytes) {
        Ok(started) => match started.go_on(alloc, bytes) {
            Advance::OutOfMemory(_) => Advance::OutOfMemory(Stage::Head(walk)),
            reached => reached,
        },
        Err(error) => Advance::Refused(error),
    }
}

// What a head says of the body.
fn start_body(head: RequestHead, bytes: &[u8]) -> Result<Started, FrameError>
    requires { IsRequestHeadOf bytes.now head }
    ensures { IsStart bytes.now result }
{
    let framing = request_framing(head.method.as_slice(), head.headers.as_slice())?;
    Ok(Started {
        head,
        framing,
        walk: Walk::new(),
    })
}

impl Started {
    fn go_on(self, alloc: Global, bytes: &[u8]) -> Advance
        requires { IsStarted bytes.now self }
        ensures { IsAdvance bytes.now (Stage.Body self) result }
    {
        let Started {
            head,
            framing,
            walk,
        } = self;
        let (_, body) = bytes.split_at(head.length);
        match read_body(
            alloc,
            &REQUEST_LIMITS,
            head.length as u64,
            framing,
            walk,
            body,
        ) {
            Ok(Progress::More(walk)) => Advance::More(Stage::Body(Started {
                head,
                framing,
                walk,
            })),
            Ok(Progress::Front(length)) => match Vec::from_slice(alloc, body.split_at(length).0) {
                Ok(content) => Advance::Whole(request(head, content)),
                Err(AllocError) => Advance::OutOfMemory(Stage::Body(Started {
                    head,
                    framing,
                    walk,
                })),
            },
            Ok(Progress::Joined(content)) => Advance::Whole(request(head, content)),
            Err(FrameError::Memory) => Advance::OutOfMemory(Stage::Body(Started {
                head,
                framing,
                walk,
            })),
            Err(error) => Advance::Refused(error),
        }
    }
}

fn request(head: RequestHead, content: Vec<u8>) -> Request
    ensures method { result.method ≡ head.method }
    ensures target { result.target ≡ head.target }
    ensures headers { result.headers ≡ head.headers }
    ensures body { result.body ≡ content.items }
{
    Request {
        method: head.method,
        target: head.target,
        headers: head.headers,
        body: Bytes::of(content),
    }
}
