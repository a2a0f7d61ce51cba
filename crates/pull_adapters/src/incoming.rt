//! A connection whose request has not come whole.
ghost use Rattle.std.specs.Prelude.{◌≡◌, ◌≤◌, true, vec_len};
ghost use Rattle.std.specs.Option.{ForSome};

use crate::large_answers::Rank;
use http_frames::RequestReader;
use std::alloc::Global;
use std::io::{ErrorKind, Read};
use std::net::OpenStream;
use std::os::fd::{AsRawFd, RawFd};
use std::time::Duration;

/// The most bytes of one connection that are kept.
pub const MOST_OF_ONE: usize = 1_073_152;

/// How far the request of a connection has come.
#[derive(Clone, Copy, Debug, PartialEq, Eq)]
pub enum Progress {
    /// More bytes have to come.
    Awaited,

    /// The bytes are a whole request, or no request can begin with them, or the peer has ended its side after them.
    Come,

    /// The connection failed, took too long, or was let go for another one.
    Lost,
}

#[derive(Drop)]
pub struct Incoming<S: Drop> {
    pub stream: S,

    /// The bytes that came.
    pub came: Vec<u8>,

    /// Whether the peer has ended its side.
    pub ended: bool,
    pub progress: Progress,

    /// When it is given out, once its request has come.
    pub rank: Rank,

    /// Whether a read may give something.
    pub ready: bool,

    /// Whether its readiness is reported.
    pub registered: bool,

    /// The moment at which it came, or sent something last.
    pub heard: Duration,

    /// The moment at which its time is over.
    pub end: Duration,
    reader: Option<RequestReader>,
    ghost few: { vec_len came ≤ 1073152 },
    ghost awaits: { ForSome reader (λ r. r.is_open ≡ true) },
}

impl<S: Read + OpenStream + AsRawFd + Drop> Incoming<S> {
    pub fn new(alloc: Global, stream: S, now: Duration, end: Duration) -> Incoming<S> {
        Incoming {
            stream,
            came: Vec::new(alloc),
            ended: false,
            progress: Progress::Awaited,
            rank: Rank::First,
            ready: true,
            registered: false,
            heard: now,
            end,
            reader: Some(RequestReader::new(alloc)),
        }
    }

    pub fn fd(&self) -> RawFd {
        self.stream.as_raw_fd()
    }

    /// The moment at which it is lost if nothing comes.
    pub fn last_moment(&self, patience: Duration) -> Duration {
        self.heard.saturating_add(patience).min(self.end)
    }

    /// Whether it waits, and has been silent since before that moment.
    pub fn is_silent_since(&self, moment: Duration) -> bool {
        self.progress == Progress::Awaited && self.heard < moment
    }

    /// Reads once, where a read may give something. Where nothing comes any more it is lost at its last moment.
    pub fn step(&mut self, buffer: &mut [u8], now: Duration, patience: Duration) {
        if self.progress != Progress::Awaited {
            return;
        }
        if self.ready {
            self.read(buffer, now);
        }
        if self.progress == Progress::Awaited && self.last_moment(patience) <= now {
            self.lose();
        }
    }

    /// Whether its request has come and is put off for others.
    pub fn is_put_off(&self) -> bool {
        self.progress == Progress::Come && self.rank != Rank::First
    }

    /// The time for which it was put off is not its own.
    pub fn prolong(&mut self, now: Duration) {
        self.end = self.end.saturating_add(now.saturating_sub(self.heard));
    }

    /// Gives it up, and what is kept of it.
    pub fn lose(&mut self) {
        self.progress = Progress::Lost;
        self.reader = None;
        self.came = Vec::new(*self.came.allocator());
    }

    fn read(&mut self, buffer: &mut [u8], now: Duration) {
        match self.stream.read(buffer) {
            Ok(0) => {
                self.ended = true;
                self.progress = Progress::Come;
            }
            Ok(count) => {
                self.heard = now;
                self.take(&buffer[..count]);
            }
            Err(e) if e.kind() == ErrorKind::WouldBlock => self.ready = false,
            Err(e) if e.kind() == ErrorKind::Interrupted => {}
            Err(_) => self.lose(),
        }
    }

    fn take(&mut self, piece: &[u8]) {
        let is_first = self.came.is_empty();
        let Some(reader) = self.reader.take() else {
            self.lose();
            return;
        };
        if MOST_OF_ONE < self.came.len().saturating_add(piece.len())
            || self.came.extend_from_slice(piece).is_err()
        {
            self.lose();
            return;
        }
        self.reader = fed(reader, piece, is_first);
        if self.reader.is_none() {
            self.progress = Progress::Come;
        }
    }
}

// The reader, where it needs more bytes after these, which are the first or come after others.
fn fed(mut reader: RequestReader, piece: &[u8], is_first: bool) -> Option<RequestReader>
    requires { reader.is_open ≡ true }
    ensures { ForSome result (λ reader. reader.is_open ≡ true) }
{
    if is_first && is_head_alone(piece) {
        return None;
    }
    match reader.feed(piece) {
        Ok(None) => Some(reader),
        _ => None,
    }
}

// Whether the bytes end with a head that announces no body, and so are a whole request, or none can begin with them. This is seen
// without reading the head: where a line may announce a body, the answer is no.
fn is_head_alone(bytes: &[u8]) -> bool {
    bytes.ends_with(b"\r\n\r\n")
        && bytes.first().is_some_and(|byte| byte.is_ascii_uppercase())
        && !bytes.split(|byte| *byte == b'\n').any(may_announce_body)
}

fn may_announce_body(line: &[u8]) -> bool {
    match line.first() {
        Some(b'c' | b'C') => has_name(line, b"content-length"),
        Some(b't' | b'T') => has_name(line, b"transfer-encoding"),
        Some(b' ' | b'\t') => true,
        _ => false,
    }
}

fn has_name(line: &[u8], name: &[u8]) -> bool {
    name.len() <= line.len() && line[..name.len()].eq_ignore_ascii_case(name)
}
