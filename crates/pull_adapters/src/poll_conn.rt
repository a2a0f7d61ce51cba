//! A connection that is being served.
ghost use Rattle.std.specs.Prelude.{◌≡◌, ◌<◌, ◌≤◌, IfOk, None, length};
ghost use Rattle.std.specs.Io.{ReadsAtMost, WritesAtMost};
ghost use Rattle.std.specs.Io.KnownBytes.{ReadConsumes, WriteAppends};
ghost use Rattle.dsc_outside.specs.Causes.{HasCause};

use crate::incoming::{Incoming, Progress};
use crate::last_items::LastItems;
use crate::outgoing::{Outgoing, Step};
use crate::poll_door::DoorLimits;
use crate::unsent::Unsent;
use dsc_outside::{Ends, Failed, Sink, Source};
use std::alloc::Global;
use std::io::{ErrorKind, Read, Write};
use std::marker::Model;
use std::mem;
use std::net::{Net, OpenStream};
use std::time::{Clock, Duration};

/// The most bytes of an answer that lies in the peer's queue as a whole.
pub const MOST_QUEUED: u64 = 65_536;

/// A connection whose request has come. A read gives what came, and fails where nothing more is known of it. What the peer
/// does not take at once of the answer is kept, an item of the shelf without a copy of its own, and the door sends it on once the
/// connection is handed back. Where no more can
/// be kept, a write waits for the peer, at most as long as the connection may be used. A clause sees a connection as the
/// number of its calls that failed.
#[derive(Drop)]
pub struct PollConn<'r, R: Net + Clock> {
    rt: &'r R,
    alloc: Global,
    items: &'r LastItems,
    limits: DoorLimits,
    stream: R::Stream,
    registered: bool,
    came: Vec<u8>,
    read: usize,
    ended: bool,
    lost: bool,
    kept: Unsent,
    sent: usize,
    written: u64,
    capacity: usize,
    end: Duration,
    faults: u64,
}

impl<'r, R: Net + Clock> Model for PollConn<'r, R> {
    ghost use Rattle.std.specs.Prelude.{ℕ};

    ghost Value = { ℕ };

    ghost view = { λ c. c.faults };
}

impl<'r, R: Net + Clock> PollConn<'r, R> {
    /// A connection that waits for nothing more, of whose answer that many bytes can be kept.
    pub(crate) fn new(
        rt: &'r R,
        alloc: Global,
        items: &'r LastItems,
        incoming: Incoming<R::Stream>,
        limits: DoorLimits,
        capacity: usize,
    ) -> PollConn<'r, R>
        ensures { result ≡ 0 }
    {
        let Incoming {
            stream,
            came,
            ended,
            progress,
            registered,
            end,
            ..
        } = incoming;
        PollConn {
            rt,
            alloc,
            items,
            limits,
            stream,
            registered,
            came,
            read: 0,
            ended,
            lost: progress == Progress::Lost,
            kept: Unsent::new(alloc),
            sent: 0,
            written: 0,
            capacity,
            end,
            faults: 0,
        }
    }

    /// Whether nothing is left to do: a call failed, or all was written and the peer has ended its side, or may be left
    /// before it has.
    pub(crate) fn is_over(&self, at_once: bool) -> bool {
        self.faults > 0 || (self.kept.is_empty() && (self.ended || (at_once && self.is_small())))
    }

    /// The bytes that came.
    pub(crate) fn came(&self) -> &[u8] {
        &self.came
    }

    /// How many bytes were written.
    pub(crate) fn written(&self) -> u64 {
        self.written
    }

    pub(crate) fn has_failed(&self) -> bool {
        self.faults > 0
    }

    fn is_small(&self) -> bool {
        self.written <= MOST_QUEUED
    }

    /// What is left to do, and what is left of the answer.
    pub(crate) fn into_outgoing(self, now: Duration) -> (Outgoing<R::Stream>, Unsent) {
        let small = self.is_small();
        let PollConn {
            limits,
            stream,
            registered,
            ended,
            kept,
            sent,
            end,
            ..
        } = self;
        let mut outgoing = Outgoing {
            stream,
            answer: None,
            sent,
            ended,
            small,
            ready: true,
            registered,
            taken: now,
            end,
            step: Step::Send,
        };
        if kept.is_empty() {
            outgoing.shut(now, limits);
        }
        (outgoing, kept)
    }

    fn read_some(&mut self, into: &mut [u8]) -> Result<usize, Failed>
        ensures bound { ReadsAtMost result into.new }
        ensures kept { self.new ≡ self.old }
    {
        if self.read < self.came.len() {
            let count = into.len().min(self.came.len() - self.read);
            into[..count].copy_from_slice(&self.came[self.read..self.read + count]);
            self.read += count;
            return Ok(count);
        }
        if self.ended && !self.lost {
            return Ok(0);
        }
        Err(Failed)
    }

    fn write_some(&mut self, piece: &[u8]) -> Result<usize, Failed>
        ensures bound { WritesAtMost result piece.now }
        ensures progress { 0 < length piece.now → IfOk result (λ n. 0 < n) }
        ensures kept { self.new ≡ self.old }
    {
        if !self.kept.is_empty() {
            return self.put_off(piece, 0);
        }
        match self.stream.write(piece) {
            Ok(0) if !piece.is_empty() => Err(Failed),
            Ok(count) => {
                self.prolong(count);
                if count == piece.len() {
                    return Ok(count);
                }
                self.put_off(piece, count)
            }
            Err(e) if matches!(e.kind(), ErrorKind::WouldBlock | ErrorKind::Interrupted) => {
                self.put_off(piece, 0)
            }
            Err(_) => Err(Failed),
        }
    }

    // Each byte that the peer takes lets it be used for a microsecond more.
    fn prolong(&mut self, count: usize)
        ensures { self.new ≡ self.old }
    {
        self.end = self.end.saturating_add(Duration::from_micros(count as u64));
    }

    // Keeps a piece of which the peer took that many bytes; where it cannot be kept, waits for the peer.
    fn put_off(&mut self, piece: &[u8], taken: usize) -> Result<usize, Failed>
        requires { taken ≤ length piece.now }
        ensures bound { WritesAtMost result piece.now }
        ensures progress { 0 < length piece.now → IfOk result (λ n. 0 < n) }
        ensures kept { self.new ≡ self.old }
    {
        if self.keeps(piece, taken) {
            return Ok(piece.len());
        }
        if taken > 0 {
            return Ok(taken);
        }
        self.flush()?;
        let count = write_waiting(self.rt, &mut self.stream, piece, self.limits, self.end)?;
        self.prolong(count);
        Ok(count)
    }

    fn keeps(&mut self, piece: &[u8], taken: usize) -> bool
        ensures { self.new ≡ self.old }
    {
        let after = self.kept.len().saturating_add(piece.len());
        if self.capacity < after || self.kept.append(self.alloc, self.items, piece).is_err() {
            return false;
        }
        self.sent = self.sent.saturating_add(taken);
        true
    }

    // Sends what is kept.
    fn flush(&mut self) -> Result<(), Failed>
        ensures { self.new ≡ self.old }
    {
        let kept = mem::replace(&mut self.kept, Unsent::new(self.alloc));
        let bytes = kept.as_slice();
        let rest = &bytes[self.sent.min(bytes.len())..];
        self.sent = 0;
        self.end = send_waiting(self.rt, &mut self.stream, rest, self.limits, self.end)?;
        Ok(())
    }
}

// Sends all bytes, and waits for the peer, at most until the end, which each byte that it takes puts off by a microsecond.
// Answers when the end is then.
fn send_waiting<R: Clock, S: Write + OpenStream>(
    rt: &R,
    stream: &mut S,
    bytes: &[u8],
    limits: DoorLimits,
    end: Duration,
) -> Result<Duration, Failed> {
    let mut end = end;
    let mut rest = bytes;
    while !rest.is_empty() {
        let count = write_waiting(rt, stream, rest, limits, end)?;
        end = end.saturating_add(Duration::from_micros(count as u64));
        rest = &rest[count..];
    }
    Ok(end)
}

// Writes once, and waits for the peer, at most until the end.
fn write_waiting<R: Clock, S: Write + OpenStream>(
    rt: &R,
    stream: &mut S,
    piece: &[u8],
    limits: DoorLimits,
    end: Duration,
) -> Result<usize, Failed>
    ensures bound { WritesAtMost result piece.now }
    ensures progress { 0 < length piece.now → IfOk result (λ n. 0 < n) }
{
    let wait = longest_wait(rt, limits, end)?;
    if stream.set_nonblocking(false).is_err() || stream.set_write_timeout(Some(wait)).is_err() {
        return Err(Failed);
    }
    let outcome = stream.write(piece);
    if stream.set_nonblocking(true).is_err() {
        return Err(Failed);
    }
    match outcome {
        Ok(0) if !piece.is_empty() => Err(Failed),
        Ok(count) => Ok(count),
        Err(_) => Err(Failed),
    }
}

fn longest_wait<R: Clock>(rt: &R, limits: DoorLimits, end: Duration) -> Result<Duration, Failed> {
    let Ok(now) = rt.monotonic() else {
        return Err(Failed);
    };
    let left = end.saturating_sub(now);
    if left.is_zero() {
        return Err(Failed);
    }
    Ok(left.min(limits.patience))
}

impl<'r, R: Net + Clock> Ends for PollConn<'r, R> {
    ghost left = { λ c. None };

    ghost held = { λ c. None };

    ghost faults = { λ c. c };
}

impl<'r, R: Net + Clock> Source for PollConn<'r, R> {
    fn read(&mut self, into: &mut [u8]) -> Result<usize, Failed>
        ensures bound { ReadsAtMost result into.new }
        ensures bytes { ReadConsumes None None result into.new }
        ensures cause { HasCause self.old self.new result }
    {
        let outcome = self.read_some(into);
        if outcome.is_err() {
            self.faults = self.faults.saturating_add(1);
        }
        outcome
    }
}

impl<'r, R: Net + Clock> Sink for PollConn<'r, R> {
    fn write(&mut self, piece: &[u8]) -> Result<usize, Failed>
        ensures bound { WritesAtMost result piece.now }
        ensures progress { 0 < length piece.now → IfOk result (λ n. 0 < n) }
        ensures bytes { WriteAppends None None result piece.now }
        ensures cause { HasCause self.old self.new result }
    {
        let outcome = self.write_some(piece);
        match outcome {
            Ok(count) => self.written = self.written.saturating_add(count as u64),
            Err(Failed) => self.faults = self.faults.saturating_add(1),
        }
        outcome
    }
}
