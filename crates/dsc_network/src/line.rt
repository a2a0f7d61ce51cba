//! An open connection whose use ends in time.
ghost use Rattle.std.specs.Prelude.{◌≡◌, ◌<◌, ◌+◌, ◌≤◌, IfOk, OnErr, length};
ghost use Rattle.std.specs.Io.{ReadsAtMost, StartsWith, WritesAtMost};
ghost use Rattle.dsc_outside.specs.Link.{answer_limit};

use crate::deadline::Deadline;
use dsc_outside::{ANSWER_LIMIT, Failed, LinkError};
use std::io::{ErrorKind, Read, Write};
use std::net::{Net, OpenStream, Shutdown};
use std::time::{Clock, Duration};

// The most bytes that are read at once.
const BUFFER_SIZE: usize = 8192;

/// An open connection, until when it may be used, and how long a single call may wait. A call that would wait longer is
/// a failure.
#[derive(Drop)]
pub struct Line<R: Net + Clock> {
    rt: R,
    stream: R::Stream,
    deadline: Deadline,
    patience: Duration,
}

impl<R: Net + Clock> Line<R> {
    pub fn new(rt: R, stream: R::Stream, deadline: Deadline, patience: Duration) -> Line<R> {
        Line {
            rt,
            stream,
            deadline,
            patience,
        }
    }

    /// Lets it be used longer by this span.
    pub fn prolong(&mut self, span: Duration) {
        self.deadline = self.deadline.later(span);
    }

    /// Sends all bytes; `Failed` where some are left unsent.
    pub fn send(&mut self, bytes: &[u8]) -> Result<(), Failed> {
        let mut rest = bytes;
        while !rest.is_empty() {
            let count = self.write_some(rest)?;
            rest = &rest[count..];
        }
        Ok(())
    }

    /// Appends all that comes until the peer ends the connection. Each byte that comes lets the connection be used for a
    /// microsecond more.
    pub fn receive(&mut self, into: &mut Vec<u8>) -> Result<(), LinkError>
        ensures start { StartsWith into.new.items into.old.items }
        ensures limit { length into.new.items < length into.old.items + answer_limit }
    {
        let mut buffer = [0; BUFFER_SIZE];
        let mut capacity = ANSWER_LIMIT;
        for _ in 0..u64::MAX {
            let Ok(count) = self.read_some(&mut buffer) else {
                return Err(LinkError::Failed);
            };
            if count == 0 {
                return Ok(());
            }
            if capacity <= count {
                return Err(LinkError::TooLong);
            }
            into.extend_from_slice(&buffer[..count])?;
            capacity -= count;
            self.prolong(Duration::from_micros(count as u64));
        }
        Err(LinkError::Failed)
    }

    /// Ends the writing side, and discards what the peer still sends, until it ends its own side or the linger is over,
    /// but no longer than the connection may be used. If the stream were closed with bytes unread, the system would reset
    /// the connection, and the peer could lose what it has not read yet.
    pub fn finish(&mut self, linger: Duration) {
        if self.stream.shutdown(Shutdown::Write).is_err() {
            return;
        }
        let Ok(end) = Deadline::after(&self.rt, linger) else {
            return;
        };
        self.deadline = self.deadline.or_earlier(end);
        let mut buffer = [0; BUFFER_SIZE];
        for _ in 0..u64::MAX {
            match self.read_some(&mut buffer) {
                Ok(0) | Err(_) => return,
                Ok(_) => {}
            }
        }
    }

    /// Reads once, and again where a signal interrupted it.
    pub fn read_some(&mut self, into: &mut [u8]) -> Result<usize, Failed>
        ensures bound { ReadsAtMost result into.new }
    {
        for _ in 0..u64::MAX {
            self.limit_read()?;
            match self.stream.read(into) {
                Ok(count) => return Ok(count),
                Err(e) if e.kind() == ErrorKind::Interrupted => {}
                Err(_) => return Err(Failed),
            }
        }
        Err(Failed)
    }

    /// Writes once, and again where a signal interrupted it. To take nothing of a piece is a failure.
    pub fn write_some(&mut self, piece: &[u8]) -> Result<usize, Failed>
        ensures bound { WritesAtMost result piece.now }
        ensures progress { 0 < length piece.now → IfOk result (λ n. 0 < n) }
    {
        for _ in 0..u64::MAX {
            self.limit_write()?;
            match self.stream.write(piece) {
                Ok(0) if !piece.is_empty() => return Err(Failed),
                Ok(count) => return Ok(count),
                Err(e) if e.kind() == ErrorKind::Interrupted => {}
                Err(_) => return Err(Failed),
            }
        }
        Err(Failed)
    }

    fn limit_read(&self) -> Result<(), Failed> {
        match self.stream.set_read_timeout(Some(self.longest_wait()?)) {
            Ok(()) => Ok(()),
            Err(_) => Err(Failed),
        }
    }

    fn limit_write(&self) -> Result<(), Failed> {
        match self.stream.set_write_timeout(Some(self.longest_wait()?)) {
            Ok(()) => Ok(()),
            Err(_) => Err(Failed),
        }
    }

    // How long the next call may wait, which is longer than nothing unless the patience is nothing.
    fn longest_wait(&self) -> Result<Duration, Failed> {
        let left = self.deadline.left(&self.rt)?;
        Ok(left.min(self.patience))
    }
}
