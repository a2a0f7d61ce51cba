//! A connection that was served, and is not ended yet.
use crate::poll_door::DoorLimits;
use std::io::{ErrorKind, Read, Write};
use std::net::{OpenStream, Shutdown};
use std::os::fd::{AsRawFd, RawFd};
use std::time::Duration;

#[derive(Drop)]
pub struct Outgoing<S: Drop> {
    pub stream: S,

    /// Under which number what the peer has not taken yet is kept.
    pub answer: Option<u64>,

    /// How many bytes of that the peer took.
    pub sent: usize,

    /// Whether the peer has ended its side.
    pub ended: bool,

    /// Whether the answer lies in the peer's queue as a whole once it is sent.
    pub small: bool,

    /// Whether a step may do something.
    pub ready: bool,

    /// Whether its readiness is reported, if only that it can be read.
    pub registered: bool,

    /// The moment at which the peer took something last.
    pub taken: Duration,

    /// The moment at which its time is over.
    pub end: Duration,
    pub step: Step,
}

/// What comes next.
#[derive(Clone, Copy, Debug, PartialEq, Eq)]
pub enum Step {
    /// The rest of the answer is sent.
    Send,

    /// The side that sends is ended.
    Shut,

    /// What the peer still sends is read and dropped.
    Drain,

    /// Nothing: the connection can be closed.
    Close,
}

impl<S: Read + Write + OpenStream + AsRawFd + Drop> Outgoing<S> {
    pub fn fd(&self) -> RawFd {
        self.stream.as_raw_fd()
    }

    /// The moment at which it is closed, if the peer takes nothing more.
    pub fn last_moment(&self, limits: DoorLimits) -> Duration {
        self.taken.saturating_add(limits.patience).min(self.end)
    }

    /// Whether the whole answer lies in the peer's queue, so that it can be closed without loss.
    pub fn can_go(&self) -> bool {
        self.small && matches!(self.step, Step::Drain | Step::Close)
    }

    /// Does what comes next, where it may be done at once.
    pub fn advance(&mut self, left: &[u8], buffer: &mut [u8], now: Duration, limits: DoorLimits) {
        if self.ready {
            match self.step {
                Step::Send => self.send(left, buffer, now),
                Step::Shut => self.shut(now, limits),
                Step::Drain => self.drain(buffer),
                Step::Close => {}
            }
        }
        if self.last_moment(limits) <= now {
            self.step = Step::Close;
        }
    }

    // A peer that sends before it takes its answer is read from meanwhile.
    fn send(&mut self, left: &[u8], buffer: &mut [u8], now: Duration) {
        let from = self.sent.min(left.len());
        if from == left.len() {
            self.step = Step::Shut;
            return;
        }
        match self.stream.write(&left[from..]) {
            Ok(0) => self.step = Step::Close,
            Ok(count) => {
                self.sent = self.sent.saturating_add(count);
                self.taken = now;
                self.end = self.end.saturating_add(Duration::from_micros(count as u64));
            }
            Err(e) if e.kind() == ErrorKind::WouldBlock => self.drain(buffer),
            Err(e) if e.kind() == ErrorKind::Interrupted => {}
            Err(_) => self.step = Step::Close,
        }
    }

    /// Ends the side that sends.
    pub fn shut(&mut self, now: Duration, limits: DoorLimits) {
        if self.ended || self.stream.shutdown(Shutdown::Write).is_err() {
            self.step = Step::Close;
            return;
        }
        self.step = Step::Drain;
        if self.small {
            self.end = self.end.min(now.saturating_add(limits.linger));
        }
    }

    fn drain(&mut self, buffer: &mut [u8]) {
        if self.ended {
            self.ready = false;
            return;
        }
        match self.stream.read(buffer) {
            Ok(0) => self.end_input(),
            Ok(_) => {}
            Err(e) if e.kind() == ErrorKind::WouldBlock => self.ready = false,
            Err(e) if e.kind() == ErrorKind::Interrupted => {}
            Err(_) => self.step = Step::Close,
        }
    }

    fn end_input(&mut self) {
        self.ended = true;
        if self.step == Step::Drain {
            self.step = Step::Close;
        }
    }
}
