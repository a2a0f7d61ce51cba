//! The connections that were served, and are not ended yet.
ghost use Rattle.std.specs.Prelude.{◌≤◌, vec_len};

use crate::kept_answers::KeptAnswers;
use crate::outgoing::{Outgoing, Step};
use crate::poll_door::DoorLimits;
use crate::unsent::Unsent;
use std::alloc::Global;
use std::io::{Read, Write};
use std::net::OpenStream;
use std::os::fd::{AsRawFd, RawFd};
use std::time::Duration;

/// The most connections that were served and are not ended yet, with those that are being served.
pub const MOST_OUTGOING: usize = 256;

/// The most bytes of their answers that are kept.
pub const MOST_KEPT: usize = 536_870_912;

const BUFFER_SIZE: usize = 8192;

#[derive(Drop)]
pub struct Departures<S: Drop> {
    list: Vec<Outgoing<S>>,
    answers: KeptAnswers,
    limits: DoorLimits,

    // Whether a turn may do something at once.
    busy: bool,

    // None is closed before this moment for having waited too long.
    next_moment: Duration,
    ghost few: { vec_len list ≤ 256 },
}

impl<S: Read + Write + OpenStream + AsRawFd + Drop> Departures<S> {
    pub fn new(alloc: Global, limits: DoorLimits) -> Departures<S> {
        Departures {
            list: Vec::new(alloc),
            answers: KeptAnswers::new(alloc),
            limits,
            busy: false,
            next_moment: Duration::MAX,
        }
    }

    pub fn is_empty(&self) -> bool {
        self.list.is_empty()
    }

    /// How many bytes of further answers can be kept.
    pub fn capacity(&self) -> usize {
        MOST_KEPT.saturating_sub(self.answers.total())
    }

    /// The moment at which the next turn may find something.
    pub fn next_moment(&self, now: Duration) -> Duration {
        if self.busy { now } else { self.next_moment }
    }

    /// Whether one more can be served beside that many that are being served. Where there are as many as there can be, one whose
    /// answer lies in its peer's queue is closed; no other is.
    pub fn has_place(&mut self, out: usize) -> bool {
        let others = self.list.len().saturating_add(out);
        if others < MOST_OUTGOING {
            return true;
        }
        for at in 0..self.list.len() {
            if self.list[at].can_go() {
                drop(self.list.remove(at));
                return others == MOST_OUTGOING;
            }
        }
        false
    }

    /// Takes one that was served, with what its peer has not taken of its answer; out of memory it is closed, and nothing of it is kept.
    pub fn add(&mut self, mut served: Outgoing<S>, left: Unsent) {
        if self.list.len() >= MOST_OUTGOING {
            return;
        }
        if !left.is_empty() {
            served.answer = self.answers.keep(left);
        }
        let kept = served.answer;
        if self.list.push(served).is_ok() {
            self.busy = true;
        } else if let Some(number) = kept {
            self.answers.release(number);
        }
    }

    /// Does what can be done at once for each, and closes those that are ended, or whose time is over.
    pub fn turn(&mut self, now: Duration) {
        if !self.busy && now < self.next_moment {
            return;
        }
        advance_all(&mut self.list, &self.answers, now, self.limits);
        free_sent(&mut self.list, &mut self.answers);
        self.list.retain(|one| one.step != Step::Close);
        self.busy = self.list.iter().any(|one| one.ready);
        self.next_moment = earliest(&self.list, self.limits);
    }

    /// Notes that this descriptor may be read or written.
    pub fn mark(&mut self, fd: RawFd) {
        if mark(&mut self.list, fd) {
            self.busy = true;
        }
    }
}

fn advance_all<S: Read + Write + OpenStream + AsRawFd + Drop>(
    list: &mut [Outgoing<S>],
    answers: &KeptAnswers,
    now: Duration,
    limits: DoorLimits,
) {
    let mut buffer = [0; BUFFER_SIZE];
    for one in list {
        let left = answers.bytes_of(one.answer);
        one.advance(left, &mut buffer, now, limits);
    }
}

// Frees the answers that are sent, or not to be sent any more.
fn free_sent<S: Drop>(list: &mut [Outgoing<S>], answers: &mut KeptAnswers) {
    for one in list {
        if one.step != Step::Send {
            if let Some(number) = one.answer.take() {
                answers.release(number);
            }
        }
    }
}

fn earliest<S: Read + Write + OpenStream + AsRawFd + Drop>(
    list: &[Outgoing<S>],
    limits: DoorLimits,
) -> Duration {
    let mut first = Duration::MAX;
    for one in list {
        first = first.min(one.last_moment(limits));
    }
    first
}

fn mark<S: Read + Write + OpenStream + AsRawFd + Drop>(
    list: &mut [Outgoing<S>],
    fd: RawFd,
) -> bool {
    for one in list {
        if one.fd() == fd {
            one.ready = true;
            return true;
        }
    }
    false
}
