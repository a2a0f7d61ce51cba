//! The connections whose requests have not come whole.
ghost use Rattle.std.specs.Prelude.{◌≤◌, vec_len};

use crate::incoming::{Incoming, Progress};
use crate::large_answers::{LargeAnswers, Rank};
use dsc_outside::Failed;
use std::alloc::{AllocError, Global};
use std::io::Read;
use std::net::OpenStream;
use std::os::fd::{AsRawFd, RawFd};
use std::time::Duration;

/// The most connections that wait for the rest of their requests.
pub const MOST_INCOMING: usize = 256;

/// The most bytes that are kept of all of them between two turns.
pub const MOST_OF_ALL: usize = 33_554_432;

/// The most connections whose requests are put off for others.
pub const MOST_PUT_OFF: usize = 128;

// For how long nothing has come of any where they are quiet, in milliseconds.
const QUIET_MILLIS: u64 = 10;

// How many others are given out while one is put off.
const MOST_PASSED: u32 = 64;

const BUFFER_SIZE: usize = 8192;

#[derive(Drop)]
pub struct Arrivals<S: Drop> {
    list: Vec<Incoming<S>>,
    patience: Duration,

    // What was read last.
    buffer: Vec<u8>,

    // Whether a turn may read something, or give one out.
    busy: bool,

    // None has waited too long before this moment.
    next_moment: Duration,

    // The moment at which the last of them came, or sent something.
    heard: Duration,
    large: LargeAnswers,

    // How many are put off, and how many others were given out since the last of these.
    put_off: usize,
    passed: u32,
    ghost few: { vec_len list ≤ 256 },
}

impl<S: Read + OpenStream + AsRawFd + Drop> Arrivals<S> {
    pub fn new(alloc: Global, patience: Duration) -> Result<Arrivals<S>, Failed> {
        match (Vec::with_capacity(alloc, MOST_INCOMING), zeroes(alloc)) {
            (Ok(list), Ok(buffer)) => Ok(Arrivals {
                list,
                patience,
                buffer,
                busy: false,
                next_moment: Duration::MAX,
                heard: Duration::ZERO,
                large: LargeAnswers::new(alloc),
                put_off: 0,
                passed: 0,
            }),
            _ => Err(Failed),
        }
    }

    pub fn len(&self) -> usize {
        self.list.len()
    }

    /// The moment at which the next turn may find something.
    pub fn next_moment(&self, now: Duration) -> Duration {
        if self.busy { now } else { self.next_moment }
    }

    /// Whether a turn would find nothing, and nothing has come of any for a while.
    pub fn is_quiet(&self, now: Duration) -> bool {
        let until = self
            .heard
            .saturating_add(Duration::from_millis(QUIET_MILLIS));
        !self.busy && !self.has_put_off() && until <= now && now < self.next_moment
    }

    /// Takes one in. Where there are as many as there can be, the one that has been silent longest is lost and given back.
    pub fn admit(&mut self, mut fresh: Incoming<S>) -> Option<Incoming<S>> {
        let mut lost = None;
        if self.list.len() >= MOST_INCOMING {
            lost = self.remove_silent();
        }
        if self.list.len() < MOST_INCOMING {
            self.busy = self.busy || fresh.ready;
            self.next_moment = self.next_moment.min(fresh.last_moment(self.patience));
            self.heard = self.heard.max(fresh.heard);
            let _ = self.list.push(fresh);
            return lost;
        }
        fresh.lose();
        Some(fresh)
    }

    /// Takes one in whose request has come, where it is put off; else gives it back.
    pub fn put_off(&mut self, fresh: Incoming<S>) -> Option<Incoming<S>> {
        if !fresh.is_put_off() || self.put_off >= MOST_PUT_OFF || self.list.len() >= MOST_INCOMING {
            return Some(fresh);
        }
        self.put_off += 1;
        let _ = self.list.push(fresh);
        None
    }

    pub fn has_put_off(&self) -> bool {
        self.put_off > 0
    }

    /// Notes that another one is given out while some are put off.
    pub fn pass(&mut self, given: &Incoming<S>) {
        if self.has_put_off() && given.progress == Progress::Come {
            self.passed = self.passed.saturating_add(1);
        }
    }

    /// Whether as many others were given out as may be before one that is put off.
    pub fn is_due(&self) -> bool {
        self.has_put_off() && self.passed >= MOST_PASSED
    }

    /// The first of those that are put off.
    pub fn take_put_off(&mut self, now: Duration) -> Option<Incoming<S>> {
        self.passed = 0;
        let found = first_of(&self.list, Rank::Later).or(first_of(&self.list, Rank::Last));
        match found {
            Some(at) if at < self.list.len() => {
                self.put_off = self.put_off.saturating_sub(1);
                let mut given = self.list.remove(at);
                given.prolong(now);
                Some(given)
            }
            _ => {
                self.put_off = 0;
                None
            }
        }
    }

    /// Notes of how many bytes the answer to the request was, and whether it failed: requests like one whose answer was large are
    /// put off.
    pub fn note(&mut self, request: &[u8], written: u64, failed: bool) {
        if self.large.note(request, written, failed) {
            rank_all(&mut self.list, &self.large);
            self.busy = true;
        }
    }

    /// Reads once from one that is not among these, where a read may give something.
    pub fn step(&mut self, fresh: &mut Incoming<S>, now: Duration) {
        step_one(fresh, &mut self.buffer, &self.large, now, self.patience);
    }

    fn remove_silent(&mut self) -> Option<Incoming<S>> {
        match longest_silent(&self.list, 0) {
            Some(at) if at < self.list.len() => {
                let mut lost = self.list.remove(at);
                lost.lose();
                Some(lost)
            }
            _ => None,
        }
    }

    /// Reads once from each from which a read may give something. The first that waits for nothing more, and is not put off, is
    /// given out.
    pub fn turn(&mut self, now: Duration) -> Option<Incoming<S>> {
        if !self.busy && now < self.next_moment {
            return None;
        }
        let survey = step_all(
            &mut self.list,
            &mut self.buffer,
            &self.large,
            now,
            self.patience,
        );
        self.busy = survey.busy;
        self.put_off = survey.put_off;
        self.next_moment = survey.next_moment;
        self.heard = survey.heard;
        if survey.bytes > MOST_OF_ALL {
            self.busy = true;
            trim(&mut self.list);
        }
        match survey.done {
            Some(at) if at < self.list.len() => Some(self.list.remove(at)),
            _ => None,
        }
    }

    /// Notes that a read from this descriptor may give something, and answers whether it is one of these.
    pub fn mark(&mut self, fd: RawFd) -> bool {
        let found = mark(&mut self.list, fd);
        self.busy = self.busy || found;
        found
    }
}

fn zeroes(alloc: Global) -> Result<Vec<u8>, AllocError> {
    let mut buffer = Vec::new(alloc);
    buffer.resize(BUFFER_SIZE, 0)?;
    Ok(buffer)
}

// What a turn found.
#[derive(Clone, Copy)]
struct Survey {
    // The index of the first that waits for nothing more, and is not put off.
    done: Option<usize>,

    // How many are put off.
    put_off: usize,

    // Whether a further turn may read something, or give one out.
    busy: bool,
    next_moment: Duration,
    heard: Duration,
    bytes: usize,
}

fn step_all<S: Read + OpenStream + AsRawFd + Drop>(
    list: &mut [Incoming<S>],
    buffer: &mut [u8],
    large: &LargeAnswers,
    now: Duration,
    patience: Duration,
) -> Survey {
    let mut survey = Survey {
        done: None,
        put_off: 0,
        busy: false,
        next_moment: Duration::MAX,
        heard: Duration::ZERO,
        bytes: 0,
    };
    for at in 0..list.len() {
        let one = &mut list[at];
        step_one(one, buffer, large, now, patience);
        if one.progress == Progress::Awaited {
            survey.busy = survey.busy || one.ready;
            survey.next_moment = survey.next_moment.min(one.last_moment(patience));
            survey.heard = survey.heard.max(one.heard);
            survey.bytes = survey.bytes.saturating_add(one.came.len());
        } else if one.is_put_off() && survey.put_off < MOST_PUT_OFF {
            survey.put_off += 1;
        } else if survey.done.is_none() {
            survey.done = Some(at);
        } else {
            survey.busy = true;
        }
    }
    survey
}

// Reads once, where that may give something; with the last of its request it gets its rank.
fn step_one<S: Read + OpenStream + AsRawFd + Drop>(
    one: &mut Incoming<S>,
    buffer: &mut [u8],
    large: &LargeAnswers,
    now: Duration,
    patience: Duration,
) {
    if one.progress != Progress::Awaited {
        return;
    }
    one.step(buffer, now, patience);
    if one.progress == Progress::Come {
        one.rank = large.rank_of(&one.came);
    }
}

fn rank_all<S: Drop>(list: &mut [Incoming<S>], large: &LargeAnswers) {
    for one in list {
        if one.progress == Progress::Come {
            one.rank = large.rank_of(&one.came);
        }
    }
}

// The index of the first that is put off and has this rank.
fn first_of<S: Read + OpenStream + AsRawFd + Drop>(
    list: &[Incoming<S>],
    rank: Rank,
) -> Option<usize> {
    list.iter()
        .position(|one| one.is_put_off() && one.rank == rank)
}

// Where too many bytes are kept, those that have been silent longest are lost.
fn trim<S: Read + OpenStream + AsRawFd + Drop>(list: &mut [Incoming<S>]) {
    for _ in 0..list.len() {
        if bytes_of(list) <= MOST_OF_ALL {
            return;
        }
        match longest_silent(list, 1) {
            Some(at) if at < list.len() => list[at].lose(),
            _ => return,
        }
    }
}

fn bytes_of<S: Drop>(list: &[Incoming<S>]) -> usize {
    let mut sum = 0usize;
    for one in list {
        sum = sum.saturating_add(one.came.len());
    }
    sum
}

// The one that has been silent longest, of those of which at least so many bytes came.
fn longest_silent<S: Read + OpenStream + AsRawFd + Drop>(
    list: &[Incoming<S>],
    least: usize,
) -> Option<usize> {
    let mut found = None;
    let mut since = Duration::MAX;
    for at in 0..list.len() {
        let one = &list[at];
        if one.is_silent_since(since) && one.came.len() >= least {
            since = one.heard;
            found = Some(at);
        }
    }
    found
}

fn mark<S: Read + OpenStream + AsRawFd + Drop>(list: &mut [Incoming<S>], fd: RawFd) -> bool {
    for one in list.iter_mut().rev() {
        if one.fd() == fd {
            one.ready = true;
            return true;
        }
    }
    false
}
