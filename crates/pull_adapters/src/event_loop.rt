//! The connections at a port, and the order in which they are served.
use crate::arrivals::Arrivals;
use crate::departures::Departures;
use crate::incoming::{Incoming, Progress};
use crate::listening::{Listening, SOON_MILLIS};
use crate::outgoing::Outgoing;
use crate::poll_door::DoorLimits;
use crate::unsent::Unsent;
use dsc_outside::Failed;
use mio::unix::SourceFd;
use mio::{Events, Interest, Poll, Token};
use pull_outside::LONGEST_ITEM;
use std::alloc::Global;
use std::net::{Net, OpenListener, OpenStream, TcpListener};
use std::os::fd::{AsFd, AsRawFd, RawFd};
use std::time::{Clock, Duration};

// The most descriptors that are reported at once.
const MOST_EVENTS: usize = 256;

// The most connections that are taken in one turn.
const MOST_TAKEN: usize = 64;

// How often a connection is read from that was just taken.
const FIRST_READS: usize = 4;

// The most bytes of an answer beside its item.
const LARGEST_HEAD: usize = 65_536;

// How long the first of these reads may wait, in milliseconds.
const FIRST_WAIT_MILLIS: u64 = 1;

// How long others may wait unseen while connections are served one after the other, in milliseconds.
const LOOK_MILLIS: u64 = 1;

#[derive(Drop)]
pub struct EventLoop<R: Net> {
    alloc: Global,
    limits: DoorLimits,
    poll: Poll,
    events: Events,
    listening: Listening<R::Listener>,
    arrivals: Arrivals<R::Stream>,
    departures: Departures<R::Stream>,

    // The moment of the last look at what is ready; none right after one.
    looked: Option<Duration>,

    // Whether connections come one soon after the other.
    flows: bool,

    // Whether the next connection's first read may wait. It may once after each request that came, so that clients that
    // send nothing cost no more waiting than there were others.
    may_wait: bool,
}

impl<R: Net + Clock> EventLoop<R>
where
    R::Listener: AsFd,
{
    /// Listens at the address.
    pub fn open(
        rt: &R,
        alloc: Global,
        address: &str,
        limits: DoorLimits,
    ) -> Result<EventLoop<R>, Failed> {
        let Ok(listener) = TcpListener::bind(rt, address) else {
            return Err(Failed);
        };
        let Ok(poll) = Poll::new(rt) else {
            return Err(Failed);
        };
        let Ok(events) = Events::with_capacity(alloc, MOST_EVENTS) else {
            return Err(Failed);
        };
        if !is_registered(&poll, listener.as_raw_fd(), Interest::READABLE) {
            return Err(Failed);
        }
        Ok(EventLoop {
            alloc,
            limits,
            poll,
            events,
            listening: Listening::new(listener)?,
            arrivals: Arrivals::new(alloc, limits.patience)?,
            departures: Departures::new(alloc, limits),
            looked: None,
            flows: false,
            may_wait: true,
        })
    }

    /// The first connection that waits for nothing more, beside that many that are being served.
    pub fn next(&mut self, rt: &R, out: usize) -> Result<Incoming<R::Stream>, Failed> {
        for _ in 0..u64::MAX {
            let given = if self.is_alone(out) {
                self.await_next(rt)?
            } else {
                self.turn(rt, out)?
            };
            if let Some(given) = given {
                self.may_wait = self.may_wait || given.progress == Progress::Come;
                return Ok(given);
            }
        }
        Err(Failed)
    }

    // Whether nothing can happen before a connection comes.
    fn is_alone(&self, out: usize) -> bool {
        out == 0
            && self.arrivals.len() == 0
            && self.departures.is_empty()
            && !self.listening.is_paused()
    }

    // Waits for a connection, and needs no report of what is ready.
    fn await_next(&mut self, rt: &R) -> Result<Option<Incoming<R::Stream>>, Failed> {
        let Some(stream) = self.listening.accept_waiting(rt)? else {
            return Ok(None);
        };
        let now = moment(rt)?;
        Ok(self.admit(stream, now))
    }

    // Does for each what can be done at once, and waits where that gives none.
    fn turn(&mut self, rt: &R, out: usize) -> Result<Option<Incoming<R::Stream>>, Failed> {
        let now = moment(rt)?;
        self.look(now)?;
        self.departures.turn(now);
        let has_place = self.departures.has_place(out);
        if has_place {
            if let Some(given) = self.first(now)? {
                return Ok(Some(given));
            }
        }
        self.wait(now, has_place)?;
        self.flows = moment(rt)?.saturating_sub(now) <= Duration::from_millis(SOON_MILLIS);
        Ok(None)
    }

    /// How many bytes of further answers can be kept.
    pub fn capacity(&self) -> usize {
        self.departures.capacity()
    }

    /// Notes of how many bytes the answer to the request was, and whether it failed.
    pub fn note(&mut self, request: &[u8], written: u64, failed: bool) {
        self.arrivals.note(request, written, failed);
    }

    /// Takes a connection that was served, with what its peer has not taken of its answer.
    pub fn part(&mut self, served: Outgoing<R::Stream>, left: Unsent) {
        let both = Interest::READABLE | Interest::WRITABLE;
        let is_reported = if served.registered {
            is_registered_anew(&self.poll, served.fd(), both)
        } else {
            is_registered(&self.poll, served.fd(), both)
        };
        if is_reported {
            self.departures.add(served, left);
        }
    }

    /// Listens no longer, and goes on until each answer is taken, or its time is over. Answers how many connections are let go
    /// that came and were not given out.
    pub fn finish(self, rt: &R) -> usize {
        let EventLoop {
            mut poll,
            mut events,
            mut listening,
            arrivals,
            mut departures,
            ..
        } = self;
        let let_go = arrivals.len().saturating_add(listening.refuse_all());
        drop(listening);
        drop(arrivals);
        let _ = drain(rt, &mut poll, &mut events, &mut departures);
        let_go
    }

    // The first that waits for nothing more. One that is put off goes after the others, or after many of them.
    fn first(&mut self, now: Duration) -> Result<Option<Incoming<R::Stream>>, Failed> {
        if self.arrivals.is_due() {
            if let Some(given) = self.first_put_off(now) {
                return Ok(Some(given));
            }
        }
        if let Some(given) = self.first_of_others(now)? {
            self.arrivals.pass(&given);
            return Ok(Some(given));
        }
        Ok(self.first_put_off(now))
    }

    // An answer that is likely to be large is not made before it can be kept, so that its write waits for no peer.
    fn first_put_off(&mut self, now: Duration) -> Option<Incoming<R::Stream>> {
        if !self.arrivals.has_put_off() || self.capacity() <= LONGEST_ITEM + LARGEST_HEAD {
            return None;
        }
        self.arrivals.take_put_off(now)
    }

    fn first_of_others(&mut self, now: Duration) -> Result<Option<Incoming<R::Stream>>, Failed> {
        if let Some(given) = self.arrivals.turn(now) {
            return Ok(Some(given));
        }
        for _ in 0..MOST_TAKEN {
            let Some(stream) = self.accept(now)? else {
                return Ok(None);
            };
            if let Some(given) = self.admit(stream, now) {
                return Ok(Some(given));
            }
        }
        Ok(None)
    }

    // The next connection, where one is there. Where connections come one soon after the other, and the others are quiet, it is
    // waited for, which takes fewer calls than a report that it is there.
    fn accept(&mut self, now: Duration) -> Result<Option<R::Stream>, Failed> {
        if !self.flows || !self.is_quiet(now) {
            return self.listening.accept(now);
        }
        let taken = self.listening.accept_soon(now)?;
        self.flows = taken.is_some();
        Ok(taken)
    }

    // Whether nothing is likely to happen soon, but that a connection comes.
    fn is_quiet(&self, now: Duration) -> bool {
        self.departures.is_empty() && self.arrivals.is_quiet(now) && !self.listening.is_paused()
    }

    // Reads what is there at once, or in a moment. Where more has to come, or its request is put off, it waits with the others, and
    // another one may be lost for it.
    fn admit(&mut self, stream: R::Stream, now: Duration) -> Option<Incoming<R::Stream>> {
        let end = now.saturating_add(self.limits.whole);
        let mut fresh = Incoming::new(self.alloc, stream, now, end);
        self.read_first(&mut fresh, now);
        if fresh.progress != Progress::Awaited {
            return self.arrivals.put_off(fresh);
        }
        if !is_registered(&self.poll, fresh.fd(), Interest::READABLE) {
            fresh.lose();
            return Some(fresh);
        }
        fresh.registered = true;
        self.arrivals.admit(fresh)
    }

    // Reads from one that was just taken, and blocks. From then on it does not.
    fn read_first(&mut self, fresh: &mut Incoming<R::Stream>, now: Duration) {
        let first_wait = Duration::from_millis(FIRST_WAIT_MILLIS);
        let waits = self.may_wait && fresh.stream.set_read_timeout(Some(first_wait)).is_ok();
        if waits {
            self.may_wait = false;
            self.arrivals.step(fresh, now);
        }
        if fresh.stream.set_nonblocking(true).is_err() {
            fresh.lose();
            return;
        }
        for _ in 0..FIRST_READS {
            if fresh.ready {
                self.arrivals.step(fresh, now);
            }
        }
    }

    // Where others wait, sees from time to time what is ready of them.
    fn look(&mut self, now: Duration) -> Result<(), Failed> {
        let Some(looked) = self.looked else {
            self.looked = Some(now);
            return Ok(());
        };
        let due = looked.saturating_add(Duration::from_millis(LOOK_MILLIS));
        if now < due || (self.arrivals.len() == 0 && self.departures.is_empty()) {
            return Ok(());
        }
        self.looked = Some(now);
        self.poll_for(Some(Duration::ZERO))
    }

    fn wait(&mut self, now: Duration, has_place: bool) -> Result<(), Failed> {
        let mut next = self.departures.next_moment(now);
        if has_place {
            next = next
                .min(self.arrivals.next_moment(now))
                .min(self.listening.next_moment());
        }
        self.looked = None;
        self.poll_for(until(next, now))
    }

    fn poll_for(&mut self, timeout: Option<Duration>) -> Result<(), Failed> {
        if self.poll.poll(&mut self.events, timeout).is_err() {
            return Err(Failed);
        }
        let listener = self.listening.fd();
        for event in &self.events {
            let fd = fd_of(event.token());
            if fd == listener {
                self.listening.mark();
            } else if !self.arrivals.mark(fd) {
                self.departures.mark(fd);
            }
        }
        Ok(())
    }
}

// Goes on until each answer is taken, or its time is over.
fn drain<R: Net + Clock>(
    rt: &R,
    poll: &mut Poll,
    events: &mut Events,
    departures: &mut Departures<R::Stream>,
) -> Result<(), Failed> {
    for _ in 0..u64::MAX {
        let now = moment(rt)?;
        departures.turn(now);
        if departures.is_empty() {
            return Ok(());
        }
        let timeout = until(departures.next_moment(now), now);
        if poll.poll(events, timeout).is_err() {
            return Err(Failed);
        }
        for event in &*events {
            departures.mark(fd_of(event.token()));
        }
    }
    Err(Failed)
}

fn moment<R: Clock>(rt: &R) -> Result<Duration, Failed> {
    match rt.monotonic() {
        Ok(now) => Ok(now),
        Err(_) => Err(Failed),
    }
}

// How long to wait until then.
fn until(next: Duration, now: Duration) -> Option<Duration> {
    if next == Duration::MAX {
        return None;
    }
    Some(next.saturating_sub(now))
}

fn is_registered(poll: &Poll, fd: RawFd, interest: Interest) -> bool {
    poll.registry()
        .register(&mut SourceFd(&fd), token_of(fd), interest)
        .is_ok()
}

fn is_registered_anew(poll: &Poll, fd: RawFd, interest: Interest) -> bool {
    poll.registry()
        .reregister(&mut SourceFd(&fd), token_of(fd), interest)
        .is_ok()
}

// A descriptor is its own token.
fn token_of(fd: RawFd) -> Token {
    match usize::try_from(fd) {
        Ok(number) => Token(number),
        Err(_) => Token(0),
    }
}

fn fd_of(token: Token) -> RawFd {
    match RawFd::try_from(token.0) {
        Ok(fd) => fd,
        Err(_) => -1,
    }
}
