//! A port at which many connections wait at once.
ghost use Rattle.std.specs.Prelude.{◌≡◌, ◌<◌, ◌≤◌, ◌+◌, IfOk, None, OnErr, OnOk};
ghost use Rattle.dsc_outside.specs.Causes.{HasCause};
ghost use Rattle.pull_adapters.specs.Doors.{none_shown, none_shown_back};
ghost use Rattle.pull_outside.specs.Door.{TakesFirst};

use crate::event_loop::EventLoop;
use crate::last_items::LastItems;
use crate::poll_conn::PollConn;
use dsc_outside::Failed;
use pull_outside::{Door, Parting};
use std::alloc::Global;
use std::marker::Model;
use std::net::Net;
use std::os::fd::AsFd;
use std::time::{Clock, Duration};

/// How long a connection may send or take nothing, in seconds.
pub const PATIENCE_SECONDS: u64 = 10;

/// How long a connection may be used, in seconds, and a microsecond more for each byte that the peer takes.
pub const WHOLE_SECONDS: u64 = 30;

/// How long a peer that still sends is read after a small answer, in seconds.
pub const LINGER_SECONDS: u64 = 5;

// The most connections that are given and not handed back.
const MOST_OUT: u64 = 256;

/// How long connections may take.
#[derive(Clone, Copy, Debug)]
pub struct DoorLimits {
    /// With nothing that comes or is taken.
    pub patience: Duration,

    /// In all, without what the bytes that the peer takes add.
    pub whole: Duration,

    /// After an answer that lies in the peer's queue, until the peer has ended its side.
    pub linger: Duration,
}

/// A port at which up to 256 connections wait at once, with at most 33,554,432 bytes of their requests. The first whose request
/// is whole, or refused, or that is ended is given out. One that failed or took too long is given out too, and its reads
/// fail; where there are too many connections or bytes, the one that has been silent longest is. The port is bound at the first
/// `next`; where that cannot be done, each `next` fails, and tries it again.
///
/// A request is put off where one like it was answered by a megabyte or more, so that those who ask for little wait for one such
/// answer at most: it is given out where no other has come whole, or after 64 others, and only while an answer of the longest can
/// be kept. Like it is one whose line is the same as far as the first parenthesis; of these the same line goes last. The 16 lines
/// last answered so are known. The time for which a connection is put off is not counted. At most 128 are.
///
/// What a peer does not take at once of its answer waits until it does, beside the service of others: up to 256 connections,
/// with at most 536,870,912 bytes, of which equal ones count once. Where there are as many, `next` waits until one is ended, and
/// where there are as many bytes, a write waits for its own peer: no answer is cut for it. A connection that is handed back
/// is closed at once only where it failed, its peer has ended, or it may end at once and its answer has at most 65,536 bytes,
/// which lie in the peer's queue as a whole. Any other gets its whole answer, also where its peer still sends. A clause
/// sees a door as how many connections it gave and has not back, and how often a call has failed.
#[derive(Drop)]
pub struct PollDoor<'r, R: Net + Clock> {
    port: Port<'r, R>,
    out: u64,
    faults: u64,
}

impl<'r, R: Net + Clock> Model for PollDoor<'r, R> {
    ghost use Rattle.pull_adapters.specs.Doors.{DoorCounts};

    ghost Value = { DoorCounts };

    ghost view = { λ d. record { out = d.out; faults = d.faults } };
}

impl<'r, R: Net + Clock> PollDoor<'r, R>
where
    R::Listener: AsFd,
{
    /// The door at an address, `HOST:PORT`, whose connections take at most 30 seconds and a second more for each megabyte
    /// that the peer takes, and 10 of these with nothing that comes or is taken. The items are those that a shelf gave last.
    pub fn new(rt: &'r R, alloc: Global, address: String, items: &'r LastItems) -> PollDoor<'r, R>
        ensures { result ≡ record { out = 0; faults = 0 } }
    {
        PollDoor::with_limits(
            rt,
            alloc,
            address,
            items,
            DoorLimits {
                patience: Duration::from_secs(PATIENCE_SECONDS),
                whole: Duration::from_secs(WHOLE_SECONDS),
                linger: Duration::from_secs(LINGER_SECONDS),
            },
        )
    }

    /// A door with limits of its own.
    pub fn with_limits(
        rt: &'r R,
        alloc: Global,
        address: String,
        items: &'r LastItems,
        limits: DoorLimits,
    ) -> PollDoor<'r, R>
        ensures { result ≡ record { out = 0; faults = 0 } }
    {
        PollDoor {
            port: Port {
                rt,
                alloc,
                address,
                items,
                limits,
                event_loop: None,
            },
            out: 0,
            faults: 0,
        }
    }

    /// Takes no more connections, and goes on until each answer is taken, or its time is over. Answers how many connections are
    /// let go that came and were not given out.
    pub fn finish(self) -> usize {
        let PollDoor { port, .. } = self;
        let Port { rt, event_loop, .. } = port;
        match event_loop {
            Some(event_loop) => event_loop.finish(rt),
            None => 0,
        }
    }
}

impl<'r, R: Net + Clock> Door for PollDoor<'r, R>
where
    R::Listener: AsFd,
{
    type Conn = PollConn<'r, R>;

    ghost coming = { λ d. none_shown };

    ghost back = { λ d. none_shown_back };

    ghost out = { λ d. d.out };

    ghost faults = { λ d. d.faults };

    fn next(&mut self) -> Result<PollConn<'r, R>, Failed>
        ensures taken { IfOk result (λ conn. TakesFirst none_shown none_shown
            (record { left = None; held = None; faults = conn })) }
        ensures kept { OnErr result (none_shown ≡ none_shown) }
        ensures given { OnOk result (self.new.out ≡ self.old.out + 1) }
        ensures not_given { OnErr result (self.new.out ≡ self.old.out) }
        ensures cause { HasCause self.old.faults self.new.faults result }
    {
        if self.out < MOST_OUT {
            if let Ok(conn) = self.port.take(self.out as usize) {
                self.out += 1;
                return Ok(conn);
            }
        }
        self.faults = self.faults.saturating_add(1);
        Err(Failed)
    }

    fn close(&mut self, conn: PollConn<'r, R>, parting: Parting)
        requires { 0 < self.old.out }
        ensures out { self.old.out ≡ self.new.out + 1 }
        ensures count { self.old.faults ≤ self.new.faults }
    {
        self.out -= 1;
        self.port.part(conn, matches!(parting, Parting::AtOnce));
    }
}

// An address, and what is there once it is bound.
#[derive(Drop)]
struct Port<'r, R: Net + Clock> {
    rt: &'r R,
    alloc: Global,
    address: String,
    items: &'r LastItems,
    limits: DoorLimits,
    event_loop: Option<EventLoop<R>>,
}

impl<'r, R: Net + Clock> Port<'r, R>
where
    R::Listener: AsFd,
{
    fn take(&mut self, out: usize) -> Result<PollConn<'r, R>, Failed> {
        let rt = self.rt;
        let (alloc, items, limits) = (self.alloc, self.items, self.limits);
        let event_loop = self.opened()?;
        let incoming = event_loop.next(rt, out)?;
        let capacity = event_loop.capacity();
        Ok(PollConn::new(rt, alloc, items, incoming, limits, capacity))
    }

    fn opened(&mut self) -> Result<&mut EventLoop<R>, Failed> {
        if self.event_loop.is_none() {
            let address = self.address.as_str();
            self.event_loop = Some(EventLoop::open(self.rt, self.alloc, address, self.limits)?);
        }
        match &mut self.event_loop {
            Some(event_loop) => Ok(event_loop),
            None => Err(Failed),
        }
    }

    fn part(&mut self, conn: PollConn<'r, R>, at_once: bool) {
        if let Some(event_loop) = &mut self.event_loop {
            event_loop.note(conn.came(), conn.written(), conn.has_failed());
        }
        if conn.is_over(at_once) {
            return;
        }
        let Ok(now) = self.rt.monotonic() else {
            return;
        };
        let (served, left) = conn.into_outgoing(now);
        if let Some(event_loop) = &mut self.event_loop {
            event_loop.part(served, left);
        }
    }
}
