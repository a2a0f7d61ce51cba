//! A listener that is asked only where a connection may be there.
use dsc_outside::Failed;
use std::io::{Error, ErrorKind};
use std::net::{OpenListener, TcpStream};
use std::os::fd::{AsFd, AsRawFd, RawFd};
use std::time::{Clock, Duration};

/// For how long the next connection is waited for that comes soon, in milliseconds; the system takes two ticks of its clock for
/// one that is shorter.
pub const SOON_MILLIS: u64 = 1;

// How long no connection is taken after the system refused one, in milliseconds.
const PAUSE_MILLIS: u64 = 100;

// How many connections are passed over at once that broke before they were taken.
const MOST_BROKEN: usize = 64;

// How many connections are refused at once.
const MOST_REFUSED: usize = 4096;

// What Linux answers where the listener itself cannot be used.
const BAD_DESCRIPTOR: i32 = 9;

const BAD_ADDRESS: i32 = 14;

const INVALID: i32 = 22;

const NO_SOCKET: i32 = 88;

#[derive(Drop)]
pub struct Listening<L: Drop> {
    listener: L,

    // Another descriptor of its socket. The longest time for which that waits is set by it, since a listener has no call for this.
    socket: TcpStream,

    // Whether it waits where no connection is there.
    blocks: bool,

    // Whether it then waits for a moment at most.
    limited: bool,

    // Whether a connection may be there. It is reported only once.
    may_accept: bool,

    // Before this moment none is taken.
    resume: Duration,
}

// What a listener gave.
enum Taken<S> {
    Stream(S),
    Nothing,

    // The system refused it.
    Refused,
}

impl<L: OpenListener + AsFd + AsRawFd + Drop> Listening<L> {
    /// Over a listener that blocks.
    pub fn new(listener: L) -> Result<Listening<L>, Failed> {
        let Ok(socket) = listener.as_fd().try_clone_to_owned() else {
            return Err(Failed);
        };
        Ok(Listening {
            listener,
            socket: TcpStream::from(socket),
            blocks: true,
            limited: false,
            may_accept: true,
            resume: Duration::ZERO,
        })
    }

    pub fn fd(&self) -> RawFd {
        self.listener.as_raw_fd()
    }

    /// Notes that a connection may be there.
    pub fn mark(&mut self) {
        self.may_accept = true;
    }

    /// The moment at which a connection may be taken.
    pub fn next_moment(&self) -> Duration {
        if self.may_accept {
            self.resume
        } else {
            Duration::MAX
        }
    }

    /// Whether none is taken for a moment.
    pub fn is_paused(&self) -> bool {
        !self.resume.is_zero()
    }

    /// The next connection, where one is there. One that broke before it was taken is passed over. Where the system has no
    /// descriptor or no memory for one, or the network fails, none is taken for a moment. It fails only where the listener
    /// itself cannot be used.
    pub fn accept(&mut self, now: Duration) -> Result<Option<L::Stream>, Failed> {
        if now < self.next_moment() {
            return Ok(None);
        }
        self.resume = Duration::ZERO;
        self.set_blocking(false)?;
        self.take_or_pause(now)
    }

    /// The same, but waits for the next connection where it comes soon.
    pub fn accept_soon(&mut self, now: Duration) -> Result<Option<L::Stream>, Failed> {
        self.set_limited(true)?;
        self.set_blocking(true)?;
        self.take_or_pause(now)
    }

    fn take_or_pause(&mut self, now: Duration) -> Result<Option<L::Stream>, Failed> {
        match self.take()? {
            Taken::Stream(stream) => Ok(Some(stream)),
            Taken::Nothing => Ok(None),
            Taken::Refused => {
                self.pause(now);
                Ok(None)
            }
        }
    }

    /// The same, but waits for the next connection as long as it takes.
    pub fn accept_waiting<R: Clock>(&mut self, rt: &R) -> Result<Option<L::Stream>, Failed> {
        self.set_limited(false)?;
        self.set_blocking(true)?;
        match self.take()? {
            Taken::Stream(stream) => Ok(Some(stream)),
            Taken::Nothing => Ok(None),
            Taken::Refused => match rt.monotonic() {
                Ok(now) => {
                    self.pause(now);
                    Ok(None)
                }
                Err(_) => Err(Failed),
            },
        }
    }

    fn take(&mut self) -> Result<Taken<L::Stream>, Failed> {
        for _ in 0..MOST_BROKEN {
            match self.listener.accept() {
                Ok((stream, _)) => return Ok(Taken::Stream(stream)),
                Err(e) if is_final(&e) => return Err(Failed),
                Err(e) => match e.kind() {
                    ErrorKind::ConnectionAborted | ErrorKind::Interrupted => {}
                    ErrorKind::WouldBlock => {
                        self.may_accept = false;
                        return Ok(Taken::Nothing);
                    }
                    _ => return Ok(Taken::Refused),
                },
            }
        }
        Ok(Taken::Nothing)
    }

    fn pause(&mut self, now: Duration) {
        self.resume = now.saturating_add(Duration::from_millis(PAUSE_MILLIS));
    }

    // While it blocks, what comes is taken and not reported.
    fn set_blocking(&mut self, blocks: bool) -> Result<(), Failed> {
        if self.blocks != blocks {
            if self.listener.set_nonblocking(!blocks).is_err() {
                return Err(Failed);
            }
            self.blocks = blocks;
            self.may_accept = true;
        }
        Ok(())
    }

    fn set_limited(&mut self, limited: bool) -> Result<(), Failed> {
        if self.limited != limited {
            let longest = Duration::from_millis(SOON_MILLIS);
            let time = if limited { Some(longest) } else { None };
            if self.socket.set_read_timeout(time).is_err() {
                return Err(Failed);
            }
            self.limited = limited;
        }
        Ok(())
    }

    /// Takes the connections that are there and closes them; answers how many these were.
    pub fn refuse_all(&mut self) -> usize {
        self.mark();
        self.resume = Duration::ZERO;
        for count in 0..MOST_REFUSED {
            if !matches!(self.accept(Duration::ZERO), Ok(Some(_))) {
                return count;
            }
        }
        MOST_REFUSED
    }
}

fn is_final(error: &Error) -> bool {
    matches!(
        error.raw_os_error(),
        Some(BAD_DESCRIPTOR | BAD_ADDRESS | INVALID | NO_SOCKET)
    )
}
