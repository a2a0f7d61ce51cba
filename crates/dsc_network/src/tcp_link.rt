//! A link that makes a TCP connection for each exchange.
ghost use Rattle.std.specs.Prelude.{◌≡◌, ◌<◌, ◌+◌, ◌≤◌, None, length};
ghost use Rattle.std.specs.Io.{StartsWith};
ghost use Rattle.dsc_outside.specs.Causes.{HasCauseOf};
ghost use Rattle.dsc_outside.specs.Link.{AddsExchange, LeavesAnswer, answer_limit};

use crate::deadline::Deadline;
use crate::line::Line;
use dsc_outside::{Failed, Link, LinkError, Peer};
use std::marker::Model;
use std::net::{Net, TcpStream, ToSocketAddrs};
use std::time::{Clock, Duration};

/// How long connecting to one address of a peer may take, in seconds.
pub const CONNECT_SECONDS: u64 = 10;

/// How long an exchange may take, with connecting to the peer, in seconds, and a microsecond more for each byte of the
/// answer that came.
pub const EXCHANGE_SECONDS: u64 = 30;

/// How long an exchange may take.
#[derive(Clone, Copy, Debug)]
pub struct LinkLimits {
    /// Connecting to one address of a peer.
    pub connect: Duration,

    /// All of the exchange, with connecting, and without what the bytes that come add.
    pub exchange: Duration,
}

/// A link over TCP. Each exchange has a connection of its own, to the first address of the peer that takes one: a host
/// is an address or a name, which the system looks up. The whole request is sent, and then all that comes is read until
/// the peer ends the connection. Each byte that comes lets the exchange take a microsecond more. A peer that cannot be
/// found or reached, that resets the connection, or that is not done in time, is a failure. The look-up of a name is the
/// system's, and has the system's own limit. A clause sees a link as the number of its calls that failed.
#[derive(Drop)]
pub struct TcpLink<R: Net + Clock> {
    rt: R,
    limits: LinkLimits,
    faults: u64,
}

impl<R: Net + Clock> Model for TcpLink<R> {
    ghost use Rattle.std.specs.Prelude.{ℕ};

    ghost Value = { ℕ };

    ghost view = { λ l. l.faults };
}

impl<R: Net + Clock> TcpLink<R> {
    /// A link whose exchanges take at most 30 seconds and a second more for each megabyte that comes, and 10 of these for
    /// connecting to one address.
    pub fn new(rt: R) -> TcpLink<R>
        ensures { result ≡ 0 }
    {
        TcpLink::with_limits(
            rt,
            LinkLimits {
                connect: Duration::from_secs(CONNECT_SECONDS),
                exchange: Duration::from_secs(EXCHANGE_SECONDS),
            },
        )
    }

    /// A link with these limits.
    pub fn with_limits(rt: R, limits: LinkLimits) -> TcpLink<R>
        ensures { result ≡ 0 }
    {
        TcpLink {
            rt,
            limits,
            faults: 0,
        }
    }
}

impl<R: Net + Clock> Link for TcpLink<R> {
    ghost use Rattle.std.proofs.Math.Nat.{le_refl, le_trans};

    ghost shown = { λ l. None };

    ghost faults = { λ l. l };

    /// Its count of faults does not fall.
    ghost may_become = { λ before after. before ≤ after };

    ghost stays = { λ l. le_refl l };

    ghost becomes_on = { λ a b c first then. le_trans first then };

    fn exchange(&mut self, to: &Peer, request: &[u8], answer: &mut Vec<u8>) -> Result<(), LinkError>
        ensures answer { LeavesAnswer result answer.old.items answer.new.items }
        ensures shown { AddsExchange None None to.now request.now result
            answer.old.items answer.new.items }
        ensures becomes { self.old ≤ self.new }
        ensures cause { HasCauseOf LinkError.Failed self.old self.new result }
    {
        let kept = answer.len();
        let outcome = talk(&self.rt, self.limits, to, request, answer);
        if outcome.is_err() {
            answer.truncate(kept);
        }
        if matches!(outcome, Err(LinkError::Failed)) {
            self.faults = self.faults.saturating_add(1);
        }
        outcome
    }
}

// Sends the request and appends the answer, or a part of it.
fn talk<R: Net + Clock>(
    rt: &R,
    limits: LinkLimits,
    to: &Peer,
    request: &[u8],
    answer: &mut Vec<u8>,
) -> Result<(), LinkError>
    ensures start { StartsWith answer.new.items answer.old.items }
    ensures limit { length answer.new.items < length answer.old.items + answer_limit }
{
    let host = to.host.to_utf8()?;
    let Ok(mut line) = connect(rt, limits, host.as_str(), to.port) else {
        return Err(LinkError::Failed);
    };
    match line.send(request) {
        Ok(()) => line.receive(answer),
        Err(_) => Err(LinkError::Failed),
    }
}

// Tries the addresses of the host in turn.
fn connect<'r, R: Net + Clock>(
    rt: &'r R,
    limits: LinkLimits,
    host: &str,
    port: u16,
) -> Result<Line<&'r R>, Failed> {
    let deadline = Deadline::after(rt, limits.exchange)?;
    let Ok(addresses) = (host, port).to_socket_addrs(rt) else {
        return Err(Failed);
    };
    for address in addresses {
        let left = deadline.left(rt)?;
        let longest = left.min(limits.connect);
        if let Ok(stream) = TcpStream::connect_timeout(rt, &address, longest) {
            return Ok(Line::new(rt, stream, deadline, limits.exchange));
        }
    }
    Err(Failed)
}
