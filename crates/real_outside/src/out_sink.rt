//! The sink that writes standard output.
ghost use Rattle.std.specs.Prelude.{◌≡◌, ◌<◌, IfOk, None, length};
ghost use Rattle.std.specs.Io.{WritesAtMost};
ghost use Rattle.dsc_outside.specs.Causes.{HasCause, count_after};

use dsc_outside::{Ends, Failed, Sink};
use std::io::{ErrorKind, Print};
use std::marker::Model;

/// Standard output, as a sink. Nothing is buffered: what a write took was handed to the system. A clause sees it as
/// the number of its calls that failed.
#[derive(Drop)]
pub struct OutSink<P: Print> {
    to: P,
    faults: u64,
}

impl<P: Print> Model for OutSink<P> {
    ghost use Rattle.std.specs.Prelude.{ℕ};

    ghost Value = { ℕ };

    ghost view = { λ s. s.faults };
}

impl<P: Print> OutSink<P> {
    pub fn new(to: P) -> OutSink<P>
        ensures { result ≡ 0 }
    {
        OutSink { to, faults: 0 }
    }
}

impl<P: Print> Ends for OutSink<P> {
    ghost left = { λ s. None };

    ghost held = { λ s. None };

    ghost faults = { λ s. s };
}

impl<P: Print> Sink for OutSink<P> {
    fn write(&mut self, piece: &[u8]) -> Result<usize, Failed>
        ensures bound { WritesAtMost result piece.now }
        ensures progress { 0 < length piece.now → IfOk result (λ n. 0 < n) }
        ensures cause { HasCause self.old self.new result }
        ensures count { self.new ≡ count_after self.old result }
    {
        let outcome = write_some(&self.to, piece);
        if outcome.is_err() {
            self.faults = self.faults.saturating_add(1);
        }
        outcome
    }
}

// Writes once, and again where a signal came between. To take nothing of a piece is a failure.
fn write_some<P: Print>(to: &P, piece: &[u8]) -> Result<usize, Failed>
    ensures bound { WritesAtMost result piece.now }
    ensures progress { 0 < length piece.now → IfOk result (λ n. 0 < n) }
{
    for _ in 0..u64::MAX {
        match to.write_some(piece) {
            Ok(0) if !piece.is_empty() => return Err(Failed),
            Ok(count) => return Ok(count),
            Err(e) if e.kind() == ErrorKind::Interrupted => {}
            Err(_) => return Err(Failed),
        }
    }
    Err(Failed)
}
