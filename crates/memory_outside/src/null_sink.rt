//! A sink that keeps nothing.
ghost use Rattle.std.specs.Prelude.{◌≡◌, ◌<◌, IfOk, None, Ok, length};
ghost use Rattle.std.specs.Io.{WritesAtMost};
ghost use Rattle.std.specs.Io.KnownBytes.{WriteAppends};
ghost use Rattle.dsc_outside.specs.Causes.{HasCause};

use dsc_outside::{Ends, Failed, Sink};

/// A sink that takes each piece whole, keeps nothing, and never fails.
#[derive(Drop)]
pub struct NullSink;

impl Ends for NullSink {
    ghost left = { λ _. None };

    ghost held = { λ _. None };

    ghost faults = { λ _. 0 };
}

impl Sink for NullSink {
    fn write(&mut self, piece: &[u8]) -> Result<usize, Failed>
        ensures bound { WritesAtMost result piece.now }
        ensures progress { 0 < length piece.now → IfOk result (λ n. 0 < n) }
        ensures bytes { WriteAppends None None result piece.now }
        ensures cause { HasCause 0 0 result }
        ensures takes { result ≡ Ok (length piece.now) }
    {
        Ok(piece.len())
    }
}
