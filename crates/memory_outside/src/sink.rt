//! A sink in memory.
ghost use Rattle.std.specs.Prelude.{◌≡◌, ◌<◌, IfOk, Some, None, false, length, []};
ghost use Rattle.std.specs.Io.{WritesAtMost};
ghost use Rattle.std.specs.Io.KnownBytes.{WriteAppends};
ghost use Rattle.dsc_outside.specs.Causes.{HasCause};
ghost use Rattle.memory_outside.specs.Memory.{SinkWrites, uncalled};

use crate::calls::Calls;
use dsc_outside::{Ends, Failed, Sink};
use std::alloc::{AllocError, Global};
use std::marker::Model;

/// A sink that keeps what it takes. It takes each piece whole.
#[derive(Drop)]
pub struct MemorySink {
    bytes: Vec<u8>,
    short: bool,
    calls: Calls,
}

impl Model for MemorySink {
    ghost use Rattle.memory_outside.specs.Memory.{SinkInMemory};

    ghost Value = { SinkInMemory };

    ghost view = { λ s. record { held = s.bytes.items; short = s.short; calls = s.calls } };
}

impl MemorySink {
    /// A sink without bytes, whose calls of these numbers, counted from 0, are to fail.
    pub fn new(alloc: Global, failing: Vec<u64>) -> MemorySink
        ensures { result ≡ record { held = []; short = false; calls = uncalled failing.items } }
    {
        MemorySink {
            bytes: Vec::new(alloc),
            short: false,
            calls: Calls::new(failing),
        }
    }

    /// What was written.
    pub fn bytes(&self) -> &[u8]
        ensures { result.now ≡ self.now.held }
    {
        &self.bytes
    }

    /// Returns whether a call ran out of memory.
    pub fn short(&self) -> bool
        ensures { result ≡ self.now.short }
    {
        self.short
    }
}

impl Ends for MemorySink {
    ghost left = { λ s. None };

    ghost held = { λ s. Some s.held };

    ghost faults = { λ s. s.calls.faults };
}

impl Sink for MemorySink {
    fn write(&mut self, piece: &[u8]) -> Result<usize, Failed>
        ensures bound { WritesAtMost result piece.now }
        ensures progress { 0 < length piece.now → IfOk result (λ n. 0 < n) }
        ensures bytes { WriteAppends (Some self.old.held) (Some self.new.held) result piece.now }
        ensures cause { HasCause self.old.calls.faults self.new.calls.faults result }

        // Exactly when it fails, and exactly what it takes.
        ensures exact { SinkWrites self.old piece.now result self.new }
    {
        self.calls.begin()?;
        match self.bytes.extend_from_slice(piece) {
            Ok(()) => Ok(piece.len()),
            Err(AllocError) => {
                self.short = true;
                self.calls.add_fault();
                Err(Failed)
            }
        }
    }
}
