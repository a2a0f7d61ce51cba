//! A source in memory.
ghost use Rattle.std.specs.Prelude.{◌≡◌, ◌<◌, ◌≤◌, ◌++◌, ◌↔◌, IsErr, IsTrue, IfOk, OnErr, Some, None, drop, false, length, min, take, []};
ghost use Rattle.std.specs.Io.{ReadsAtMost};
ghost use Rattle.std.specs.Io.KnownBytes.{ReadConsumes};
ghost use Rattle.dsc_outside.specs.Causes.{HasCause};
ghost use Rattle.memory_outside.specs.Memory.{counted, is_to_fail, uncalled};

use crate::calls::Calls;
use dsc_outside::{Ends, Failed, Source};
use std::marker::Model;

/// A source of given bytes. It gives as many as the slice takes.
#[derive(Drop)]
pub struct MemorySource {
    bytes: Vec<u8>,
    at: usize,
    calls: Calls,
}

impl Model for MemorySource {
    ghost use Rattle.std.specs.Prelude.{◌≤◌, drop, length};
    ghost use Rattle.memory_outside.specs.Memory.{SourceInMemory};

    ghost Value = { SourceInMemory };

    ghost view = { λ s. record { left = drop s.at s.bytes.items; calls = s.calls } };

    ghost invariant = { λ s. s.at ≤ length s.bytes.items };
}

impl MemorySource {
    /// A source of these bytes, whose calls of these numbers, counted from 0, are to fail.
    pub fn new(bytes: Vec<u8>, failing: Vec<u64>) -> MemorySource
        ensures { result ≡ record { left = bytes.items; calls = uncalled failing.items } }
    {
        MemorySource {
            bytes,
            at: 0,
            calls: Calls::new(failing),
        }
    }

    /// Returns whether a call ran out of memory. None does: a source keeps nothing.
    pub fn short(&self) -> bool
        ensures { result ≡ false }
    {
        false
    }
}

impl Ends for MemorySource {
    ghost left = { λ s. Some s.left };

    ghost held = { λ s. None };

    ghost faults = { λ s. s.calls.faults };
}

impl Source for MemorySource {
    fn read(&mut self, into: &mut [u8]) -> Result<usize, Failed>
        ensures bound { ReadsAtMost result into.new }
        ensures bytes { ReadConsumes (Some self.old.left) (Some self.new.left) result into.new }
        ensures cause { HasCause self.old.calls.faults self.new.calls.faults result }

        // Exactly when it fails, and exactly what it gives.
        ensures fails { IsErr result ↔ IsTrue (is_to_fail self.old.calls) }
        ensures count { self.new.calls ≡ counted self.old.calls }
        ensures most { IfOk result (λ n. n ≡ min (length self.old.left) (length into.new)) }
        ensures after { IfOk result (λ n. drop n into.new ≡ drop n into.old) }
        ensures nothing { OnErr result (into.new ≡ into.old) }
    {
        self.calls.begin()?;
        let count = copy_front(&self.bytes[self.at..], into);
        self.at += count;
        Ok(count)
    }
}

// Copies the front of the bytes until the slice is full, and answers how many.
fn copy_front(from: &[u8], into: &mut [u8]) -> usize
    ensures most { result ≡ min (length from.now) (length into.new) }
    ensures front { take result into.new ≡ take result from.now }
    ensures after { drop result into.new ≡ drop result into.old }
{
    let count = from.len().min(into.len());
    into[..count].copy_from_slice(&from[..count]);
    count
}
