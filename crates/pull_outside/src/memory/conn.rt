//! A connection in memory.
ghost use Rattle.std.specs.Prelude.{◌≡◌, ◌<◌, ◌↔◌, IsErr, IsTrue, IfOk, Some, length, min, take};
ghost use Rattle.std.specs.Io.{ReadsAtMost, WritesAtMost};
ghost use Rattle.std.specs.Io.KnownBytes.{ReadConsumes, WriteAppends};
ghost use Rattle.dsc_outside.specs.Causes.{HasCause};
ghost use Rattle.pull_outside.specs.Calls.{counted, is_to_fail};
ghost use Rattle.pull_outside.specs.Conn.{ConnWrites, new_conn};

use super::calls::Calls;
use crate::door::Parting;
use dsc_outside::{Ends, Failed, Sink, Source};
use std::alloc::{AllocError, Global};
use std::marker::Model;

/// A connection that gives these bytes, piece by piece, and keeps what it takes.
#[derive(Drop)]
pub struct MemoryConn {
    bytes: Vec<u8>,
    at: usize,
    taken: Vec<u8>,
    most: usize,
    short: bool,
    calls: Calls,
}

impl Model for MemoryConn {
    ghost use Rattle.std.specs.Prelude.{◌≤◌, ◌<◌, drop, length};
    ghost use Rattle.pull_outside.specs.Conn.{ConnInMemory};

    ghost Value = { ConnInMemory };

    ghost view = { λ c. record { left = drop c.at c.bytes.items; held = c.taken.items; most = c.most; short = c.short; calls = c.calls } };

    ghost invariant = { λ c. (c.at ≤ length c.bytes.items) × (0 < c.most) };
}

impl MemoryConn {
    /// A connection that gives these bytes. Each call reads or writes at most `most` bytes; the calls of these numbers, counted
    /// from 0, are to fail.
    pub fn new(alloc: Global, bytes: Vec<u8>, most: usize, failing: Vec<u64>) -> MemoryConn
        requires { 0 < most }
        ensures { result ≡ new_conn bytes.items most failing.items }
    {
        MemoryConn {
            bytes,
            at: 0,
            taken: Vec::new(alloc),
            most,
            short: false,
            calls: Calls::new(failing),
        }
    }

    /// What was written.
    pub fn taken(&self) -> &[u8]
        ensures { result.now ≡ self.now.held }
    {
        &self.taken
    }

    /// Answers whether a call failed because it ran out of memory.
    pub fn short(&self) -> bool
        ensures { result ≡ self.now.short }
    {
        self.short
    }

    /// Answers whether a call failed, one that was to fail or one that ran out of memory.
    pub fn failed(&self) -> bool
        ensures { IsTrue result ↔ (0 < self.now.calls.faults) }
    {
        self.calls.failed()
    }
}

impl Ends for MemoryConn {
    ghost left = { λ c. Some c.left };

    ghost held = { λ c. Some c.held };

    ghost faults = { λ c. c.calls.faults };
}

impl Source for MemoryConn {
    fn read(&mut self, into: &mut [u8]) -> Result<usize, Failed>
        ensures bound { ReadsAtMost result into.new }
        ensures bytes { ReadConsumes (Some self.old.left) (Some self.new.left) result into.new }
        ensures held { Some self.new.held ≡ Some self.old.held }
        ensures cause { HasCause self.old.calls.faults self.new.calls.faults result }

        // Exactly when it fails, and exactly how much it gives.
        ensures fails { IsErr result ↔ IsTrue (is_to_fail self.old.calls) }
        ensures count { self.new.calls ≡ counted self.old.calls }
        ensures most { IfOk result (λ n. n
            ≡ min (min (length self.old.left) (length into.new)) self.old.most) }
    {
        self.calls.begin()?;
        let count = copy_front(&self.bytes[self.at..], into, self.most);
        self.at += count;
        Ok(count)
    }
}

impl Sink for MemoryConn {
    fn write(&mut self, piece: &[u8]) -> Result<usize, Failed>
        ensures bound { WritesAtMost result piece.now }
        ensures progress { 0 < length piece.now → IfOk result (λ n. 0 < n) }
        ensures bytes { WriteAppends (Some self.old.held) (Some self.new.held) result piece.now }
        ensures left { Some self.new.left ≡ Some self.old.left }
        ensures cause { HasCause self.old.calls.faults self.new.calls.faults result }

        // Exactly when it fails, and exactly what it takes.
        ensures exact { ConnWrites self.old piece.now result self.new }
    {
        self.calls.begin()?;
        let count = piece.len().min(self.most);
        match self.taken.extend_from_slice(&piece[..count]) {
            Ok(()) => Ok(count),
            Err(AllocError) => {
                self.short = true;
                self.calls.add_fault();
                Err(Failed)
            }
        }
    }
}

/// A connection that was handed back, and how it is to end.
#[derive(Drop)]
pub struct ClosedConn {
    pub conn: MemoryConn,
    pub parting: Parting,
}

// Copies as many bytes from the front as the slice takes, and at most `most`, and answers how many.
fn copy_front(from: &[u8], into: &mut [u8], most: usize) -> usize
    ensures most { result ≡ min (min (length from.now) (length into.new)) most }
    ensures front { take result into.new ≡ take result from.now }
{
    let count = from.len().min(into.len()).min(most);
    into[..count].copy_from_slice(&from[..count]);
    count
}
