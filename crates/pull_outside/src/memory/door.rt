//! A door in memory.
ghost use Rattle.std.specs.Prelude.{◌≡◌, ◌<◌, ◌≤◌, ◌+◌, false, IfOk, OnOk, OnErr};
ghost use Rattle.dsc_outside.specs.Causes.{HasCause};
ghost use Rattle.pull_outside.specs.Door.{GetsBack, TakesFirst};
ghost use Rattle.pull_outside.specs.Memory.{back_of, coming_of, counted_next, known, new_door};

use super::calls::Calls;
use super::conn::{ClosedConn, MemoryConn};
use crate::door::{Door, Parting};
use dsc_outside::Failed;
use mof_values::Memory;
use std::alloc::Global;
use std::marker::Model;

/// A door through which these connections come, and which keeps those that are handed back, each with its parting.
#[derive(Drop)]
pub struct MemoryDoor {
    coming: Vec<MemoryConn>,
    back: Vec<ClosedConn>,
    out: usize,
    calls: Calls,
}

impl Model for MemoryDoor {
    ghost use Rattle.std.specs.Prelude.{◌≤◌, ◌+◌, length, vec_capacity};
    ghost use Rattle.pull_outside.specs.Memory.{DoorInMemory};

    ghost Value = { DoorInMemory };

    ghost view = { λ d. record { coming = d.coming.items; back = d.back.items; out = d.out; calls = d.calls } };

    ghost invariant = { λ d. length d.back.items + d.out + length d.coming.items ≤ vec_capacity d.back };
}

impl MemoryDoor {
    /// A door whose calls of these numbers, counted from 0, are to fail. It reserves capacity for all its connections.
    pub fn new(
        alloc: Global,
        coming: Vec<MemoryConn>,
        failing: Vec<u64>,
    ) -> Result<MemoryDoor, Memory>
        ensures { IfOk result (λ door. door ≡ new_door coming.items failing.items) }
    {
        let back = Vec::with_capacity(alloc, coming.len())?;
        Ok(MemoryDoor {
            coming,
            back,
            out: 0,
            calls: Calls::new(failing),
        })
    }

    /// The connections that were handed back, in order, and how each is to end.
    pub fn back(&self) -> &[ClosedConn]
        ensures { result.now ≡ self.now.back }
    {
        &self.back
    }

    /// Answers whether a call failed because it ran out of memory. None does: the capacity was reserved before.
    pub fn short(&self) -> bool
        ensures { result ≡ false }
    {
        false
    }
}

impl Door for MemoryDoor {
    type Conn = MemoryConn;

    ghost coming = { coming_of };

    ghost back = { back_of };

    ghost out = { λ d. d.out };

    ghost faults = { λ d. d.calls.faults };

    fn next(&mut self) -> Result<MemoryConn, Failed>
        ensures taken { IfOk result (λ conn. TakesFirst (coming_of self.old) (coming_of self.new)
            (known conn)) }
        ensures kept { OnErr result (coming_of self.new ≡ coming_of self.old) }
        ensures back { back_of self.new ≡ back_of self.old }
        ensures given { OnOk result (self.new.out ≡ self.old.out + 1) }
        ensures not_given { OnErr result (self.new.out ≡ self.old.out) }
        ensures cause { HasCause self.old.calls.faults self.new.calls.faults result }

        // Exactly when it fails.
        ensures exact { self.new.calls ≡ counted_next self.old }
    {
        self.calls.begin()?;
        if self.coming.is_empty() {
            self.calls.add_fault();
            return Err(Failed);
        }
        self.out += 1;
        Ok(self.coming.remove(0))
    }

    fn close(&mut self, conn: MemoryConn, parting: Parting)
        requires { 0 < self.old.out }
        ensures back { GetsBack (back_of self.old) (back_of self.new)
            (record { known = known conn; parting = parting }) }
        ensures coming { coming_of self.new ≡ coming_of self.old }
        ensures out { self.old.out ≡ self.new.out + 1 }
        ensures count { self.old.calls.faults ≤ self.new.calls.faults }
    {
        self.out -= 1;
        match self.back.push(ClosedConn { conn, parting }) {
            Ok(()) => {}
            Err(_) => unreachable!(),
        }
    }
}
