//! A clock in memory.
ghost use Rattle.std.specs.Prelude.{◌≡◌, ◌≤◌, IfOk, IfSome, Some, drop, false};
ghost use Rattle.dsc_outside.specs.Causes.{HasCause};
ghost use Rattle.dsc_outside.specs.Clock.{TakesReading, last_moment};
ghost use Rattle.memory_outside.specs.Memory.{uncalled};
ghost use Rattle.memory_outside.specs.MemoryClock.{AreReadings, GivesReading, exposed_readings, first_reading};

use crate::calls::Calls;
use dsc_outside::{Clock, Failed};
use std::marker::Model;

/// A clock that gives these readings, each a moment or a failure, and fails once none is left.
#[derive(Drop)]
pub struct MemoryClock {
    readings: Vec<Option<u64>>,
    at: usize,
    calls: Calls,
}

impl Model for MemoryClock {
    ghost use Rattle.std.specs.Prelude.{drop};
    ghost use Rattle.memory_outside.specs.MemoryClock.{AreReadings, ClockInMemory};

    ghost Value = { ClockInMemory };

    ghost view = { λ c. record { readings = drop c.at c.readings.items; calls = c.calls } };

    ghost invariant = { λ c. AreReadings c.readings.items };
}

impl MemoryClock {
    /// A clock of these readings; none is a failure. Its calls of these numbers, counted from 0, are to fail, and
    /// each takes its reading all the same.
    pub fn new(readings: Vec<Option<u64>>, failing: Vec<u64>) -> MemoryClock
        requires { AreReadings readings.items }
        ensures { result ≡ record { readings = readings.items; calls = uncalled failing.items } }
    {
        MemoryClock {
            readings,
            at: 0,
            calls: Calls::new(failing),
        }
    }

    /// Answers whether a call ran out of memory. None does: a clock keeps nothing.
    pub fn short(&self) -> bool
        ensures { result ≡ false }
    {
        false
    }

    // The next reading, if one is left; it is taken.
    fn take_reading(&mut self) -> Option<u64>
        ensures reading { result ≡ first_reading self.old.readings }
        ensures bound { IfSome result (λ t. t ≤ last_moment) }
        ensures rest { self.new ≡
            record { readings = drop 1 self.old.readings; calls = self.old.calls } }
    {
        let reading = *self.readings.get(self.at)?;
        self.at += 1;
        reading
    }
}

impl Clock for MemoryClock {
    ghost coming = { exposed_readings };

    ghost faults = { λ c. c.calls.faults };

    fn now(&mut self) -> Result<u64, Failed>
        ensures moment { IfOk result (λ t. t ≤ last_moment) }
        ensures reading { TakesReading (exposed_readings self.old)
            (exposed_readings self.new) result }
        ensures cause { HasCause self.old.calls.faults self.new.calls.faults result }

        // Exactly when it fails, and what is left.
        ensures exact { GivesReading self.old result self.new }
    {
        let reading = self.take_reading();
        self.calls.begin()?;
        match reading {
            Some(moment) => Ok(moment),
            None => {
                self.calls.add_fault();
                Err(Failed)
            }
        }
    }
}
