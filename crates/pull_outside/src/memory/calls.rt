//! The calls of a form in memory.
ghost use Rattle.std.specs.Prelude.{◌≡◌, ◌≤◌, ◌<◌, ◌↔◌, IsTrue, IsErr};
ghost use Rattle.dsc_outside.specs.Causes.{HasCause};
ghost use Rattle.dsc_terms.specs.Counts.{Rose};
ghost use Rattle.pull_outside.specs.Calls.{counted, is_to_fail, uncalled, with_fault};

use dsc_outside::Failed;
use std::marker::Model;

/// Counts the calls of a form in memory, and fails those that are to fail.
#[derive(Drop)]
pub struct Calls {
    begun: u64,
    failing: Vec<u64>,
    faults: u64,
}

impl Model for Calls {
    ghost use Rattle.pull_outside.specs.Calls.{CallCount};

    ghost Value = { CallCount };

    ghost view = { λ c. record { begun = c.begun; failing = c.failing.items; faults = c.faults } };
}

impl Calls {
    pub fn new(failing: Vec<u64>) -> Calls
        ensures { result ≡ uncalled failing.items }
    {
        Calls {
            begun: 0,
            failing,
            faults: 0,
        }
    }

    /// Counts a call that begins, and fails it where its number is in the list.
    pub fn begin(&mut self) -> Result<(), Failed>
        ensures fails { IsErr result ↔ IsTrue (is_to_fail self.old) }
        ensures count { self.new ≡ counted self.old }
        ensures cause { HasCause self.old.faults self.new.faults result }
    {
        let number = self.begun;
        self.begun = self.begun.saturating_add(1);
        if self.failing.contains(&number) {
            self.faults = self.faults.saturating_add(1);
            return Err(Failed);
        }
        Ok(())
    }

    /// Whether a call failed.
    pub fn failed(&self) -> bool
        ensures { IsTrue result ↔ (0 < self.now.faults) }
    {
        self.faults > 0
    }

    /// Counts a failure of a call that began.
    pub fn add_fault(&mut self)
        ensures count { self.new ≡ with_fault self.old }
        ensures cause { Rose self.old.faults self.new.faults }
        ensures later { self.old.faults ≤ self.new.faults }
    {
        self.faults = self.faults.saturating_add(1);
    }
}
