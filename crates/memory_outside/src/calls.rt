//! The calls of a form in memory.
ghost use Rattle.std.specs.Prelude.{◌≡◌, ◌≤◌, ◌↔◌, IsTrue, IsErr, None, false};
ghost use Rattle.dsc_outside.specs.Causes.{HasCause, one_more};
ghost use Rattle.memory_outside.specs.Memory.{counted, course_of, done_at, is_stopped, is_to_fail, stopped_course, unstarted, with_fault, uncalled};
ghost use Rattle.memory_outside.specs.SharedStop.{met_at};
ghost use Rattle.memory_outside.specs.declared.stop.Course.TheVariants as courses;
ghost use Rattle.dsc_terms.specs.Counts.{Rose};

use crate::shared_stop::Turn;
use crate::stop::{Course, Done, Stop};
use dsc_outside::Failed;
use std::marker::Model;

/// Counts the calls of a form in memory, and fails those that are to fail, and all from a stop on.
#[derive(Drop)]
pub struct Calls {
    begun: u64,
    failing: Vec<u64>,
    stop: Option<Stop>,
    faults: u64,
}

impl Model for Calls {
    ghost use Rattle.memory_outside.specs.Memory.{CallCount};

    ghost Value = { CallCount };

    ghost view = { λ c. record { begun = c.begun; failing = c.failing.items; stop = c.stop; faults = c.faults } };
}

impl Calls {
    /// Calls that do not stop.
    pub fn new(failing: Vec<u64>) -> Calls
        ensures { result ≡ uncalled failing.items }
    {
        Calls::stopping(failing, None)
    }

    pub fn stopping(failing: Vec<u64>, stop: Option<Stop>) -> Calls
        ensures { result ≡ unstarted failing.items stop }
    {
        Calls {
            begun: 0,
            failing,
            stop,
            faults: 0,
        }
    }

    /// Answers whether the next call is to fail.
    pub fn is_to_fail(&self) -> bool
        ensures { result ≡ is_to_fail self.now }
    {
        self.failing.contains(&self.begun) || is_past(self.stop, self.begun)
    }

    /// Counts a call that begins, and fails it where its number is in the list or the stop has come.
    pub fn begin(&mut self) -> Result<(), Failed>
        ensures fails { IsErr result ↔ IsTrue (is_to_fail self.old) }
        ensures count { self.new ≡ counted self.old }
        ensures cause { HasCause self.old.faults self.new.faults result }
    {
        let number = self.begun;
        self.begun = self.begun.saturating_add(1);
        if self.failing.contains(&number) || is_past(self.stop, number) {
            self.faults = self.faults.saturating_add(1);
            return Err(Failed);
        }
        Ok(())
    }

    /// Counts a change that begins, and answers how it goes.
    pub fn begin_change(&mut self) -> Course
        ensures course { result ≡ course_of self.old }
        ensures count { self.new ≡ counted self.old }
        ensures later { self.old.faults ≤ self.new.faults }
        ensures cause { (result ≡ courses.Runs → ⊥) → Rose self.old.faults self.new.faults }
    {
        let done = done_in(self.stop, self.begun);
        match self.begin() {
            Ok(()) => Course::Runs,
            Err(Failed) => stopped(done),
        }
    }

    /// Sets the stop that the next call meets, which leaves that part of a change.
    pub fn meet(&mut self, turn: Turn, done: Done)
        ensures { self.new ≡ met_at turn done self.old }
    {
        match turn {
            Turn::Before => {}
            Turn::Within => {
                self.stop = Some(Stop {
                    call: self.begun,
                    done,
                });
            }
            Turn::After => {
                self.stop = Some(Stop {
                    call: 0,
                    done: Done::Nothing,
                });
            }
        }
    }

    /// Counts a failure of a call that began.
    pub fn add_fault(&mut self)
        ensures count { self.new ≡ with_fault self.old }
        ensures later { self.old.faults ≤ self.new.faults }
    {
        self.faults = self.faults.saturating_add(1);
    }
}

fn is_past(stop: Option<Stop>, number: u64) -> bool
    ensures { result ≡ is_stopped stop number }
{
    match stop {
        None => false,
        Some(stop) => stop.call <= number,
    }
}

fn done_in(stop: Option<Stop>, number: u64) -> Done
    ensures { result ≡ done_at stop number }
{
    match stop {
        Some(stop) if stop.call == number => stop.done,
        _ => Done::Nothing,
    }
}

fn stopped(done: Done) -> Course
    ensures { result ≡ stopped_course done }
{
    match done {
        Done::Nothing => Course::Fails,
        Done::Half => Course::StopsHalf,
        Done::All => Course::StopsWhole,
    }
}
