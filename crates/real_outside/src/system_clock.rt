//! The clock of the system.
ghost use Rattle.std.specs.Prelude.{◌≡◌, ◌≤◌, IfOk};
ghost use Rattle.dsc_outside.specs.Causes.{HasCause, count_after};
ghost use Rattle.dsc_outside.specs.Clock.{last_moment};

use dsc_outside::{Clock, Failed, LAST_MOMENT};
use std::marker::Model;

/// The time of the system, in whole seconds. A time before 1970 and one past the last moment is a failure. A clause
/// sees the clock as the number of its calls that failed.
#[derive(Drop)]
pub struct SystemClock<R: std::time::Clock> {
    rt: R,
    faults: u64,
}

impl<R: std::time::Clock> Model for SystemClock<R> {
    ghost use Rattle.std.specs.Prelude.{ℕ};

    ghost Value = { ℕ };

    ghost view = { λ c. c.faults };
}

impl<R: std::time::Clock> SystemClock<R> {
    pub fn new(rt: R) -> SystemClock<R>
        ensures { result ≡ 0 }
    {
        SystemClock { rt, faults: 0 }
    }
}

// The whole seconds since 1970.
fn seconds<R: std::time::Clock>(rt: &R) -> Result<u64, Failed>
    ensures { IfOk result (λ t. t ≤ last_moment) }
{
    match rt.since_1970() {
        Ok(time) if time.as_secs() <= LAST_MOMENT => Ok(time.as_secs()),
        _ => Err(Failed),
    }
}

/// The time of the system, in whole seconds since 1970, or 0 where it gives none.
pub fn moment<R: std::time::Clock>(rt: &R) -> u64
    ensures { result ≤ last_moment }
{
    seconds(rt).unwrap_or(0)
}

impl<R: std::time::Clock> Clock for SystemClock<R> {
    ghost use Rattle.std.specs.Prelude.{None};

    ghost coming = { λ c. None };

    ghost faults = { λ c. c };

    fn now(&mut self) -> Result<u64, Failed>
        ensures moment { IfOk result (λ t. t ≤ last_moment) }
        ensures cause { HasCause self.old self.new result }
        ensures count { self.new ≡ count_after self.old result }
    {
        let outcome = seconds(&self.rt);
        if outcome.is_err() {
            self.faults = self.faults.saturating_add(1);
        }
        outcome
    }
}
