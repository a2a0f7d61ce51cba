//! A clock that stands.
ghost use Rattle.std.specs.Prelude.{◌≡◌, ◌≤◌, IfOk, None, Ok};
ghost use Rattle.dsc_outside.specs.Causes.{HasCause};
ghost use Rattle.dsc_outside.specs.Clock.{TakesReading, last_moment};

use dsc_outside::{Clock, Failed};
use std::marker::Model;

/// A clock that gives the same moment at each call, and never fails. A clause sees it as the moment.
#[derive(Drop)]
pub struct FixedClock {
    moment: u64,
}

impl Model for FixedClock {
    ghost use Rattle.std.specs.Prelude.{ℕ, ◌≤◌};
    ghost use Rattle.dsc_outside.specs.Clock.{last_moment};

    ghost Value = { ℕ };

    ghost view = { λ c. c.moment };

    ghost invariant = { λ c. c.moment ≤ last_moment };
}

impl FixedClock {
    /// A clock of this moment; takes no memory.
    pub fn at(moment: u64) -> FixedClock
        requires { moment ≤ last_moment }
        ensures { result ≡ moment }
    {
        FixedClock { moment }
    }
}

impl Clock for FixedClock {
    /// Its readings have no end, so they are not shown.
    ghost coming = { λ _. None };

    ghost faults = { λ _. 0 };

    fn now(&mut self) -> Result<u64, Failed>
        ensures moment { IfOk result (λ t. t ≤ last_moment) }
        ensures reading { TakesReading None None result }
        ensures cause { HasCause 0 0 result }
        ensures gives { result ≡ Ok self.old }
        ensures same { self.new ≡ self.old }
    {
        Ok(self.moment)
    }
}
