//! A clock that gives the time, or fails.
ghost use Rattle.std.specs.Prelude.{◌≤◌, ℕ, List, Option, IfOk};
ghost use Rattle.dsc_outside.specs.Causes.{HasCause};
ghost use Rattle.dsc_outside.specs.Clock.{TakesReading, last_moment};

use crate::Failed;

/// The greatest moment, in seconds since 1970-01-01T00:00:00Z.
pub const LAST_MOMENT: u64 = 253_402_207_200;

/// A clock. A reading that it cannot give is a failure.
pub trait Clock {
    /// The readings that it still gives, in order, where they are shown; one that is none is a failure.
    ghost coming: { Self → Option (List (Option ℕ)) };

    /// How often a call has failed.
    ghost faults: { Self → ℕ };

    /// The seconds since 1970-01-01T00:00:00Z, at most `LAST_MOMENT`.
    fn now(&mut self) -> Result<u64, Failed>
        ensures moment { IfOk result (λ t. t ≤ last_moment) }
        ensures reading { TakesReading (coming self.old) (coming self.new) result }
        ensures cause { HasCause (faults self.old) (faults self.new) result };
}
