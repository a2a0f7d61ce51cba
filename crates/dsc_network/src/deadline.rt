//! The moment by which an exchange has to end.
use dsc_outside::Failed;
use std::time::{Clock, Duration};

/// A moment of the monotonic clock.
#[derive(Clone, Copy)]
pub struct Deadline {
    end: Duration,
}

impl Deadline {
    /// The moment that is this span after now.
    pub fn after<R: Clock>(clock: &R, span: Duration) -> Result<Deadline, Failed> {
        match clock.monotonic() {
            Ok(now) => Ok(Deadline {
                end: now.saturating_add(span),
            }),
            Err(_) => Err(Failed),
        }
    }

    /// Later by this span.
    pub fn later(self, span: Duration) -> Deadline {
        Deadline {
            end: self.end.saturating_add(span),
        }
    }

    /// The earlier of the two.
    pub fn or_earlier(self, other: Deadline) -> Deadline {
        Deadline {
            end: self.end.min(other.end),
        }
    }

    /// How long it is until then, which is longer than nothing; `Failed` where it is past.
    pub fn left<R: Clock>(self, clock: &R) -> Result<Duration, Failed> {
        let Ok(now) = clock.monotonic() else {
            return Err(Failed);
        };
        let left = self.end.saturating_sub(now);
        if left.is_zero() {
            return Err(Failed);
        }
        Ok(left)
    }
}
