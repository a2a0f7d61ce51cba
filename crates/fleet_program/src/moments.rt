//! Moments before now.
ghost use Rattle.std.specs.Prelude.{◌≡◌, ◌*◌, option_map};

use dsc_outside::{Clock, Failed};
use real_outside::SystemClock;

/// The moment so many seconds before now, where a number is given, in seconds since 1970-01-01T00:00:00Z.
pub fn moment_before(rt: &HostRuntime, seconds: Option<u64>) -> Result<Option<u64>, Failed> {
    match seconds {
        Some(seconds) => {
            let now = SystemClock::new(rt).now()?;
            Ok(Some(now.saturating_sub(seconds)))
        }
        None => Ok(None),
    }
}

/// The seconds of so many hours.
pub fn seconds_of_hours(hours: Option<u32>) -> Option<u64>
    ensures { result ≡ option_map (λ hours. hours * 3600) hours }
{
    match hours {
        Some(hours) => Some(u64::from(hours) * 3_600),
        None => None,
    }
}

/// The seconds of so many days.
pub fn seconds_of_days(days: Option<u32>) -> Option<u64>
    ensures { result ≡ option_map (λ days. days * 86400) days }
{
    match days {
        Some(days) => Some(u64::from(days) * 86_400),
        None => None,
    }
}
