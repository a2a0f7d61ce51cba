//! Moments as texts.
ghost use Rattle.std.specs.Prelude.{◌≤◌, Some};
ghost use Rattle.dsc_outside.specs.Clock.{last_moment};
ghost use Rattle.pull_client.specs.Moments.{IsMomentText};

use arrayvec::ArrayString;
use jiff::Timestamp;
use jiff::fmt::temporal::DateTimePrinter;

/// A moment in seconds since 1970-01-01T00:00:00Z, as `YYYY-MM-DDThh:mm:ssZ` with this number of places of a fraction.
pub fn moment_text(moment: u64, places: u8) -> ArrayString<33>
    requires moment { moment ≤ last_moment }
    requires places { places ≤ 9 }
    ensures { IsMomentText (Some places) moment result.bytes }
{
    let instant = Timestamp::from_second(moment as i64).unwrap();
    DateTimePrinter::new()
        .precision(Some(places))
        .timestamp_text(instant.to_plain())
}
