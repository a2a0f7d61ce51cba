//! The report of a run.
//!
//! `report_of` makes it of the run's trace: how many resources the document has, how many of them did not succeed, the
//! first 64 of these in document order with the reason of each, and what the run came to. It takes no memory: all that
//! it holds was made by `room_for` before the run. The layer above may rely on it that each reason is that of the
//! resource's last entry, and that the report is in size.
//!
//! Where a thing is:
//! - the report of a run: `specs/Report.antt`, `src/making.rt`; which reports are in size `specs/Sizes.antt`,
//!   `src/sizes.rt`; the limits `src/limits.rt`
#![tactic(auto)]

mod limits;
mod making;
mod marks;
mod report;
mod room;
mod sizes;

pub use limits::{LISTED_LIMIT, MAX_PARTS};
pub use making::report_of;
pub use report::{FailureKind, Frame, Missed, Outcome, PartMark, Reason, Report};
pub use room::{ReportRoom, room_for};
pub use sizes::is_in_size;
