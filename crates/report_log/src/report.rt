//! The report of a run, and what it is made from.
use mof_values::{Items, Text};

/// What a run came to.
#[derive(Clone, Copy, Debug, PartialEq, Eq)]
pub enum Outcome {
    /// Every resource succeeded.
    Success,

    /// Some resource did not succeed.
    Failure,

    /// The run ended with a Set that asked for a reboot.
    Reboot,
}

/// Why a resource could not be tested or set.
#[derive(Clone, Copy, Debug, PartialEq, Eq)]
pub enum FailureKind {
    NoSuchResource,
    OutOfProfile,
    BadPath,
    InTheWay,
    HostFailed,
}

/// Why a resource did not succeed.
#[derive(Clone, Copy, Debug, PartialEq, Eq)]
pub enum Reason {
    /// Its last call is a Test that answered no.
    NotInDesiredState,

    /// Its last call ended with a fault.
    Failed(FailureKind),

    /// It was not called in a run that did not end with a reboot.
    Skipped,

    /// Its last call is a Set that asked for a reboot.
    RebootAsked,

    /// It was not called in a run that ended with a reboot.
    NotReached,
}

/// A resource that did not succeed.
#[derive(Debug, Drop)]
pub struct Missed {
    /// Its ResourceID, as spelled.
    pub id: Text,

    /// Why it did not.
    pub reason: Reason,
}

/// A part of the run's document.
#[derive(Debug, Drop)]
pub struct PartMark {
    /// Its name, as spelled.
    pub name: Text,

    /// The SHA-256 digest of its bytes.
    pub digest: [u8; 32],
}

/// What a report says besides the trace.
#[derive(Debug, Drop)]
pub struct Frame {
    /// The number of the job.
    pub job: u64,

    /// The run is of the document that is pending.
    pub initial: bool,

    /// The refresh mode is Pull.
    pub pull: bool,

    /// When the run started, in seconds since 1970-01-01T00:00:00Z.
    pub start: u64,

    /// When it ended, in the same seconds.
    pub end: u64,

    pub parts: Items<PartMark>,
}

/// The report of a run.
#[derive(Debug, Drop)]
pub struct Report {
    /// The number of the job.
    pub job: u64,

    /// The run is of the document that is pending.
    pub initial: bool,

    /// The refresh mode is Pull.
    pub pull: bool,

    /// When the run started, in seconds since 1970-01-01T00:00:00Z.
    pub start: u64,

    /// When it ended, in the same seconds.
    pub end: u64,

    /// The document's version.
    pub version: Text,

    pub outcome: Outcome,

    /// How many resources the document has.
    pub total: u32,

    /// How many of them did not succeed.
    pub missed: u32,

    /// The first 64 of those, in document order.
    pub listed: Items<Missed>,

    pub parts: Items<PartMark>,
}
