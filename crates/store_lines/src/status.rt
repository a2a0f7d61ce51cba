//! How the program ends.
ghost use Rattle.std.specs.Prelude.{◌≡◌};
ghost use Rattle.store_lines.specs.Status.{number_of, status_of, worse};

use pull_store::PullError;

/// How the program ended.
#[derive(Clone, Copy, Debug, PartialEq, Eq)]
pub enum FleetStatus {
    /// No machine failed, is silent or is stale.
    Healthy,

    /// Some machine is.
    Alarm,

    /// The arguments are not those of the program.
    Usage,

    /// An agent that is to be forgotten has no row.
    UnknownAgent,

    /// A file, the clock or the output failed.
    Fault,

    /// A file is no store of a server.
    NotAStore,

    /// The server of a store that is to forget agents runs.
    Running,

    Memory,
}

impl FleetStatus {
    /// The number with which the program ends.
    pub fn number(self) -> u8
        ensures { result ≡ number_of self }
    {
        match self {
            FleetStatus::Healthy => 0,
            FleetStatus::Alarm => 1,
            FleetStatus::Usage => 2,
            FleetStatus::UnknownAgent => 3,
            FleetStatus::Fault => 4,
            FleetStatus::NotAStore => 5,
            FleetStatus::Running => 6,
            FleetStatus::Memory => 8,
        }
    }

    /// The one of both that has the greater number.
    pub fn or(self, other: FleetStatus) -> FleetStatus
        ensures { result ≡ worse self other }
    {
        if self.number() < other.number() {
            other
        } else {
            self
        }
    }
}

/// The status of a store that does not open or does not forget; these answer `NotAStore`, `Memory` and `Disk` alone, and `Full` of
/// no real file.
pub fn status_of(error: PullError) -> FleetStatus
    ensures { result ≡ status_of error }
{
    match error {
        PullError::NotAStore { .. } => FleetStatus::NotAStore,
        PullError::Memory => FleetStatus::Memory,
        PullError::Disk
        | PullError::Spent
        | PullError::Agents
        | PullError::NoAgent
        | PullError::Full { .. } => FleetStatus::Fault,
    }
}
