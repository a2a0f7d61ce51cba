//! How a run of the server ends.
ghost use Rattle.std.specs.Prelude.{◌≡◌};
ghost use Rattle.pull_serving.specs.Status.{number_of, status_of};

use pull_store::PullError;

/// How a run ended.
#[derive(Clone, Copy, Debug, PartialEq, Eq)]
pub enum ServeStatus {
    Done,

    /// The arguments are not those of the server.
    Usage,

    /// The store's file is no store of a server, since its bytes from this one on are not.
    NotAStore { at: u64 },

    DiskFault,
    DoorFault,
    WriteFault,
    Memory,
}

impl ServeStatus {
    /// The number with which a program ends.
    pub fn number(&self) -> u8
        ensures { result ≡ number_of self.now }
    {
        match self {
            ServeStatus::Done => 0,
            ServeStatus::Usage => 2,
            ServeStatus::NotAStore { .. } => 5,
            ServeStatus::DiskFault | ServeStatus::DoorFault | ServeStatus::WriteFault => 4,
            ServeStatus::Memory => 8,
        }
    }
}

/// How a store that does not open ends the run; an opening answers `NotAStore`, `Memory` and `Disk` alone.
pub fn status_of(error: PullError) -> ServeStatus
    ensures { result ≡ status_of error }
{
    match error {
        PullError::NotAStore { at } => ServeStatus::NotAStore { at },
        PullError::Memory => ServeStatus::Memory,
        PullError::Disk
        | PullError::Spent
        | PullError::Agents
        | PullError::NoAgent
        | PullError::Full { .. } => ServeStatus::DiskFault,
    }
}
