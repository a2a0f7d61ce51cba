//! Why a node was not registered, or a pull brought nothing.
ghost use Rattle.std.specs.Prelude.{◌≡◌};
ghost use Rattle.node_pull.specs.Errors.{error_of, host_error, staging_error};
ghost use Rattle.node_pull.specs.declared.error.PullFault.TheVariants.{Memory as OutOfMemory};

use dsc_outside::HostError;
use mof_values::Memory;
use node_state::{FitError, StageError};
use partial_merge::MergeError;
use pull_client::PeerError;
use std::alloc::{AllocError, AllocFailed};

/// Why what a server gave is refused.
#[derive(Debug, Drop, PartialEq)]
pub enum PeerFault {
    /// The answer to a request. `PeerError::Link` and `PeerError::Memory` are never reported so.
    Answer(PeerError),

    /// The parts are no document. `MergeError::Memory` is never reported so.
    Document(MergeError),

    /// The document of the parts does not fit the meta-configuration.
    Fit(FitError),

    /// The parts have more than 16,777,216 bytes together: this number.
    ListTooLong { bytes: u64 },
}

/// Why a node was not registered, or a pull brought nothing.
#[derive(Debug, Drop, PartialEq)]
pub enum PullFault {
    /// The link failed.
    Link,

    /// A call on the machine's packages failed.
    Host,

    /// What the server gave is refused.
    Refused(PeerFault),

    Memory,
}

impl From<AllocError> for PullFault {
    ghost from_gives = { λ _ e. e ≡ OutOfMemory };

    fn from(_: AllocError) -> Self {
        PullFault::Memory
    }
}

impl<T: Drop> From<AllocFailed<T>> for PullFault {
    ghost from_gives = { λ _ e. e ≡ OutOfMemory };

    fn from(_: AllocFailed<T>) -> Self {
        PullFault::Memory
    }
}

impl From<Memory> for PullFault {
    ghost from_gives = { λ _ e. e ≡ OutOfMemory };

    fn from(_: Memory) -> Self {
        PullFault::Memory
    }
}

// The error of a pull in which a request gave nothing.
pub(crate) fn error_of(error: PeerError) -> PullFault
    ensures { result ≡ error_of error }
{
    match error {
        PeerError::Link => PullFault::Link,
        PeerError::Memory => PullFault::Memory,
        other => PullFault::Refused(PeerFault::Answer(other)),
    }
}

// The error of a pull whose parts are not staged.
pub(crate) fn staging_error(error: StageError) -> PullFault
    ensures { result ≡ staging_error error }
{
    match error {
        StageError::Merge(refusal) => PullFault::Refused(PeerFault::Document(refusal)),
        StageError::Fit(misfit) => PullFault::Refused(PeerFault::Fit(misfit)),
        StageError::TooLong { bytes } => PullFault::Refused(PeerFault::ListTooLong { bytes }),
        StageError::Memory => PullFault::Memory,
    }
}

// The error of a pull in which a call on the machine's packages gave nothing.
pub(crate) fn host_error(error: HostError) -> PullFault
    ensures { result ≡ host_error error }
{
    match error {
        HostError::Failed => PullFault::Host,
        HostError::Memory => PullFault::Memory,
    }
}
