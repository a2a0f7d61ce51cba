//! The machine that is configured.
ghost use Rattle.std.specs.Prelude.{◌≡◌, ℕ, Option};
ghost use Rattle.dsc_outside.specs.Causes.{HasCauseOf};
ghost use Rattle.dsc_outside.specs.Changes.{AddsEntry, PutsPackage, MakesFolder, PutsFile, PutsVariable, RemovesPath, RemovesVariable};
ghost use Rattle.dsc_outside.specs.Host.{HostState, IsState, LeavesBuffer, SaysEntry, SaysFile, SaysPackage, SaysReboot, Tells, TellsVariable};
ghost use Rattle.dsc_outside.specs.declared.host.HostError.TheVariants as errors;

use crate::Failed;
use std::alloc::{AllocError, AllocFailed};
use std::io::ErrorKind;
use std::{fmt, io};

/// Why a call of a host gave no answer.
#[derive(Clone, Copy, Debug, PartialEq, Eq)]
pub enum HostError {
    Failed,
    Memory,
}

impl From<Failed> for HostError {
    ghost from_gives = { λ _ e. e ≡ errors.Failed };

    fn from(_: Failed) -> Self {
        HostError::Failed
    }
}

/// `Memory` is an allocation of this program that failed. Where the system itself has no memory, the call failed.
impl From<io::Error> for HostError {
    fn from(error: io::Error) -> Self {
        if error.kind() == ErrorKind::OutOfMemory && error.raw_os_error().is_none() {
            HostError::Memory
        } else {
            HostError::Failed
        }
    }
}

impl From<AllocError> for HostError {
    ghost from_gives = { λ _ e. e ≡ errors.Memory };

    fn from(_: AllocError) -> Self {
        HostError::Memory
    }
}

impl<T: Drop> From<AllocFailed<T>> for HostError {
    ghost from_gives = { λ _ e. e ≡ errors.Memory };

    fn from(_: AllocFailed<T>) -> Self {
        HostError::Memory
    }
}

impl fmt::Display for HostError {
    fn fmt<W: fmt::Write>(&self, f: &mut fmt::Formatter<W>) -> fmt::Result {
        f.write_str(match self {
            HostError::Failed => "failed",
            HostError::Memory => "out of memory",
        })
    }
}

/// What stands at a path.
#[derive(Clone, Copy, Debug, PartialEq, Eq)]
pub enum PathState {
    Nothing,
    File,

    /// A folder with nothing in it.
    EmptyFolder,

    /// A folder with something in it.
    Folder,

    /// Neither a file nor a folder, as a link or a pipe.
    Other,
}

/// A machine: what stands at its paths, its environment variables, its log, its module packages, and the resources
/// that want a reboot.
///
/// A path is names joined by `/` under the machine's root: at least one name, none of them empty, and no `/` in
/// front. Names of variables and ids of resources stand folded: the caller folds them.
///
/// A look changes nothing. A change that fails, or runs out of memory, may leave its own path with what is below it, or
/// its own variable, in any state, and may have made folders above its path that were missing; an entry and a package
/// are added whole or not at all. Nothing else changes. A host may fail where a path is in the way of a change, as a
/// file above it is; one that does not then leaves what is above as it is.
pub trait Host {
    /// What the machine holds, where it is shown.
    ghost shown: { Self → Option HostState };

    /// How often a call has failed.
    ghost faults: { Self → ℕ };

    /// What stands at the path.
    fn path_state(&mut self, path: &str) -> Result<PathState, HostError>
        ensures answer { Tells (shown self.old) result (IsState path.now) }
        ensures shown { shown self.new ≡ shown self.old }
        ensures cause { HasCauseOf HostError.Failed (faults self.old) (faults self.new) result };

    /// Answers whether a file with exactly these bytes stands at the path.
    fn file_equals(&mut self, path: &str, bytes: &[u8]) -> Result<bool, HostError>
        ensures answer { Tells (shown self.old) result (SaysFile path.now bytes.now) }
        ensures shown { shown self.new ≡ shown self.old }
        ensures cause { HasCauseOf HostError.Failed (faults self.old) (faults self.new) result };

    /// Puts a file with these bytes at the path, in place of what was there, and makes the folders above it that are
    /// missing.
    fn put_file(&mut self, path: &str, bytes: &[u8]) -> Result<(), HostError>
        ensures change { PutsFile path.now bytes.now (shown self.old) (shown self.new) result }
        ensures cause { HasCauseOf HostError.Failed (faults self.old) (faults self.new) result };

    /// Makes a folder at the path, and the folders above it that are missing. A folder that is there stays with what
    /// is in it.
    fn make_dir(&mut self, path: &str) -> Result<(), HostError>
        ensures change { MakesFolder path.now (shown self.old) (shown self.new) result }
        ensures cause { HasCauseOf HostError.Failed (faults self.old) (faults self.new) result };

    /// Takes away what stands at the path, a folder with all that is in it.
    fn remove(&mut self, path: &str) -> Result<(), HostError>
        ensures change { RemovesPath path.now (shown self.old) (shown self.new) result }
        ensures cause { HasCauseOf HostError.Failed (faults self.old) (faults self.new) result };

    /// Appends the bytes of the environment variable of that name, and answers whether it is there.
    ///
    /// Where the variable is not there, or the call fails, nothing is appended.
    fn env_state(&mut self, name: &str, into: &mut Vec<u8>) -> Result<bool, HostError>
        ensures answer { TellsVariable (shown self.old) name.now result
            into.old.items into.new.items }
        ensures buffer { LeavesBuffer result into.old.items into.new.items }
        ensures shown { shown self.new ≡ shown self.old }
        ensures cause { HasCauseOf HostError.Failed (faults self.old) (faults self.new) result };

    /// Gives the environment variable of that name this value.
    fn env_put(&mut self, name: &str, value: &[u8]) -> Result<(), HostError>
        ensures change { PutsVariable name.now value.now (shown self.old) (shown self.new) result }
        ensures cause { HasCauseOf HostError.Failed (faults self.old) (faults self.new) result };

    /// Takes the environment variable of that name away, where it is there.
    fn env_remove(&mut self, name: &str) -> Result<(), HostError>
        ensures change { RemovesVariable name.now (shown self.old) (shown self.new) result }
        ensures cause { HasCauseOf HostError.Failed (faults self.old) (faults self.new) result };

    /// Answers whether the log has an entry of that id with exactly that message.
    fn log_has(&mut self, id: &str, message: &str) -> Result<bool, HostError>
        ensures answer { Tells (shown self.old) result (SaysEntry id.now message.now) }
        ensures shown { shown self.new ≡ shown self.old }
        ensures cause { HasCauseOf HostError.Failed (faults self.old) (faults self.new) result };

    /// Adds an entry at the end of the log.
    fn log_add(&mut self, id: &str, message: &str) -> Result<(), HostError>
        ensures change { AddsEntry id.now message.now (shown self.old) (shown self.new) result }
        ensures cause { HasCauseOf HostError.Failed (faults self.old) (faults self.new) result };

    /// Answers whether a package of that name and version is there.
    fn package_has(&mut self, name: &str, version: &str) -> Result<bool, HostError>
        ensures answer { Tells (shown self.old) result (SaysPackage name.now version.now) }
        ensures shown { shown self.new ≡ shown self.old }
        ensures cause { HasCauseOf HostError.Failed (faults self.old) (faults self.new) result };

    /// Adds a package at the end of the list.
    fn package_put(&mut self, name: &str, version: &str, bytes: &[u8]) -> Result<(), HostError>
        ensures change { PutsPackage name.now version.now bytes.now
            (shown self.old) (shown self.new) result }
        ensures cause { HasCauseOf HostError.Failed (faults self.old) (faults self.new) result };

    /// Answers whether the resource of that id wants a reboot.
    fn reboot_wanted(&mut self, id: &str) -> Result<bool, HostError>
        ensures answer { Tells (shown self.old) result (SaysReboot id.now) }
        ensures shown { shown self.new ≡ shown self.old }
        ensures cause { HasCauseOf HostError.Failed (faults self.old) (faults self.new) result };
}
