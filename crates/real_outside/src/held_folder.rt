//! Folders that are held open.
ghost use Rattle.std.specs.Prelude.{◌≡◌, Err, IfOk, false, string_bytes};
ghost use Rattle.host_layout.specs.Layout.{is_single_name};
ghost use Rattle.real_outside.specs.Folders.{held_place};
ghost use Rattle.dsc_outside.specs.declared.host.HostError.TheVariants as errors;

use crate::identity::Identity;
use crate::names_below::{descriptor_path, open_folder};
use crate::spot::Spot;
use dsc_outside::{Failed, HostError};
use host_layout::is_single_name;
use std::alloc::{AllocError, Global};
use std::fs::OpenFile;
use std::io::ErrorKind;
use std::os::fd::{AsRawFd, OwnedFd};
use std::rt::Files;
use std::{fs, io};

/// A folder that is held open. Whoever moves it, or puts something else in its place, does not change what is reached
/// through it.
#[derive(Drop)]
pub struct HeldFolder {
    folder: OwnedFd,
    identity: Identity,

    // That of the descriptor, below /proc.
    path: String,
}

impl HeldFolder {
    /// Opens the folder that was seen at the spot. What has come in its place since then is a failure, and a link that has come
    /// is not followed.
    pub fn open<R: Files>(rt: &R, alloc: Global, spot: &Spot) -> Result<HeldFolder, HostError> {
        let folder = open_folder(spot.place.as_str())?;
        let path = descriptor_path(alloc, folder.as_raw_fd())?;
        let found = fs::metadata(rt, path.as_str())?;
        if !spot.is(&found) {
            return Err(HostError::Failed);
        }
        Ok(HeldFolder {
            folder,
            identity: Identity::of(&found),
            path,
        })
    }

    pub fn identity(&self) -> Identity {
        self.identity
    }

    /// The descriptor, which is open as long as the folder is held.
    pub fn descriptor(&self) -> &OwnedFd {
        &self.folder
    }

    /// The place of a name in the folder. What is not one plain name is a failure.
    pub fn place_of(&self, alloc: Global, name: &str) -> Result<String, HostError>
        ensures place { IfOk result (λ place. string_bytes place ≡ held_place (string_bytes self.now.path) name.now) }
        ensures refused { is_single_name name.now ≡ false → result ≡ Err errors.Failed }
    {
        if !is_single_name(name) {
            return Err(HostError::Failed);
        }
        let size = self.path.len().saturating_add(name.len());
        let mut place = String::with_capacity(alloc, size.saturating_add(1))?;
        place.push_str(self.path.as_str())?;
        place.push('/')?;
        place.push_str(name)?;
        Ok(place)
    }

    /// The place of the folder itself, by which its names are read.
    pub fn inside(&self, alloc: Global) -> Result<String, AllocError> {
        let mut place = String::from_str(alloc, self.path.as_str())?;
        place.push_str("/.")?;
        Ok(place)
    }

    /// Looks at a name in the folder, where the folder was just found at its path.
    pub fn look_inside<R: Files>(
        &self,
        rt: &R,
        alloc: Global,
        name: &str,
    ) -> Result<Spot, HostError> {
        Spot::look(rt, self.place_of(alloc, name)?)
    }

    /// Looks at a name in the folder.
    pub fn look<R: Files>(&self, rt: &R, alloc: Global, name: &str) -> Result<Spot, HostError> {
        let spot = self.look_inside(rt, alloc, name)?;
        if spot.seen.is_none() {
            self.confirm(rt)?;
        }
        Ok(spot)
    }

    /// Fails where the folder is not at its path, as without /proc: then nothing is found there, whatever it holds.
    pub fn confirm<R: Files>(&self, rt: &R) -> Result<(), Failed> {
        let found = fs::metadata(rt, self.path.as_str())?;
        if Identity::of(&found) == self.identity {
            Ok(())
        } else {
            Err(Failed)
        }
    }

    /// Opens the folder once more, as a file that can be synced.
    pub fn reopen<R: Files>(&self, rt: &R) -> io::Result<R::File> {
        fs::open(rt, self.path.as_str())
    }

    /// Puts on the disk which names the folder has. A file system that knows no sync of folders has nothing to do.
    pub fn sync<R: Files>(&self, rt: &R) -> io::Result<()> {
        sync_folder(rt, self.path.as_str())
    }
}

/// The same of the folder at that place.
pub fn sync_folder<R: Files>(rt: &R, place: &str) -> io::Result<()> {
    sync_opened(&fs::open(rt, place)?)
}

/// The same of the folder that is open.
pub fn sync_opened<F: OpenFile>(folder: &F) -> io::Result<()> {
    match folder.sync_all() {
        Err(e) if e.kind() == ErrorKind::InvalidInput => Ok(()),
        outcome => outcome,
    }
}
