//! Walking to a path below the host's folder, name by name, through folders that are held.
ghost use Rattle.std.specs.Prelude.{◌≡◌, ◌++◌, ◌∷◌, Err, IfOk, IfSome};
ghost use Rattle.real_outside.specs.declared.above.Above.TheVariants as ways;
ghost use Rattle.real_outside.specs.declared.spot.Kind.TheVariants as kinds;
ghost use Rattle.dsc_outside.specs.declared.host.HostError.TheVariants as errors;

use crate::held_folder::{HeldFolder, sync_folder};
use crate::identity::Identity;
use crate::machine_folder::MachineFolder;
use crate::names_below::{DELETED, real_path};
use crate::spot::{Kind, Spot};
use dsc_outside::HostError;
use std::alloc::AllocError;
use std::fs;
use std::fs::Metadata;
use std::io::ErrorKind;
use std::os::fd::{AsFd, AsRawFd};
use std::os::unix::fs::MetadataExt;
use std::path::PathBuf;
use std::rt::Files;

// The bits of a mode by which others than the owner write.
const WRITE_BITS: u32 = 0o022;

/// What the folders above a path are.
#[derive(Clone, Copy, Debug, PartialEq, Eq)]
pub enum Above {
    /// Each of them is there, and the last one is held.
    There,

    /// One is missing.
    Missing,

    /// A file, or something else that is neither a folder nor a link, is in the place of one.
    Blocked,
}

/// What the folders above a path are where the next of them is of that kind. A link is never followed: where one stands
/// above a path, it is not known what stands at it.
fn passed(kind: Kind) -> Result<Above, HostError>
    ensures link { kind ≡ kinds.Link → result ≡ Err errors.Failed }
    ensures there { IfOk result (λ above. above ≡ ways.There → kind ≡ kinds.Folder) }
    ensures missing { IfOk result (λ above. above ≡ ways.Missing → kind ≡ kinds.Nothing) }
{
    match kind {
        Kind::Folder => Ok(Above::There),
        Kind::Nothing => Ok(Above::Missing),
        Kind::File | Kind::Other => Ok(Above::Blocked),
        Kind::Link => Err(HostError::Failed),
    }
}

/// The folders above the path, and its last name.
pub fn split_path(path: &str) -> Option<(&str, &str)>
    ensures { IfSome result (λ parts. path.now ≡ parts.0.now ++ 47 ∷ parts.1.now) }
{
    path.rsplit_once('/')
}

impl<R: Files> MachineFolder<R>
where
    R::File: AsFd,
{
    /// Walks to the folders of that path. Those that are held and stand as they were found before stay so.
    pub(super) fn walk(&mut self, folders: &str) -> Result<Above, HostError> {
        self.written = None;
        self.is_free = false;
        let kept = self.count_kept(folders)?;
        self.ancestors.keep(kept);
        for name in folders.split('/').skip(self.ancestors.len()) {
            match self.step(name)? {
                Above::There => {}
                stop => return Ok(stop),
            }
        }
        Ok(Above::There)
    }

    // How many of the folders are held, and stand as they were found before. Where the path leads to the last of those that it
    // shares with the path before, and the system has that one at this path, no link is in it, and each of them stands.
    fn count_kept(&mut self, folders: &str) -> Result<usize, HostError> {
        let (count, end) = self.ancestors.shared(folders);
        let shared = folders.get(..end).unwrap_or("");
        let led = if count > 1 {
            self.led_to(shared, count)?
        } else {
            None
        };
        self.is_found = led.is_some() && self.stands(shared, count)?;
        self.is_kept = self.is_found && end == folders.len();
        self.is_roots = self.is_kept && led.is_some_and(|folder| is_roots(&folder));
        if self.is_found || count == 0 {
            Ok(count)
        } else {
            self.count_each(shared)
        }
    }

    // What that path leads to, where that is the last of that many folders, which is held.
    fn led_to(&self, folders: &str, count: usize) -> Result<Option<Metadata>, HostError> {
        let Some(folder) = self.ancestors.held(count) else {
            return Ok(None);
        };
        let place = self.place_in_host(folders)?;
        match fs::symlink_metadata(&self.rt, place.as_str()) {
            Ok(seen) if seen.is_dir() && Identity::of(&seen) == folder.identity() => Ok(Some(seen)),
            _ => Ok(None),
        }
    }

    /// Answers whether the system has the last of that many folders, which is held, at that path.
    pub(super) fn stands(&self, folders: &str, count: usize) -> Result<bool, HostError> {
        match self.ancestors.held(count) {
            Some(folder) => self.is_at(folder.descriptor().as_raw_fd(), folders),
            None => Ok(false),
        }
    }

    /// Answers whether the system has what is open under that number at that path, with no link in it.
    pub(super) fn is_at(&self, number: i32, path: &str) -> Result<bool, HostError> {
        if path.ends_with(DELETED) {
            return Ok(false);
        }
        let Some(wanted) = self.ancestors.real_path_of(self.alloc(), path)? else {
            return Ok(false);
        };
        match real_path(&self.rt, self.alloc(), number) {
            Ok(found) => Ok(found.as_str() == wanted.as_str()),
            Err(_) => Ok(false),
        }
    }

    // How many of the folders are held, and stand as they were found before: each is looked at in turn.
    fn count_each(&self, folders: &str) -> Result<usize, HostError> {
        let mut place = self.host_place(folders)?;
        let mut count = 0usize;
        for (name, ancestor) in folders.split('/').zip(self.ancestors.as_slice()) {
            place.push(name)?;
            match fs::symlink_metadata(&self.rt, place.as_str()) {
                Ok(seen) if seen.is_dir() && ancestor.is_held(name, Identity::of(&seen)) => {}
                _ => return Ok(count),
            }
            count = count.saturating_add(1);
        }
        Ok(count)
    }

    // Takes the next folder.
    fn step(&mut self, name: &str) -> Result<Above, HostError> {
        let spot = self.look_below(name)?;
        let above = passed(spot.kind())?;
        match above {
            Above::There => self.hold(name, &spot)?,
            Above::Missing => {}
            // Something else in the place of a folder that the host's folder has is a failure.
            Above::Blocked if self.ancestors.len() == 0 => return Err(HostError::Failed),
            Above::Blocked => {}
        }
        Ok(above)
    }

    // Holds the folder that was seen.
    fn hold(&mut self, name: &str, spot: &Spot) -> Result<(), HostError> {
        let alloc = self.alloc();
        let folder = HeldFolder::open(&self.rt, alloc, spot)?;
        let base = if self.ancestors.len() == 0 {
            real_path(&self.rt, alloc, folder.descriptor().as_raw_fd()).ok()
        } else {
            None
        };
        let base = base.map(|path| path.into_string());
        Ok(self.ancestors.push(alloc, name, folder, base)?)
    }

    // Looks at a name in the last folder, or in the host's.
    fn look_below(&self, name: &str) -> Result<Spot, HostError> {
        match self.ancestors.last()? {
            Some(folder) if self.is_found => folder.look_inside(&self.rt, self.alloc(), name),
            Some(folder) => folder.look(&self.rt, self.alloc(), name),
            None => Spot::look(&self.rt, self.place_in_host(name)?),
        }
    }

    pub(super) fn place_in_host(&self, path: &str) -> Result<String, HostError> {
        let mut place = self.host_place(path)?;
        place.push(path)?;
        Ok(place.into_string())
    }

    // The place of the host's folder, with capacity for that path in it.
    pub(super) fn host_place(&self, path: &str) -> Result<PathBuf, AllocError> {
        let size = self.host.len().saturating_add(path.len());
        let mut place = PathBuf::with_capacity(self.alloc(), size.saturating_add(1))?;
        place.push(self.host.as_str())?;
        Ok(place)
    }

    /// Walks to the folders of that path, and makes those that are missing, and the host's folder. Where one of them is the
    /// node's own folder, it fails and makes none.
    pub(super) fn walk_to_change(
        &mut self,
        folders: &str,
        own: Option<Identity>,
    ) -> Result<(), HostError> {
        let above = self.walk(folders)?;
        if self.ancestors.have(own) {
            return Err(HostError::Failed);
        }
        match above {
            Above::There => Ok(()),
            Above::Missing => self.make_missing(folders),
            Above::Blocked => Err(HostError::Failed),
        }
    }

    /// The folder that a walk ended in.
    pub(super) fn last_folder(&self) -> Result<&HeldFolder, HostError> {
        match self.ancestors.last()? {
            Some(folder) => Ok(folder),
            None => Err(HostError::Failed),
        }
    }

    /// Looks at what stands at the path, where each folder above it is there.
    pub(super) fn look_for(&mut self, path: &str) -> Result<Option<Spot>, HostError> {
        let Some((folders, name)) = split_path(path) else {
            return Err(HostError::Failed);
        };
        match self.walk(folders)? {
            Above::There => Ok(Some(self.look_below(name)?)),
            Above::Missing | Above::Blocked => Ok(None),
        }
    }

    fn make_missing(&mut self, folders: &str) -> Result<(), HostError> {
        if self.ancestors.len() == 0 {
            self.make_host()?;
        }
        for name in folders.split('/').skip(self.ancestors.len()) {
            self.make_step(name)?;
        }
        Ok(())
    }

    // Makes the next folder where nothing is there, and syncs both it and the one that it is in.
    fn make_step(&mut self, name: &str) -> Result<(), HostError> {
        let is_made = make_folder(&self.rt, self.place_below(name)?.as_str())?;
        if is_made {
            self.sync_last()?;
        }
        if self.step(name)? != Above::There {
            return Err(HostError::Failed);
        }
        if is_made {
            self.sync_last()?;
        }
        Ok(())
    }

    fn place_below(&self, name: &str) -> Result<String, HostError> {
        match self.ancestors.last()? {
            Some(folder) => folder.place_of(self.alloc(), name),
            None => self.place_in_host(name),
        }
    }

    // Syncs the last folder, or the host's.
    fn sync_last(&self) -> Result<(), HostError> {
        match self.ancestors.last()? {
            Some(folder) => Ok(folder.sync(&self.rt)?),
            None => Ok(sync_folder(&self.rt, self.host.as_str())?),
        }
    }
}

// Answers whether nobody but root may change a name in the folder. A list of those who may besides shows in the bits of its group.
fn is_roots(folder: &Metadata) -> bool {
    folder.uid() == 0 && folder.mode() & WRITE_BITS == 0
}

// Makes a folder at the place, and answers whether nothing was there.
fn make_folder<R: Files>(rt: &R, place: &str) -> Result<bool, HostError> {
    match fs::create_dir(rt, place) {
        Ok(()) => Ok(true),
        Err(e) if e.kind() == ErrorKind::AlreadyExists => Ok(false),
        Err(e) => Err(HostError::from(e)),
    }
}
