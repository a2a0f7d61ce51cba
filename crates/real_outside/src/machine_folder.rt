//! A folder that stands for a machine.
use crate::above::split_path;
use crate::ancestors::Ancestors;
use crate::held_folder::{sync_folder, sync_opened};
use crate::identity::Identity;
use crate::last_look::LastLook;
use crate::placing::{Staged, stage_file};
use crate::spot::{Spot, folder_of};
use crate::staging::{Marks, clear_staged};
use dsc_outside::HostError;
use std::alloc::Global;
use std::fs;
use std::fs::OpenFile;
use std::io::ErrorKind;
use std::os::fd::{AsFd, AsRawFd};
use std::rt::Files;

/// The folder of that path, where it is there.
#[derive(Drop)]
pub struct MachineFolder<R: Files>
where
    R::File: AsFd,
{
    pub(super) rt: R,
    pub(super) host: String,

    /// The moment at which the host was begun, in seconds since 1970, or 0 where that is not known.
    pub(super) begun: u64,

    // The file of the node's store. Nothing in its folder is changed.
    pub(super) store: Option<String>,

    // That folder, from the first change on at which it was there.
    own: Option<OpenFolder<R::File>>,

    // The folders above the path of the last call.
    pub(super) ancestors: Ancestors,

    // Whether the last walk found the last of them at its path below /proc.
    pub(super) is_found: bool,

    // Whether that was the last of its path, and so no folder was opened.
    pub(super) is_kept: bool,

    // Whether it was so, and nobody but root may change a name in it.
    pub(super) is_roots: bool,

    pub(super) last_look: Option<LastLook>,

    // Whether the call before was that look, and it found nothing in the last folder.
    pub(super) is_free: bool,

    // A name that a file was given in the folder of that identity.
    pub(super) placed: Option<(Identity, String)>,

    // The file that the last call placed at a path, where it has the mode of a new one: nobody runs that, which the system would
    // refuse as long as it is open. Whether anybody wants a reboot may be asked in between.
    pub(super) written: Option<R::File>,

    // The folder in which a file was placed last.
    synced: Option<OpenFolder<R::File>>,

    marks: Marks,

    // The folders in which nothing is left of an earlier run that was stopped.
    cleared: Vec<Identity>,
}

/// A folder that is open, so that no other has its identity.
#[derive(Drop)]
struct OpenFolder<F: Drop> {
    identity: Identity,
    folder: F,
}

impl<R: Files> MachineFolder<R>
where
    R::File: AsFd,
{
    pub fn new(rt: R, host: String, store: Option<String>, begun: u64) -> MachineFolder<R> {
        let alloc = *host.allocator();
        MachineFolder {
            rt,
            host,
            begun,
            store,
            own: None,
            ancestors: Ancestors::new(alloc),
            is_found: false,
            is_kept: false,
            is_roots: false,
            last_look: None,
            is_free: false,
            placed: None,
            written: None,
            synced: None,
            marks: Marks::new(),
            cleared: Vec::new(alloc),
        }
    }

    pub(super) fn alloc(&self) -> Global {
        *self.host.allocator()
    }

    /// The folder of the node's store, where it is there. Once it was found it stays open, so it is this folder alone that has its
    /// identity.
    pub(super) fn own_folder(&mut self) -> Result<Option<Identity>, HostError> {
        if self.own.is_none() {
            self.own = self.open_own_folder()?;
        }
        match &self.own {
            Some(own) => Ok(Some(own.identity)),
            None => Ok(None),
        }
    }

    fn open_own_folder(&self) -> Result<Option<OpenFolder<R::File>>, HostError> {
        let Some(store) = &self.store else {
            return Ok(None);
        };
        match fs::open(&self.rt, folder_of(store.as_str())) {
            Ok(folder) => Ok(Some(OpenFolder {
                identity: Identity::of(&folder.metadata()?),
                folder,
            })),
            Err(e) if e.kind() == ErrorKind::NotFound => Ok(None),
            Err(e) => Err(HostError::from(e)),
        }
    }

    /// Places a file at that path below the host's folder, so that each reader sees all of it or nothing, also after a loss
    /// of power.
    pub(super) fn place(
        &mut self,
        path: &str,
        bytes: &[u8],
        own: Option<Identity>,
    ) -> Result<(), HostError> {
        let _file = self.place_open(path, bytes, own, false)?;
        Ok(())
    }

    /// The same, and hands on the file, still open, where it has the mode of a new one. Where nothing was seen at the path in the call
    /// before, and the folders above it are still the same, it is not looked at once more.
    pub(super) fn place_open(
        &mut self,
        path: &str,
        bytes: &[u8],
        own: Option<Identity>,
        is_free: bool,
    ) -> Result<Option<R::File>, HostError> {
        let Some((folders, name)) = split_path(path) else {
            return Err(HostError::Failed);
        };
        self.walk_to_change(folders, own)?;
        self.clear_last_folder()?;
        let mark = self.marks.next()?;
        let spot = self.spot_to_fill(name, is_free && self.is_kept)?;
        let staged = stage_file(&self.rt, self.alloc(), spot, &mark, bytes)?;
        let outcome = self.put_in_place(path, &staged);
        if outcome.is_err() {
            let _ = fs::remove_file(&self.rt, staged.place.as_str());
        }
        outcome?;
        let file = staged.into_new();
        self.remember_placed(name)?;
        self.sync_last_folder()?;
        Ok(file)
    }

    // What stands at that name in the last folder, or nothing where that is known.
    fn spot_to_fill(&self, name: &str, is_free: bool) -> Result<Spot, HostError> {
        let folder = self.last_folder()?;
        if is_free {
            let place = folder.place_of(self.alloc(), name)?;
            return Ok(Spot { place, seen: None });
        }
        folder.look_inside(&self.rt, self.alloc(), name)
    }

    // Has the staged file take its name. It is a failure where anything else than that file stands there then, which only root could have
    // done in a folder in which nobody else may change a name.
    fn put_in_place(&self, path: &str, staged: &Staged<R::File>) -> Result<(), HostError> {
        fs::rename(&self.rt, staged.place.as_str(), staged.spot.place.as_str())?;
        if self.is_roots || self.is_at(staged.file.as_fd().as_raw_fd(), path)? {
            return Ok(());
        }
        staged.expect_placed(&self.rt)
    }

    // Puts on the disk which names the last folder has.
    fn sync_last_folder(&mut self) -> Result<(), HostError> {
        let folder = self.last_folder()?;
        let identity = folder.identity();
        let is_open = match &self.synced {
            Some(synced) => synced.identity == identity,
            None => false,
        };
        if !is_open {
            self.synced = Some(OpenFolder {
                identity,
                folder: folder.reopen(&self.rt)?,
            });
        }
        match &self.synced {
            Some(synced) => Ok(sync_opened(&synced.folder)?),
            None => Err(HostError::Failed),
        }
    }

    // Without memory for the name none is known.
    fn remember_placed(&mut self, name: &str) -> Result<(), HostError> {
        let identity = self.last_folder()?.identity();
        self.placed = match String::from_str(self.alloc(), name) {
            Ok(name) => Some((identity, name)),
            Err(_) => None,
        };
        Ok(())
    }

    // Takes away what a stop left in the last folder, before the first file that is placed there.
    fn clear_last_folder(&mut self) -> Result<(), HostError> {
        let identity = self.last_folder()?.identity();
        if self.is_cleared(&identity) {
            return Ok(());
        }
        self.take_what_stops_left()?;
        self.cleared.push(identity)?;
        Ok(())
    }

    fn is_cleared(&self, identity: &Identity) -> bool {
        self.cleared.contains(identity)
    }

    fn take_what_stops_left(&self) -> Result<(), HostError> {
        clear_staged(&self.rt, self.alloc(), self.last_folder()?)
    }

    /// Makes the host's folder where nothing is. Unlike what is in it, it may be a link.
    pub(super) fn make_host(&self) -> Result<(), HostError> {
        let host = self.host.as_str();
        match fs::create_dir(&self.rt, host) {
            Ok(()) => Ok(sync_folder(&self.rt, folder_of(host))?),
            Err(e) if e.kind() == ErrorKind::AlreadyExists => Ok(()),
            Err(e) => Err(HostError::from(e)),
        }
    }
}
