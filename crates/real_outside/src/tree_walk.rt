//! A walk through a folder with all that is below it, of which two folders are open at a time.
use crate::identity::Identity;
use crate::mounts::Mounts;
use crate::names_below::{
    Taken, identity_of, is_folder_below, mount_of, open_below, read_names, take_below,
    take_folder_below,
};
use dsc_outside::{Failed, HostError};
use std::alloc::Global;
use std::io::ErrorKind;
use std::os::fd::{AsRawFd, OwnedFd};
use std::rt::Files;

const BUFFER_SIZE: usize = 4096;

/// What a walk does.
#[derive(Clone, Copy, Debug, PartialEq, Eq)]
pub enum Task {
    /// It fails where a folder is there that may not be removed, and changes nothing.
    Look,

    /// It removes all that is below the folder, and fails at such a folder.
    Remove,
}

/// Which folders may not be removed: the node's own, one that something is mounted in, those of another file system, and those
/// that were reached through another mount.
#[derive(Clone, Copy)]
pub struct Barred<'a> {
    pub own: Option<Identity>,
    pub mounts: &'a Mounts,
    pub mount: &'a [u8],
    pub top: Identity,
}

impl<'a> Barred<'a> {
    fn admit(&self, folder: Identity) -> Result<(), Failed> {
        if self.own == Some(folder) || self.mounts.has_in(folder) || !folder.is_beside(self.top) {
            Err(Failed)
        } else {
            Ok(())
        }
    }
}

// A folder on the way down, and how many names were waiting before its own came.
#[derive(Clone, Copy)]
struct Level {
    identity: Identity,
    before: usize,
}

/// A walk. The names that wait are those of folders that are still to be entered, those of each level after those of the level
/// above; the last one of the level above is that of the level itself.
#[derive(Drop)]
pub struct TreeWalk<'a, R: Files> {
    rt: &'a R,
    alloc: Global,
    barred: Barred<'a>,
    task: Task,
    folder: OwnedFd,
    levels: Vec<Level>,
    names: Vec<Vec<u8>>,
}

/// Walks through all that is below the folder of that number.
pub fn walk_tree<R: Files>(
    rt: &R,
    alloc: Global,
    top: i32,
    barred: &Barred<'_>,
    task: Task,
) -> Result<(), HostError> {
    let mut walk = TreeWalk {
        rt,
        alloc,
        barred: *barred,
        task,
        folder: open_below(top, b".")?,
        levels: Vec::new(alloc),
        names: Vec::new(alloc),
    };
    let folder = open_below(top, b".")?;
    walk.enter(folder)?;
    for _ in 0..u64::MAX {
        if walk.is_done()? {
            return Ok(());
        }
    }
    Err(HostError::Failed)
}

impl<'a, R: Files> TreeWalk<'a, R> {
    // Takes one step, and answers whether it was the last.
    fn is_done(&mut self) -> Result<bool, HostError> {
        let Some(level) = self.levels.last() else {
            return Err(HostError::Failed);
        };
        if self.names.len() > level.before {
            self.go_down()?;
            return Ok(false);
        }
        if self.levels.len() == 1 {
            return Ok(true);
        }
        self.go_up()?;
        Ok(false)
    }

    // Enters the folder of the last name. Where it is gone, so is its name.
    fn go_down(&mut self) -> Result<(), HostError> {
        let Some(name) = self.names.last() else {
            return Err(HostError::Failed);
        };
        match open_below(self.folder.as_raw_fd(), name) {
            Ok(folder) => self.enter(folder),
            Err(e) if e.kind() == ErrorKind::NotFound => {
                self.names.pop();
                Ok(())
            }
            Err(e) => Err(HostError::from(e)),
        }
    }

    // Leaves the folder for the one above, and removes it there.
    fn go_up(&mut self) -> Result<(), HostError> {
        self.levels.pop();
        let above = open_below(self.folder.as_raw_fd(), b"..")?;
        let identity = identity_of(self.rt, self.alloc, &above)?;
        if !self.levels.last().is_some_and(|l| l.identity == identity) {
            return Err(HostError::Failed);
        }
        if let Some(name) = self.names.pop() {
            if self.task == Task::Remove {
                take_folder_below(&above, &name)?;
            }
        }
        self.folder = above;
        Ok(())
    }

    fn enter(&mut self, folder: OwnedFd) -> Result<(), HostError> {
        let identity = identity_of(self.rt, self.alloc, &folder)?;
        self.barred.admit(identity)?;
        let mount = mount_of(self.rt, self.alloc, folder.as_raw_fd())?;
        if mount.as_slice() != self.barred.mount {
            return Err(HostError::Failed);
        }
        let before = self.names.len();
        self.levels.push(Level { identity, before })?;
        self.folder = folder;
        self.read_folder()
    }

    // Goes through the names of the folder.
    fn read_folder(&mut self) -> Result<(), HostError> {
        let mut buffer = [0; BUFFER_SIZE];
        for _ in 0..u64::MAX {
            let count = read_names(&self.folder, &mut buffer)?;
            if count == 0 {
                return Ok(());
            }
            for name in buffer[..count].split(|b| *b == 0) {
                self.take_name(name)?;
            }
        }
        Err(HostError::Failed)
    }

    // Keeps the name of a folder, to enter it. Any other is removed, where that is the task.
    fn take_name(&mut self, name: &[u8]) -> Result<(), HostError> {
        if matches!(name, b"" | b"." | b"..") {
            return Ok(());
        }
        let is_folder = match self.task {
            Task::Look => is_folder_below(&self.folder, name)?,
            Task::Remove => take_below(&self.folder, name)? == Taken::IsFolder,
        };
        if is_folder {
            self.names.push(name.to_vec(self.alloc)?)?;
        }
        Ok(())
    }
}
