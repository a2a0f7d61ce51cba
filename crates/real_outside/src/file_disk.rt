//! A file as a disk.
ghost use Rattle.std.specs.Prelude.{◌≡◌, ◌≤◌, IfOk, length};
ghost use Rattle.dsc_outside.specs.Causes.{HasCause, count_after};

use crate::held_folder::sync_folder;
use crate::identity::Identity;
use crate::reading::fill;
use crate::spot::{folder_of, look_at};
use dsc_outside::{Disk, Failed};
use std::fs::{File, Metadata, OpenOptions, TryLockError};
use std::marker::Model;
use std::os::unix::fs::{FileExt, OpenOptionsExt};
use std::rt::Files;

// The mode of a file that is made: what a store holds is its owner's alone.
const PRIVATE: u32 = 0o600;

/// The plain file of a path, as a disk. It is touched at the first call and not before: then it is made where it is
/// missing, with the mode 0600, and locked against other programs, which get a failure and change nothing. A link, a
/// folder or a device in its place is a failure. A clause sees the disk as the number of its calls that failed.
#[derive(Drop)]
pub struct FileDisk<R: Files<File = File>> {
    place: Place<R>,
    faults: u64,
}

impl<R: Files<File = File>> Model for FileDisk<R> {
    ghost use Rattle.std.specs.Prelude.{ℕ};

    ghost Value = { ℕ };

    ghost view = { λ d. d.faults };
}

impl<R: Files<File = File>> FileDisk<R> {
    pub fn new(rt: R, path: String) -> FileDisk<R>
        ensures { result ≡ 0 }
    {
        FileDisk {
            place: Place {
                rt,
                path,
                file: None,
                may_make: true,
                is_locked: false,
            },
            faults: 0,
        }
    }

    /// The same of a file that is there: where it is missing, it is not made, and the call fails.
    pub fn of_existing(rt: R, path: String) -> FileDisk<R>
        ensures { result ≡ 0 }
    {
        let mut disk = FileDisk::new(rt, path);
        disk.place.may_make = false;
        disk
    }

    /// Whether a call failed because another program has locked the file.
    pub fn is_locked_elsewhere(&self) -> bool {
        self.place.is_locked
    }

    // Counts the call where it failed.
    fn counted<T>(&mut self, outcome: Result<T, Failed>) -> Result<T, Failed>
        ensures same { result ≡ outcome }
        ensures cause { HasCause self.old self.new outcome }
        ensures count { self.new ≡ count_after self.old outcome }
    {
        if outcome.is_err() {
            self.faults = self.faults.saturating_add(1);
        }
        outcome
    }
}

// The path, the file once it is open, whether it may be made, and whether another program had locked it.
#[derive(Drop)]
struct Place<R: Files<File = File>> {
    rt: R,
    path: String,
    file: Option<File>,
    may_make: bool,
    is_locked: bool,
}

impl<R: Files<File = File>> Place<R> {
    fn opened(&mut self) -> Result<&File, Failed> {
        if self.file.is_none() {
            self.file = open_locked(&self.rt, self.path.as_str(), self.may_make)?;
            self.is_locked = self.file.is_none();
        }
        match &self.file {
            Some(file) => Ok(file),
            None => Err(Failed),
        }
    }

    fn length(&mut self) -> Result<u64, Failed> {
        Ok(self.opened()?.metadata()?.len())
    }

    fn read_at(&mut self, at: u64, into: &mut [u8]) -> Result<usize, Failed>
        ensures { IfOk result (λ n. n ≤ length into.new) }
    {
        fill(self.opened()?, at, into)
    }

    fn write_at(&mut self, at: u64, bytes: &[u8]) -> Result<(), Failed> {
        Ok(self.opened()?.write_all_at(bytes, at)?)
    }

    fn cut(&mut self, to: u64) -> Result<(), Failed> {
        Ok(self.opened()?.set_len(to)?)
    }

    fn sync(&mut self) -> Result<(), Failed> {
        Ok(self.opened()?.sync_all()?)
    }
}

// Opens the file that was seen at the path, or makes one where nothing was and one may be made. What has come there since then is
// a failure.
fn open_seen<R: Files<File = File>>(
    rt: &R,
    path: &str,
    seen: &Option<Metadata>,
    may_make: bool,
) -> Result<File, Failed> {
    let mut options = OpenOptions::new();
    options.read(true).write(true).mode(PRIVATE);
    match seen {
        None if may_make => Ok(options.create_new(true).open(rt, path)?),
        None => Err(Failed),
        Some(seen) if seen.is_file() => {
            let file = options.open(rt, path)?;
            if Identity::of(&file.metadata()?) != Identity::of(seen) {
                return Err(Failed);
            }
            Ok(file)
        }
        Some(_) => Err(Failed),
    }
}

// Opens the file of the path, which is made where nothing is there and it may be, and locks it; none where another program has
// locked it.
fn open_locked<R: Files<File = File>>(
    rt: &R,
    path: &str,
    may_make: bool,
) -> Result<Option<File>, Failed> {
    let Ok(seen) = look_at(rt, path) else {
        return Err(Failed);
    };
    let file = open_seen(rt, path, &seen, may_make)?;
    match file.try_lock() {
        Ok(()) => {}
        Err(TryLockError::WouldBlock) => return Ok(None),
        Err(TryLockError::Error(_)) => return Err(Failed),
    }
    // Until then a crash may take a new file away, also one that an earlier program made.
    sync_folder(rt, folder_of(path))?;
    Ok(Some(file))
}

impl<R: Files<File = File>> Disk for FileDisk<R> {
    ghost use Rattle.std.specs.Prelude.{None};
    ghost use Rattle.std.proofs.lemmas.Option.{none-some};

    ghost shown = { λ d. None };

    ghost images = { λ d c. ⊥ };

    ghost moment = { λ d. 0 };

    ghost left_since = { λ d t c. ⊥ };

    ghost faults = { λ d. d };

    ghost counts_now = { λ d t c le now. now };

    ghost only_now = { λ d c left. left };

    ghost honest = { λ d held is. none-some held is };

    fn length(&mut self) -> Result<u64, Failed>
        ensures cause { HasCause self.old self.new result }
        ensures count { self.new ≡ count_after self.old result }
    {
        let outcome = self.place.length();
        self.counted(outcome)
    }

    fn read_at(&mut self, at: u64, into: &mut [u8]) -> Result<usize, Failed>
        ensures size { IfOk result (λ n. n ≤ length into.new) }
        ensures cause { HasCause self.old self.new result }
        ensures count { self.new ≡ count_after self.old result }
    {
        let outcome = self.place.read_at(at, into);
        self.counted(outcome)
    }

    fn write_at(&mut self, at: u64, bytes: &[u8]) -> Result<(), Failed>
        ensures cause { HasCause self.old self.new result }
        ensures count { self.new ≡ count_after self.old result }
    {
        let outcome = self.place.write_at(at, bytes);
        self.counted(outcome)
    }

    fn cut(&mut self, to: u64) -> Result<(), Failed>
        ensures cause { HasCause self.old self.new result }
        ensures count { self.new ≡ count_after self.old result }
    {
        let outcome = self.place.cut(to);
        self.counted(outcome)
    }

    fn sync(&mut self) -> Result<(), Failed>
        ensures cause { HasCause self.old self.new result }
        ensures count { self.new ≡ count_after self.old result }
    {
        let outcome = self.place.sync();
        self.counted(outcome)
    }
}
