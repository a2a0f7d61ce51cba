//! Names in a folder that is open, which may be any bytes: std removes them with a whole folder alone.
ghost use Rattle.std.specs.Prelude.{◌≤◌, IfOk, length};

use crate::identity::Identity;
use crate::reading::read_rest;
use dsc_outside::HostError;
use os::FromRawFd;
use std::alloc::{AllocError, Global};
use std::io::{Error, ErrorKind};
use std::os::fd::{AsRawFd, OwnedFd};
use std::path::PathBuf;
use std::rt::Files;
use std::{fs, io};

/// What became of a name that was to be taken away.
#[derive(Clone, Copy, Debug, PartialEq, Eq)]
pub enum Taken {
    Gone,

    /// It is that of a folder, and stays.
    IsFolder,
}

/// What made the last call of the system fail.
pub fn last_error() -> Error {
    Error::from_raw_os_error(os::errno())
}

/// The path at which the system shows what is open under that number.
pub fn descriptor_path(alloc: Global, number: i32) -> Result<String, AllocError> {
    format!(in alloc; "/proc/self/fd/{number}")
}

/// What ends the path that the system has for what is at none any more.
pub const DELETED: &str = " (deleted)";

/// The path at which what is open under that number stands now: it has no link in it.
pub fn real_path<R: Files>(rt: &R, alloc: Global, number: i32) -> io::Result<PathBuf> {
    rt.read_link(alloc, descriptor_path(alloc, number)?.as_str())
}

/// Opens the folder at that place. A link in its place is none.
pub fn open_folder(place: &str) -> io::Result<OwnedFd> {
    open_below(libc::AT_FDCWD, place.as_bytes())
}

/// Opens the folder of that name in the folder of that number. A link is none.
pub fn open_below(folder: i32, name: &[u8]) -> io::Result<OwnedFd> {
    let number = os::open_dir_at(folder, name);
    if number < 0 {
        return Err(last_error());
    }
    Ok(unsafe { OwnedFd::from_raw_fd(number) })
}

/// Answers whether the name is that of a folder. One that is gone is none.
pub fn is_folder_below(folder: &OwnedFd, name: &[u8]) -> io::Result<bool> {
    match open_below(folder.as_raw_fd(), name) {
        Ok(_) => Ok(true),
        Err(e)
            if matches!(
                e.kind(),
                ErrorKind::NotFound | ErrorKind::NotADirectory | ErrorKind::FilesystemLoop
            ) => { Ok(false) }
        Err(e) => Err(e),
    }
}

/// Takes the name away, where it is not that of a folder.
pub fn take_below(folder: &OwnedFd, name: &[u8]) -> io::Result<Taken> {
    if os::unlink_at(folder.as_raw_fd(), name) == 0 {
        return Ok(Taken::Gone);
    }
    let error = last_error();
    match error.kind() {
        ErrorKind::NotFound => Ok(Taken::Gone),
        ErrorKind::IsADirectory => Ok(Taken::IsFolder),
        _ => Err(error),
    }
}

/// Takes the empty folder of that name away.
pub fn take_folder_below(folder: &OwnedFd, name: &[u8]) -> io::Result<()> {
    if os::rmdir_at(folder.as_raw_fd(), name) == 0 {
        return Ok(());
    }
    Err(last_error())
}

/// Reads the next names of the folder, each with a NUL after it, and answers how many bytes they have: none at the end.
pub fn read_names(folder: &OwnedFd, into: &mut [u8]) -> io::Result<usize>
    ensures { IfOk result (λ n. n ≤ length into.new) }
{
    let count = os::read_dir(folder.as_raw_fd(), into);
    match os::errno() {
        0 => Ok(count),
        error => Err(Error::from_raw_os_error(error)),
    }
}

/// Which folder it is.
pub fn identity_of<R: Files>(
    rt: &R,
    alloc: Global,
    folder: &OwnedFd,
) -> Result<Identity, HostError> {
    let place = descriptor_path(alloc, folder.as_raw_fd())?;
    Ok(Identity::of(&fs::metadata(rt, place.as_str())?))
}

/// The line of the system about the mount through which the folder was reached.
pub fn mount_of<R: Files>(rt: &R, alloc: Global, folder: i32) -> Result<Vec<u8>, HostError> {
    let place = format!(in alloc; "/proc/self/fdinfo/{folder}")?;
    let mut text = Vec::new(alloc);
    read_rest(&mut fs::open(rt, place.as_str())?, &mut text)?;
    match text
        .split(|b| *b == b'\n')
        .find(|l| l.starts_with(b"mnt_id:"))
    {
        Some(line) => Ok(line.to_vec(alloc)?),
        None => Err(HostError::Failed),
    }
}
