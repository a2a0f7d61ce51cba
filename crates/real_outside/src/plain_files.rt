//! Plain files: reading them, and taking them away.
ghost use Rattle.std.specs.Prelude.{◌≡◌, ◌<◌, ◌-◌, Some, IfErr, IfOk, true};
ghost use Rattle.dsc_outside.specs.Host.{LeavesBuffer};
ghost use Rattle.real_outside.specs.Folders.{settled_after};

use crate::comparing::gives_exactly;
use crate::held_folder::HeldFolder;
use crate::identity::{Identity, Sight};
use crate::reading::read_rest;
use crate::spot::{Kind, Spot};
use dsc_outside::HostError;
use std::fs;
use std::fs::OpenFile;
use std::io::ErrorKind;
use std::rt::Files;

// The seconds after which a change is one of before the host was begun, also where the clock of a file system is late.
const SETTLED_AFTER: u64 = 10;

/// Appends the bytes of the plain file that was seen in the folder, and answers whether it is there. A link, a folder, or
/// anything else in its place is a failure.
pub fn append_file<R: Files>(
    rt: &R,
    folder: &HeldFolder,
    spot: &Spot,
    path: &str,
    begun: u64,
    into: &mut Vec<u8>,
) -> Result<bool, HostError>
    ensures { LeavesBuffer result into.old.items into.new.items }
{
    let Some(mut file) = open_plain(rt, folder, spot, path, begun)? else {
        return Ok(false);
    };
    let kept = into.len();
    match read_rest(&mut file, into) {
        Ok(()) => Ok(true),
        Err(error) => {
            into.truncate(kept);
            Err(error)
        }
    }
}

/// Answers whether a plain file was seen in the folder and has exactly these bytes. Anything else in its place is a failure.
pub fn file_holds<R: Files>(
    rt: &R,
    folder: &HeldFolder,
    spot: &Spot,
    path: &str,
    begun: u64,
    bytes: &[u8],
) -> Result<bool, HostError> {
    match open_plain(rt, folder, spot, path, begun)? {
        None => Ok(false),
        Some(mut file) => Ok(gives_exactly(&mut file, bytes)?),
    }
}

/// Answers whether a plain file was seen there. Anything else is a failure.
pub fn is_plain_file(spot: &Spot) -> Result<bool, HostError> {
    match spot.kind() {
        Kind::File => Ok(true),
        Kind::Nothing => Ok(false),
        Kind::Folder | Kind::Link | Kind::Other => Err(HostError::Failed),
    }
}

// Opens the file that was seen in the folder. What the path leads to is not taken for it, but compared with what stands at its place.
// A pipe that comes is waited for, until somebody writes to it.
fn open_plain<R: Files>(
    rt: &R,
    folder: &HeldFolder,
    spot: &Spot,
    path: &str,
    begun: u64,
) -> Result<Option<R::File>, HostError> {
    if !is_plain_file(spot)? {
        return Ok(None);
    }
    let Some(file) = open_at(rt, folder, spot, path)? else {
        return Ok(None);
    };
    let found = file.metadata()?;
    if !found.is_file() {
        return Err(HostError::Failed);
    }
    let opened = Sight::of(&found);
    if !is_settled(spot.sight(), opened, begun) {
        let again = Spot::look(rt, spot.place.clone()?)?;
        check_opened(spot.identity(), opened.identity, again.identity())?;
    }
    Ok(Some(file))
}

/// Whether a file that was opened is surely the one that was seen there: it has the number of that one, was changed at the same
/// moment, and that lies so long before the host was begun that what took its number since then has another.
fn is_settled(seen: Option<Sight>, opened: Sight, begun: u64) -> bool
    ensures { result ≡ true → (seen ≡ Some opened) × (settled_after < begun - opened.seconds) }
{
    seen == Some(opened) && begun.saturating_sub(opened.seconds) > SETTLED_AFTER
}

/// Whether a file that was opened is the one that stands at its place: it was seen there before, and is seen there while it is open. The
/// number that the first look gave does not tell: a file that was taken away gives it to the next one that is made, wherever that is.
fn check_opened(
    seen: Option<Identity>,
    opened: Identity,
    again: Option<Identity>,
) -> Result<(), HostError>
    ensures same { IfOk result (λ done. (seen ≡ Some opened) × (again ≡ Some opened)) }
    ensures other { IfErr result (λ error. seen ≡ Some opened → again ≡ Some opened → ⊥) }
{
    if seen == Some(opened) && again == Some(opened) {
        Ok(())
    } else {
        Err(HostError::Failed)
    }
}

// Opens what the path leads to, or else the name in the folder: a folder above it may have been moved, or the path be longer
// than the system takes.
fn open_at<R: Files>(
    rt: &R,
    folder: &HeldFolder,
    spot: &Spot,
    path: &str,
) -> Result<Option<R::File>, HostError> {
    match fs::open(rt, path) {
        Ok(file) => return Ok(Some(file)),
        Err(e) if matches!(e.kind(), ErrorKind::NotFound | ErrorKind::InvalidFilename) => {}
        Err(e) => return Err(HostError::from(e)),
    }
    match fs::open(rt, spot.place.as_str()) {
        Ok(file) => Ok(Some(file)),
        Err(e) if e.kind() == ErrorKind::NotFound => {
            folder.confirm(rt)?;
            Ok(None)
        }
        Err(e) => Err(HostError::from(e)),
    }
}

/// Takes the file or the link at that place in the folder away, where one is there, and syncs the folder. A folder in its
/// place is a failure.
pub fn take_away<R: Files>(rt: &R, folder: &HeldFolder, place: &str) -> Result<(), HostError> {
    match fs::remove_file(rt, place) {
        Ok(()) => Ok(folder.sync(rt)?),
        Err(e) if e.kind() == ErrorKind::NotFound => Ok(folder.confirm(rt)?),
        Err(e) => Err(HostError::from(e)),
    }
}
