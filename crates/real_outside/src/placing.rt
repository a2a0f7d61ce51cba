//! Placing files whole.
use crate::identity::Identity;
use crate::spot::{Kind, Spot};
use crate::staging::Mark;
use dsc_outside::HostError;
use host_layout::staging_path;
use std::alloc::Global;
use std::fs::{Metadata, OpenFile, OpenOptions, Permissions};
use std::io::{ErrorKind, Write};
use std::os::fd::AsFd;
use std::os::unix::fs::{MetadataExt, OpenOptionsExt, PermissionsExt, fchown};
use std::path::PathBuf;
use std::rt::Files;
use std::{fs, io};

/// The bits of a mode that say who may do what with a file.
const ACCESS_BITS: u32 = 0o777;

/// These, and those that give a program its file's owner and group.
const MODE_BITS: u32 = 0o7777;

/// Nobody but the writer reads a file before it has the mode of the one that it replaces.
const PRIVATE: u32 = 0o600;

/// A file that is written and synced, and open, beside the spot where it is to stand.
#[derive(Drop)]
pub struct Staged<F: Drop> {
    pub place: PathBuf,
    pub spot: Spot,
    pub file: F,
}

impl<F: OpenFile + Drop> Staged<F> {
    /// Fails where anything else than this file stands at the spot: another user of the folder may have put that at the staging
    /// place.
    pub fn expect_placed<R: Files>(&self, rt: &R) -> Result<(), HostError> {
        let placed = fs::symlink_metadata(rt, self.spot.place.as_str())?;
        if Identity::of(&placed) == Identity::of(&self.file.metadata()?) {
            Ok(())
        } else {
            Err(HostError::Failed)
        }
    }
}

impl<F: Drop> Staged<F> {
    /// The file, where it did not get the mode of another one.
    pub fn into_new(self) -> Option<F> {
        let Staged { spot, file, .. } = self;
        if replaced_file(&spot).is_some() {
            None
        } else {
            Some(file)
        }
    }
}

/// Writes a file with these bytes beside the spot, under a name with that mark, and syncs it. Its name there is one that
/// nobody else knows before. It has the mode of a file that stands at the spot, and its owner and group where they may be
/// set. A folder at the spot is a failure. Where it fails nothing is left.
pub fn stage_file<R: Files>(
    rt: &R,
    alloc: Global,
    spot: Spot,
    mark: &Mark,
    bytes: &[u8],
) -> Result<Staged<R::File>, HostError>
where
    R::File: AsFd,
{
    if spot.kind() == Kind::Folder {
        return Err(HostError::Failed);
    }
    let place = staging_path(alloc, spot.place.as_str(), mark)?;
    match write_file(rt, place.as_str(), replaced_file(&spot), bytes) {
        Ok(file) => Ok(Staged { place, spot, file }),
        Err(e) => {
            let _ = fs::remove_file(rt, place.as_str());
            Err(HostError::from(e))
        }
    }
}

fn write_file<R: Files>(
    rt: &R,
    staged: &str,
    replaced: Option<&Metadata>,
    bytes: &[u8],
) -> io::Result<R::File>
where
    R::File: AsFd,
{
    let mut options = OpenOptions::new();
    options.read(true).write(true).create_new(true);
    if replaced.is_some() {
        options.mode(PRIVATE);
    }
    let mut file = options.open(rt, staged)?;
    file.write_all(bytes)?;
    file.sync_all()?;
    if let Some(replaced) = replaced {
        let mode = kept_mode(&file, replaced)?;
        file.set_permissions(Permissions::from_mode(mode))?;
    }
    Ok(file)
}

// The file that was seen there. There is none where anything else was.
fn replaced_file(spot: &Spot) -> Option<&Metadata> {
    match &spot.seen {
        Some(found) if found.is_file() => Some(found),
        _ => None,
    }
}

// Gives the staged file the owner and the group, and answers its mode. The bits by which a program runs as its owner
// or group are for them alone, and for a file with one name: another user may have given a program of somebody else a
// second name here.
fn kept_mode<F: OpenFile + AsFd>(staged: &F, replaced: &Metadata) -> io::Result<u32> {
    let own = staged.metadata()?;
    let (user, group) = (replaced.uid(), replaced.gid());
    let bits = if replaced.nlink() == 1 {
        MODE_BITS
    } else {
        ACCESS_BITS
    };
    if (own.uid() == user && own.gid() == group) || may_own(staged, Some(user), Some(group))? {
        return Ok(replaced.mode() & bits);
    }
    let _ = may_own(staged, None, Some(group))?;
    Ok(replaced.mode() & ACCESS_BITS)
}

// Gives the file that owner and group, and answers whether that is allowed.
fn may_own<F: AsFd>(staged: &F, user: Option<u32>, group: Option<u32>) -> io::Result<bool> {
    match fchown(staged, user, group) {
        Ok(()) => Ok(true),
        Err(e)
            if matches!(
                e.kind(),
                ErrorKind::PermissionDenied | ErrorKind::InvalidInput
            ) => { Ok(false) }
        Err(e) => Err(e),
    }
}
