//! Reads an item of a shelf from its file, which is looked at before it is opened, and again once it was read: where it has
//! changed, it is read anew.
ghost use Rattle.std.specs.Prelude.{◌≡◌, ◌+◌, ◌≤◌, length};
ghost use Rattle.std.specs.Io.{StartsWith};
ghost use Rattle.pull_outside.specs.Shelf.{Leaves};
ghost use Rattle.pull_outside.specs.declared.shelf.TheConstants.{LONGEST_ITEM};

use pull_outside::{LONGEST_ITEM, ShelfError};
use std::fs;
use std::fs::{Metadata, OpenFile};
use std::io::{ErrorKind, Read};
use std::os::unix::fs::MetadataExt;
use std::rt::Files;

// How much is read at once, at most.
const BUFFER_SIZE: usize = 16_384;

// How often a file is read that is changed meanwhile.
const MOST_TRIES: usize = 8;

/// Appends the bytes of the plain file at the place, and answers whether it is there. A link, a folder, or anything else in
/// its place is a failure, and so is a file of more than `LONGEST_ITEM` bytes.
///
/// The file is taken as it is at one moment, as far as its length and the time of its last change show: where it was changed
/// or another one took its place meanwhile, it is read again, and after eight such tries the call fails.
pub fn append_item<R: Files>(rt: &R, place: &str, into: &mut Vec<u8>) -> Result<bool, ShelfError>
    ensures { Leaves result into.old.items into.new.items }
{
    let kept = into.len();
    for _ in 0..MOST_TRIES {
        let Some(found) = plain_file(rt, place)? else {
            return Ok(false);
        };
        match append_unchanged(rt, place, &found, into) {
            Ok(true) => return Ok(true),
            Ok(false) => into.truncate(kept),
            Err(error) => {
                into.truncate(kept);
                return Err(error);
            }
        }
    }
    Err(ShelfError::Failed)
}

// What is known of the plain file at the place. A pipe that is opened would wait for its writer: so it is looked at before.
fn plain_file<R: Files>(rt: &R, place: &str) -> Result<Option<Metadata>, ShelfError> {
    match fs::symlink_metadata(rt, place) {
        Ok(found) if found.is_file() && found.len() <= LONGEST_ITEM as u64 => Ok(Some(found)),
        Err(e) if matches!(e.kind(), ErrorKind::NotFound | ErrorKind::InvalidFilename) => Ok(None),
        _ => Err(ShelfError::Failed),
    }
}

// Appends the file, and answers whether it is the one that was found, unchanged. Where it is not, or it failed, a part may
// stand there.
fn append_unchanged<R: Files>(
    rt: &R,
    place: &str,
    found: &Metadata,
    into: &mut Vec<u8>,
) -> Result<bool, ShelfError>
    ensures start { StartsWith into.new.items into.old.items }
    ensures limit { length into.new.items ≤ length into.old.items + LONGEST_ITEM }
{
    let mut file = match fs::open(rt, place) {
        Ok(file) => file,
        Err(e) if e.kind() == ErrorKind::NotFound => return Ok(false),
        Err(_) => return Err(ShelfError::Failed),
    };
    let length = (found.len() as usize).min(LONGEST_ITEM);
    into.reserve_exact(length)?;
    append_front(&mut file, length, into)?;
    match file.metadata() {
        Ok(read) => Ok(is_unchanged(found, &read)),
        Err(_) => Err(ShelfError::Failed),
    }
}

fn is_unchanged(before: &Metadata, after: &Metadata) -> bool {
    before.dev() == after.dev()
        && before.ino() == after.ino()
        && before.len() == after.len()
        && before.mtime() == after.mtime()
        && before.mtime_nsec() == after.mtime_nsec()
}

// Appends the first that many bytes that the reader gives, or all where it ends before; where it fails, a part of them may stand
// there. It does not look for more after that many: whether the file grew, the caller sees in its length.
fn append_front<R: Read>(
    reader: &mut R,
    longest: usize,
    into: &mut Vec<u8>,
) -> Result<(), ShelfError>
    ensures start { StartsWith into.new.items into.old.items }
    ensures limit { length into.new.items ≤ length into.old.items + longest }
{
    let mut buffer = [0; BUFFER_SIZE];
    let mut capacity = longest;
    for _ in 0..u64::MAX {
        if capacity == 0 {
            return Ok(());
        }
        match reader.read(&mut buffer[..capacity.min(BUFFER_SIZE)]) {
            Ok(0) => return Ok(()),
            Ok(count) => {
                into.extend_from_slice(&buffer[..count])?;
                capacity -= count;
            }
            Err(e) if e.kind() == ErrorKind::Interrupted => {}
            Err(_) => return Err(ShelfError::Failed),
        }
    }
    Err(ShelfError::Failed)
}
