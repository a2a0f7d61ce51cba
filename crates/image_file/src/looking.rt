//! A plain file that is opened to be read, and looks at it.
use dsc_outside::Failed;
use real_outside::fill;
use std::fs::{self, File, Metadata, OpenOptions};
use std::os::unix::fs::MetadataExt;
use std::rt::Files;

/// Opens the plain file that stands at the path, to be read; where a link, a folder or anything else stands there, or came there
/// after the look, it fails.
pub(crate) fn open_seen<R: Files<File = File>>(rt: &R, path: &str) -> Result<File, Failed> {
    let seen = fs::symlink_metadata(rt, path)?;
    if !seen.is_file() {
        return Err(Failed);
    }
    let mut options = OpenOptions::new();
    options.read(true);
    let file = options.open(rt, path)?;
    if !is_same(&file.metadata()?, &seen) {
        return Err(Failed);
    }
    Ok(file)
}

// Whether both are of one file.
fn is_same(one: &Metadata, other: &Metadata) -> bool {
    one.dev() == other.dev() && one.ino() == other.ino()
}

pub(crate) fn length_of(file: &File) -> Result<u64, Failed> {
    Ok(file.metadata()?.len())
}

/// The byte at this place, or none where the file ends before it.
pub(crate) fn byte_at(file: &File, at: u64) -> Result<Option<u8>, Failed> {
    let mut byte = [0; 1];
    if fill(file, at, &mut byte)? == 0 {
        return Ok(None);
    }
    Ok(Some(byte[0]))
}
