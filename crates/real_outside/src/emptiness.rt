//! Whether something is in a folder.
ghost use Rattle.std.specs.Prelude.{◌≡◌};
ghost use Rattle.real_outside.specs.Folders.{has_entry_name, is_entry_name};

use crate::reading::read_some;
use dsc_outside::{Failed, HostError};
use host_layout::is_staging_name;
use std::io::{ErrorKind, Read};
use std::rt::Files;

const BUFFER_SIZE: usize = 4096;

/// Answers whether something is in the folder, whatever its name. One that may not be read is not known to be empty,
/// and so counts as one with something in it.
pub fn is_inhabited<R: Files>(rt: &R, place: &str) -> Result<bool, HostError> {
    match rt.open_dir(place) {
        Ok(mut names) => Ok(gives_entry_name(&mut names)?),
        Err(e) if e.kind() == ErrorKind::PermissionDenied => Ok(true),
        Err(e) => Err(HostError::from(e)),
    }
}

// The names come whole, each with a NUL after it.
fn gives_entry_name<N: Read>(names: &mut N) -> Result<bool, Failed> {
    let mut buffer = [0; BUFFER_SIZE];
    for _ in 0..u64::MAX {
        let count = read_some(names, &mut buffer)?;
        if count == 0 {
            return Ok(false);
        }
        if has_entry_name(&buffer[..count]) {
            return Ok(true);
        }
    }
    Err(Failed)
}

// Answers whether one of the names is that of something in the folder.
fn has_entry_name(names: &[u8]) -> bool
    ensures { result ≡ has_entry_name names.now }
{
    names.split(|b| *b == 0).any(|name| is_entry_name(name))
}

// Neither empty, nor the name of the folder itself, nor that of the one above, nor reserved.
fn is_entry_name(name: &[u8]) -> bool
    ensures { result ≡ is_entry_name name.now }
{
    !(name.is_empty()
        || name == b".".as_slice()
        || name == b"..".as_slice()
        || is_staging_name(name))
}
