//! Reading from the system.
ghost use Rattle.std.specs.Prelude.{◌≡◌, ◌≤◌, ◌++◌, IfOk, IfSome, OnOk, length};
ghost use Rattle.std.specs.Io.{ReadsAtMost, StartsWith};
ghost use Rattle.std.specs.Io.KnownBytes.{ReadConsumes};

use dsc_outside::{Failed, HostError};
use std::io::{ErrorKind, Read};
use std::os::unix::fs::FileExt;

/// How much is read at once.
pub const BUFFER_SIZE: usize = 8192;

/// Reads once, and again where a signal came between.
pub fn read_some<R: Read>(reader: &mut R, into: &mut [u8]) -> Result<usize, Failed>
    ensures bound { ReadsAtMost result into.new }
    ensures bytes { ReadConsumes (R.remaining reader.old) (R.remaining reader.new) result into.new }
{
    for _ in 0..u64::MAX {
        match reader.read(into) {
            Ok(count) => return Ok(count),
            Err(e) if e.kind() == ErrorKind::Interrupted => {}
            Err(_) => return Err(Failed),
        }
    }
    Err(Failed)
}

/// Appends all that the reader gives, up to its end. Where it fails, a part may stand there.
pub fn read_rest<R: Read>(reader: &mut R, into: &mut Vec<u8>) -> Result<(), HostError>
    ensures after { StartsWith into.new.items into.old.items }
    ensures whole { OnOk result (IfSome (R.remaining reader.old) (λ all. into.new.items ≡ into.old.items ++ all)) }
{
    let mut buffer = [0; BUFFER_SIZE];
    for _ in 0..u64::MAX {
        let count = read_some(reader, &mut buffer)?;
        if count == 0 {
            return Ok(());
        }
        into.extend_from_slice(&buffer[..count])?;
    }
    Err(HostError::Failed)
}

/// Reads from that place of the file on, until the slice is full or the file ends.
pub fn fill<F: FileExt>(file: &F, at: u64, into: &mut [u8]) -> Result<usize, Failed>
    ensures size { IfOk result (λ n. n ≤ length into.new) }
    ensures length { length into.new ≡ length into.old }
{
    let mut count = 0;
    for _ in 0..u64::MAX {
        if count >= into.len() {
            return Ok(count);
        }
        match file.read_at(&mut into[count..], at.saturating_add(count as u64)) {
            Ok(0) => return Ok(count),
            Ok(more) => count += more,
            Err(e) if e.kind() == ErrorKind::Interrupted => {}
            Err(_) => return Err(Failed),
        }
    }
    Err(Failed)
}
