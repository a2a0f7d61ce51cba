//! Comparing what a reader gives.
ghost use Rattle.std.specs.Prelude.{◌≡◌, ◌<◌, IfOk, IfSome, length, true};
ghost use Rattle.std.specs.Str.{bytes_eq};

use crate::reading::{BUFFER_SIZE, read_some};
use dsc_outside::Failed;
use std::io::Read;

// How much is read at once of what is to have fewer bytes: the whole buffer is made zeros first.
const SMALL_SIZE: usize = 512;

/// Answers whether all that the reader gives, up to its end, is exactly these bytes. It reads no further than it must.
pub fn gives_exactly<R: Read>(reader: &mut R, bytes: &[u8]) -> Result<bool, Failed>
    ensures { IfOk result (λ same. IfSome (R.remaining reader.old) (λ all. same ≡ bytes_eq all bytes.now)) }
{
    if bytes.len() < SMALL_SIZE {
        compare(reader, bytes, &mut [0; SMALL_SIZE])
    } else {
        compare(reader, bytes, &mut [0; BUFFER_SIZE])
    }
}

/// The same of a reader that has that many bytes in all: where they came, their end is not asked for.
pub fn gives_sized<R: Read>(reader: &mut R, size: u64, bytes: &[u8]) -> Result<bool, Failed>
    ensures { IfOk result (λ same. IfSome (R.remaining reader.old) (λ all. length all ≡ size → same ≡ bytes_eq all bytes.now)) }
{
    if bytes.len() >= SMALL_SIZE || bytes.len() as u64 != size {
        return gives_exactly(reader, bytes);
    }
    let mut buffer = [0; SMALL_SIZE];
    let count = read_some(reader, &mut buffer)?;
    let Some(rest) = bytes.strip_prefix(&buffer[..count]) else {
        return Ok(false);
    };
    if rest.is_empty() {
        return Ok(true);
    }
    gives_exactly(reader, rest)
}

/// Answers whether the file that is open under that number, and has that many bytes, gave exactly these in one read from its front on.
/// Where it did not, it may still have them.
pub fn gives_at_once(number: i32, size: u64, bytes: &[u8]) -> bool
    ensures { result ≡ true → length bytes.now ≡ size }
{
    if bytes.len() >= SMALL_SIZE || bytes.len() as u64 != size {
        return false;
    }
    let mut buffer = [0; SMALL_SIZE];
    match usize::try_from(libc::pread(number, &mut buffer, 0)) {
        Ok(count) => buffer.get(..count) == Some(bytes),
        Err(_) => false,
    }
}

// The same by way of the buffer.
fn compare<R: Read>(reader: &mut R, bytes: &[u8], buffer: &mut [u8]) -> Result<bool, Failed>
    requires { 0 < length buffer.old }
    ensures { IfOk result (λ same. IfSome (R.remaining reader.old) (λ all. same ≡ bytes_eq all bytes.now)) }
{
    let mut rest = bytes;
    for _ in 0..u64::MAX {
        let count = read_some(reader, buffer)?;
        if count == 0 {
            return Ok(rest.is_empty());
        }
        match rest.strip_prefix(&buffer[..count]) {
            None => return Ok(false),
            Some(after) => rest = after,
        }
    }
    Err(Failed)
}
