//! Fields at the end of a buffer.
//!
//! The only error is `Memory`. It comes only where the buffer lacks the capacity for the field, and leaves what was there, maybe
//! followed by a part of the field.
ghost use Rattle.std.specs.Prelude.{◌≡◌, ◌≤◌, true, length, encode_utf8_all};
ghost use Rattle.std.specs.Int.{w16, w32, w64, w128};
ghost use Rattle.std.specs.Str.{all_scalars};
ghost use Rattle.store_fields.specs.Fields.{bytes_of_number, bytes_of_byte, bytes_of_flag, bytes_of_text, bytes_of_blob, bytes_of_digest};
ghost use Rattle.store_fields.specs.declared.limits.TheConstants.{MAX_TEXT};
ghost use Rattle.store_fields.specs.Fields.{IsBlob, IsDigest};
ghost use Rattle.store_fields.specs.Writing.{Writes};

use mof_values::{Memory, Text};

/// A byte, as a count or a kind.
pub fn put_byte(into: &mut Vec<u8>, byte: u8) -> Result<(), Memory>
    ensures { Writes (bytes_of_byte byte) into.old into.new result }
{
    put_bytes(into, &[byte])
}

/// A truth value.
pub fn put_flag(into: &mut Vec<u8>, flag: bool) -> Result<(), Memory>
    ensures { Writes (bytes_of_flag flag) into.old into.new result }
{
    put_byte(into, if flag { 1 } else { 0 })
}

/// A number of 2 bytes.
#[tactic(auto, unfolding(crate::specs::Fields::bytes_of_number))]
pub fn put_u16(into: &mut Vec<u8>, number: u16) -> Result<(), Memory>
    ensures { Writes (bytes_of_number w16 number) into.old into.new result }
{
    put_bytes(into, &number.to_be_bytes())
}

/// A number of 4 bytes.
#[tactic(auto, unfolding(crate::specs::Fields::bytes_of_number))]
pub fn put_u32(into: &mut Vec<u8>, number: u32) -> Result<(), Memory>
    ensures { Writes (bytes_of_number w32 number) into.old into.new result }
{
    put_bytes(into, &number.to_be_bytes())
}

/// A number of 8 bytes.
#[tactic(auto, unfolding(crate::specs::Fields::bytes_of_number))]
pub fn put_u64(into: &mut Vec<u8>, number: u64) -> Result<(), Memory>
    ensures { Writes (bytes_of_number w64 number) into.old into.new result }
{
    put_bytes(into, &number.to_be_bytes())
}

/// A number of 16 bytes.
#[tactic(auto, unfolding(crate::specs::Fields::bytes_of_number))]
pub fn put_u128(into: &mut Vec<u8>, number: u128) -> Result<(), Memory>
    ensures { Writes (bytes_of_number w128 number) into.old into.new result }
{
    put_bytes(into, &number.to_be_bytes())
}

/// The bytes of a digest.
pub fn put_digest(into: &mut Vec<u8>, digest: &[u8; 32]) -> Result<(), Memory>
    ensures writes { Writes (bytes_of_digest digest.now) into.old into.new result }
    ensures in_range { IsDigest digest.now }
{
    put_bytes(into, digest)
}

/// A text of at most 65,535 bytes in UTF-8.
pub fn put_text(into: &mut Vec<u8>, text: &Text) -> Result<(), Memory>
    requires { length (encode_utf8_all text.now) ≤ MAX_TEXT }
    ensures writes { Writes (bytes_of_text text.now) into.old into.new result }
    ensures scalars { all_scalars text.now ≡ true }
{
    put_u16(into, utf8_length(text) as u16)?;
    put_chars(into, text.as_slice())
}

/// Bytes with their length of 4 bytes.
pub fn put_blob(into: &mut Vec<u8>, bytes: &[u8]) -> Result<(), Memory>
    requires { IsBlob bytes.now }
    ensures { Writes (bytes_of_blob bytes.now) into.old into.new result }
{
    put_u32(into, bytes.len() as u32)?;
    put_bytes(into, bytes)
}

/// Bytes as they are, without a length.
pub fn put_bytes(into: &mut Vec<u8>, bytes: &[u8]) -> Result<(), Memory>
    ensures { Writes bytes.now into.old into.new result }
{
    Ok(into.extend_from_slice(bytes)?)
}

// How many bytes the text has in UTF-8.
fn utf8_length(text: &Text) -> usize
    requires { length (encode_utf8_all text.now) ≤ MAX_TEXT }
    ensures length { result ≡ length (encode_utf8_all text.now) }
    ensures scalars { all_scalars text.now ≡ true }
{
    let mut length = 0;
    let mut chars = text.as_slice();
    while let [c, rest @ ..] = chars {
        length += c.len_utf8();
        chars = rest;
    }
    length
}

// Each character in UTF-8.
fn put_chars(into: &mut Vec<u8>, chars: &[char]) -> Result<(), Memory>
    ensures { Writes (encode_utf8_all chars.now) into.old into.new result }
{
    let mut left = chars;
    while let [c, rest @ ..] = left {
        put_bytes(into, c.encode_utf8(&mut [0; 4]).as_bytes())?;
        left = rest;
    }
    Ok(())
}
