//! Fields from the front of bytes.
ghost use Rattle.std.specs.Prelude.{◌≡◌, true, ◌↔◌, [], IfOk, IfErr, IsTrue, option_map, encode_utf8_all};
ghost use Rattle.std.specs.Int.{w16, w32, w64, w128};
ghost use Rattle.std.specs.Str.{IsUtf8, all_scalars};
ghost use Rattle.store_fields.specs.Fields.{bytes_of_number, bytes_of_byte, bytes_of_flag, bytes_of_text, bytes_of_blob, bytes_of_digest};
ghost use Rattle.store_fields.specs.Fields.{IsNumber, IsByte, IsFlag, IsText, IsBlob, IsDigest};
ghost use Rattle.store_fields.specs.Reading.{Reads, ReadsFront};

use crate::error::FieldError;
use mof_values::{Bytes, Text};
use std::alloc::{AllocError, Global};
use std::marker::Model;

/// The bytes of a body that are still to be read.
#[derive(Debug, Drop)]
pub struct Fields<'a> {
    rest: &'a [u8],
}

impl<'a> Model for Fields<'a> {
    ghost use Rattle.std.specs.Prelude.{List, ℕ};

    ghost Value = { List ℕ };

    ghost view = { λ f. f.rest.now };
}

impl<'a> Fields<'a> {
    /// All of the body is still to be read.
    pub fn of(body: &'a [u8]) -> Fields<'a>
        ensures { result ≡ body.now }
    {
        Fields { rest: body }
    }

    /// A byte, as a count or a kind.
    pub fn byte(&mut self) -> Result<u8, FieldError>
        ensures reads { Reads bytes_of_byte IsByte self.old self.new result }
        ensures no_memory { IfErr result (λ e. e ≡ FieldError.Wrong) }
    {
        let Some((byte, rest)) = byte_at(self.rest) else {
            return Err(FieldError::Wrong);
        };
        self.rest = rest;
        Ok(byte)
    }

    /// A truth value: 0 or 1, and no other byte.
    pub fn flag(&mut self) -> Result<bool, FieldError>
        ensures reads { Reads bytes_of_flag IsFlag self.old self.new result }
        ensures no_memory { IfErr result (λ e. e ≡ FieldError.Wrong) }
    {
        match self.byte() {
            Ok(0) => Ok(false),
            Ok(1) => Ok(true),
            Ok(_) => Err(FieldError::Wrong),
            Err(error) => Err(error),
        }
    }

    /// A number of 2 bytes.
    pub fn u16(&mut self) -> Result<u16, FieldError>
        ensures reads { Reads (bytes_of_number w16) (IsNumber w16) self.old self.new result }
        ensures no_memory { IfErr result (λ e. e ≡ FieldError.Wrong) }
    {
        let Some((number, rest)) = u16_at(self.rest) else {
            return Err(FieldError::Wrong);
        };
        self.rest = rest;
        Ok(number)
    }

    /// A number of 4 bytes.
    pub fn u32(&mut self) -> Result<u32, FieldError>
        ensures reads { Reads (bytes_of_number w32) (IsNumber w32) self.old self.new result }
        ensures no_memory { IfErr result (λ e. e ≡ FieldError.Wrong) }
    {
        let Some((number, rest)) = u32_at(self.rest) else {
            return Err(FieldError::Wrong);
        };
        self.rest = rest;
        Ok(number)
    }

    /// A number of 8 bytes.
    pub fn u64(&mut self) -> Result<u64, FieldError>
        ensures reads { Reads (bytes_of_number w64) (IsNumber w64) self.old self.new result }
        ensures no_memory { IfErr result (λ e. e ≡ FieldError.Wrong) }
    {
        let Some((number, rest)) = u64_at(self.rest) else {
            return Err(FieldError::Wrong);
        };
        self.rest = rest;
        Ok(number)
    }

    /// A number of 16 bytes.
    pub fn u128(&mut self) -> Result<u128, FieldError>
        ensures reads { Reads (bytes_of_number w128) (IsNumber w128) self.old self.new result }
        ensures no_memory { IfErr result (λ e. e ≡ FieldError.Wrong) }
    {
        let Some((number, rest)) = u128_at(self.rest) else {
            return Err(FieldError::Wrong);
        };
        self.rest = rest;
        Ok(number)
    }

    /// The 32 bytes of a digest.
    pub fn digest(&mut self) -> Result<[u8; 32], FieldError>
        ensures reads { Reads bytes_of_digest IsDigest self.old self.new result }
        ensures no_memory { IfErr result (λ e. e ≡ FieldError.Wrong) }
    {
        let Some((digest, rest)) = digest_at(self.rest) else {
            return Err(FieldError::Wrong);
        };
        self.rest = rest;
        Ok(*digest)
    }

    /// A text of at most that many bytes in UTF-8.
    pub fn text(&mut self, alloc: Global, limit: u16) -> Result<Text, FieldError>
        ensures reads { Reads bytes_of_text (IsText limit) self.old self.new result }
    {
        let length = self.u16()?;
        if length > limit {
            return Err(FieldError::Wrong);
        }
        let Some((front, rest)) = self.rest.split_at_checked(usize::from(length)) else {
            return Err(FieldError::Wrong);
        };
        self.rest = rest;
        text_of(alloc, front)
    }

    /// Bytes with their length of 4 bytes.
    pub fn blob(&mut self, alloc: Global) -> Result<Bytes, FieldError>
        ensures reads { Reads bytes_of_blob IsBlob self.old self.new result }
    {
        let length = self.u32()?;
        let Some((front, rest)) = self.rest.split_at_checked(length as usize) else {
            return Err(FieldError::Wrong);
        };
        self.rest = rest;
        Ok(Bytes::of(Vec::from_slice(alloc, front)?))
    }

    /// Returns whether all of the body was read.
    pub fn is_empty(&self) -> bool
        ensures { IsTrue result ↔ (self.now ≡ []) }
    {
        self.rest.is_empty()
    }

    /// All that is still to be read.
    pub fn rest(&self) -> &'a [u8]
        ensures { result.now ≡ self.now }
    {
        self.rest
    }
}

fn byte_at(bytes: &[u8]) -> Option<(u8, &[u8])>
    ensures { ReadsFront bytes_of_byte IsByte bytes.now (option_map (λ read. (read.0, read.1.now)) result) }
{
    match bytes {
        [byte, rest @ ..] => Some((*byte, rest)),
        [] => None,
    }
}

fn u16_at(bytes: &[u8]) -> Option<(u16, &[u8])>
    ensures { ReadsFront (bytes_of_number w16) (IsNumber w16) bytes.now (option_map (λ read. (read.0, read.1.now)) result) }
{
    let Some((front, rest)) = bytes.split_first_chunk::<2>() else {
        return None;
    };
    Some((u16::from_be_bytes(*front), rest))
}

fn u32_at(bytes: &[u8]) -> Option<(u32, &[u8])>
    ensures { ReadsFront (bytes_of_number w32) (IsNumber w32) bytes.now (option_map (λ read. (read.0, read.1.now)) result) }
{
    let Some((front, rest)) = bytes.split_first_chunk::<4>() else {
        return None;
    };
    Some((u32::from_be_bytes(*front), rest))
}

fn u64_at(bytes: &[u8]) -> Option<(u64, &[u8])>
    ensures { ReadsFront (bytes_of_number w64) (IsNumber w64) bytes.now (option_map (λ read. (read.0, read.1.now)) result) }
{
    let Some((front, rest)) = bytes.split_first_chunk::<8>() else {
        return None;
    };
    Some((u64::from_be_bytes(*front), rest))
}

fn u128_at(bytes: &[u8]) -> Option<(u128, &[u8])>
    ensures { ReadsFront (bytes_of_number w128) (IsNumber w128) bytes.now (option_map (λ read. (read.0, read.1.now)) result) }
{
    let Some((high, after)) = u64_at(bytes) else {
        return None;
    };
    let Some((low, rest)) = u64_at(after) else {
        return None;
    };
    Some((u128::from(high) * (1 << 64) + u128::from(low), rest))
}

fn digest_at(bytes: &[u8]) -> Option<(&[u8; 32], &[u8])>
    ensures { ReadsFront bytes_of_digest IsDigest bytes.now (option_map (λ read. (read.0.now, read.1.now)) result) }
{
    let Some((front, rest)) = bytes.split_first_chunk::<32>() else {
        return None;
    };
    Some((front, rest))
}

// The text that the bytes are in UTF-8.
fn text_of(alloc: Global, bytes: &[u8]) -> Result<Text, FieldError>
    ensures ok { IfOk result (λ text. (all_scalars text ≡ true) × (encode_utf8_all text ≡ bytes.now)) }
    ensures wrong { IfErr result (λ e. e ≡ FieldError.Wrong → IsUtf8 bytes.now → ⊥) }
{
    match str::from_utf8(bytes) {
        Ok(text) => Ok(chars_of(alloc, text)?),
        Err(_) => Err(FieldError::Wrong),
    }
}

fn chars_of(alloc: Global, text: &str) -> Result<Text, AllocError>
    ensures { IfOk result (λ chars. encode_utf8_all chars ≡ text.now) }
{
    Ok(Text::of(text.chars().collect(alloc)?))
}
