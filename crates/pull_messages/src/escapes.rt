//! Escapes (RFC 3986, section 2.1): a byte stands for itself, unless it is `%`, or is written as `%` and its two
//! hexadecimal digits.
ghost use Rattle.std.specs.Prelude.{◌≡◌, ◌<◌, ◌++◌, List, ℕ, IfOk, IfSome, IfNone};
ghost use Rattle.pull_messages.specs.Escapes.{IsWritten, IsUnescaped, IsEscapeOf, IsFrontOf, HasNoByte, digit_of};

use std::alloc::{AllocError, Global};

/// The bytes of the longest front of whole escapes and other bytes.
pub fn unescape(alloc: Global, text: &[u8]) -> Result<Vec<u8>, AllocError>
    ensures { IfOk result (λ v. IsUnescaped text.now v.items) }
{
    let mut bytes = Vec::new(alloc);
    let mut left = text;
    while let Some((byte, rest)) = first_byte(left) {
        bytes.push(byte)?;
        left = rest;
    }
    Ok(bytes)
}

/// The size of the front that writes `count` bytes, or all where there are fewer.
pub fn front_size(text: &[u8], count: usize) -> usize
    ensures { IsFrontOf text.now count result }
{
    let mut left = text;
    for _ in 0..count {
        match first_byte(left) {
            Some((_, rest)) => left = rest,
            None => return text.len() - left.len(),
        }
    }
    text.len() - left.len()
}

// The first byte and what follows it.
fn first_byte(text: &[u8]) -> Option<(u8, &[u8])>
    ensures some { IfSome result (λ x. (front : List ℕ) × (text.now ≡ front ++ x.1.now) × IsWritten x.0 front) }
    ensures none { IfNone result (HasNoByte text.now) }
{
    match text {
        [byte, rest @ ..] => if *byte == b'%' {
            escaped(rest)
        } else {
            Some((*byte, rest))
        },
        [] => None,
    }
}

// The byte whose digits stand after a `%`.
fn escaped(text: &[u8]) -> Option<(u8, &[u8])>
    ensures some { IfSome result (λ x. IsEscapeOf text.now x.0 x.1.now) }
    ensures none { IfNone result ((byte : ℕ) (rest : List ℕ) → IsEscapeOf text.now byte rest → ⊥) }
{
    match text {
        [high, low, rest @ ..] => {
            match (digit(*high), digit(*low)) {
                (Some(high), Some(low)) => Some(((high * 16 + low) as u8, rest)),
                _ => None,
            }
        }
        _ => None,
    }
}

fn digit(code: u8) -> Option<u32>
    ensures value { result ≡ digit_of code }
    ensures small { IfSome result (λ d. d < 16) }
{
    char::from(code).to_digit(16)
}
