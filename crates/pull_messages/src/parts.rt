//! The parts of targets. Each reader takes its part from the front of some characters.
ghost use Rattle.std.specs.Prelude.{◌≡◌, ◌∷◌, ◌++◌, ℕ, List, ◌↔◌, IfOk, IfSome, IsSome, IfNone, Some, string_bytes, encode_utf8_all, true};
ghost use Rattle.std.specs.Int.{w128, from_be_bytes};
ghost use Rattle.uuid.specs.Text.{parsed_hyphenated};
ghost use Rattle.std.specs.Char.{to_ascii_lowercase};
ghost use Rattle.pull_messages.specs.Targets.{agent_of, IsQuoted};
ghost use Rattle.pull_messages.specs.Stops.{StopsAt, IfLeft, IsWord, IsAgent, IsAnyQuoted, IsEnd, IsValueChar, Takes};
ghost use Rattle.pull_messages.specs.declared.parts.Stop.TheVariants.{Memory as OutOfMemory};
ghost use Rattle.pull_messages.specs.Cells.{is_cell, AreAllCells};

use mof_values::{MAX_NAME_BYTES, Text};
use std::alloc::{AllocError, AllocFailed, Global};
use uuid::fmt::Hyphenated;

/// Why a part was not taken.
#[derive(Clone, Copy, Debug, PartialEq, Eq)]
pub enum Stop {
    /// It does not stand there; that many characters follow the longest front with which it begins.
    Left(usize),

    Memory,
}

impl From<AllocError> for Stop {
    ghost from_gives = { λ _ e. e ≡ OutOfMemory };

    fn from(_: AllocError) -> Self {
        Stop::Memory
    }
}

impl<T: Drop> From<AllocFailed<T>> for Stop {
    ghost from_gives = { λ _ e. e ≡ OutOfMemory };

    fn from(_: AllocFailed<T>) -> Self {
        Stop::Memory
    }
}

/// A word, by fold.
pub fn word<'c>(chars: &'c [char], name: &str) -> Result<&'c [char], Stop>
    ensures taken { IfOk result (λ rest. Takes (IsWord name.now) chars.now rest.now) }
    ensures stop { IfLeft result (StopsAt (IsWord name.now) chars.now) }
{
    let (mut left, mut codes) = (chars, name.as_bytes());
    while let [code, after @ ..] = codes {
        match letter(left, *code) {
            Some(rest) => (left, codes) = (rest, after),
            None => return Err(Stop::Left(left.len())),
        }
    }
    Ok(left)
}

fn letter(chars: &[char], code: u8) -> Option<&[char]>
    ensures some { IfSome result (λ rest. (c : ℕ) × (chars.now ≡ c ∷ rest.now)
        × (to_ascii_lowercase c ≡ to_ascii_lowercase code)) }
    ensures none { IfNone result ((c : ℕ) (rest : List ℕ) → chars.now ≡ c ∷ rest
        → to_ascii_lowercase c ≡ to_ascii_lowercase code → ⊥) }
{
    match chars {
        [c, rest @ ..] => {
            if c.to_ascii_lowercase() as u32 == code.to_ascii_lowercase() as u32 {
                Some(rest)
            } else {
                None
            }
        }
        [] => None,
    }
}

/// The identifier of an agent, in the hyphenated form, with digits in either case.
pub fn agent(alloc: Global, chars: &[char]) -> Result<(u128, &[char]), Stop>
    ensures taken { IfOk result (λ x. Takes (λ text. agent_of text ≡ Some x.0) chars.now x.1.now) }
    ensures stop { IfLeft result (StopsAt IsAgent chars.now) }
{
    let rest = agent_cells(chars)?;
    let id = hyphenated(alloc, &chars[..chars.len() - rest.len()])?;
    Ok((id, rest))
}

// The number of the identifier that the characters are.
fn hyphenated(alloc: Global, chars: &[char]) -> Result<u128, AllocError>
    requires { AreAllCells chars.now }
    ensures { IfOk result (λ id. agent_of chars.now ≡ Some id) }
{
    let text = spelled(alloc, chars)?;
    Ok(hyphenated_id(&text).unwrap())
}

fn spelled(alloc: Global, chars: &[char]) -> Result<String, AllocError>
    ensures { IfOk result (λ s. string_bytes s ≡ encode_utf8_all chars.now) }
{
    chars.iter().copied().collect(alloc)
}

fn hyphenated_id(text: &str) -> Option<u128>
    ensures some { IfSome result (λ id. (bytes : List ℕ) × (parsed_hyphenated text.now ≡ Some bytes)
        × (id ≡ from_be_bytes w128 bytes)) }
    ensures found { IsSome result ↔ ((bytes : List ℕ) × (parsed_hyphenated text.now ≡ Some bytes)) }
{
    match text.parse::<Hyphenated>() {
        Ok(id) => Some(id.into_uuid().as_u128()),
        Err(_) => None,
    }
}

fn agent_cells(chars: &[char]) -> Result<&[char], Stop>
    ensures taken { IfOk result (λ rest. Takes AreAllCells chars.now rest.now) }
    ensures stop { IfLeft result (StopsAt IsAgent chars.now) }
{
    let mut left = chars;
    for place in 0..36 {
        match cell(left, place) {
            Some(rest) => left = rest,
            None => return Err(Stop::Left(left.len())),
        }
    }
    Ok(left)
}

fn cell(chars: &[char], place: usize) -> Option<&[char]>
    ensures some { IfSome result (λ rest. (c : ℕ) × (chars.now ≡ c ∷ rest.now) × (is_cell place c ≡ true)) }
    ensures none { IfNone result ((c : ℕ) (rest : List ℕ) → chars.now ≡ c ∷ rest → is_cell place c ≡ true → ⊥) }
{
    match chars {
        [c, rest @ ..] => if fits_cell(*c, place) {
            Some(rest)
        } else {
            None
        },
        [] => None,
    }
}

fn fits_cell(c: char, place: usize) -> bool
    ensures { result ≡ is_cell place c }
{
    if place == 8 || place == 13 || place == 18 || place == 23 {
        c == '-'
    } else {
        c.is_ascii_hexdigit()
    }
}

/// A text in quotes, and the character that stands after it, `)` or `,`.
pub fn quoted(alloc: Global, chars: &[char], end: char) -> Result<(Text, &[char]), Stop>
    requires { IsEnd end }
    ensures taken { IfOk result (λ x. Takes (IsQuoted x.0 end) chars.now x.1.now) }
    ensures stop { IfLeft result (StopsAt (IsAnyQuoted end) chars.now) }
{
    let Some(mut left) = rest_after(chars, '\'') else {
        return Err(Stop::Left(chars.len()))
    };
    let mut text = Vec::new(alloc);
    let mut capacity = MAX_NAME_BYTES;
    while let Some((c, rest)) = value_char(left, capacity) {
        text.push(c)?;
        capacity -= c.len_utf8();
        left = rest;
    }
    let Some(rest) = rest_after(left, '\'') else {
        return Err(Stop::Left(left.len()))
    };
    if text.as_slice().is_empty() {
        return Err(Stop::Left(rest.len()));
    }
    match rest_after(rest, end) {
        Some(after) => Ok((Text::of(text), after)),
        None => Err(Stop::Left(rest.len())),
    }
}

// The first character of a value, of at most `capacity` bytes: a quote stands there twice.
fn value_char(chars: &[char], capacity: usize) -> Option<(char, &[char])>
    ensures some { IfSome result (λ x. IsValueChar chars.now capacity x.0 x.1.now) }
    ensures none { IfNone result ((c : ℕ) (rest : List ℕ) → IsValueChar chars.now capacity c rest
        → ⊥) }
{
    match chars {
        ['\'', '\'', rest @ ..] => if 1 <= capacity {
            Some(('\'', rest))
        } else {
            None
        },
        [c, rest @ ..] => if *c != '\'' && c.len_utf8() <= capacity {
            Some((*c, rest))
        } else {
            None
        },
        [] => None,
    }
}

// What stands after that character.
fn rest_after(chars: &[char], first: char) -> Option<&[char]>
    ensures some { IfSome result (λ rest. chars.now ≡ first ∷ rest.now) }
    ensures none { IfNone result ((rest : List ℕ) → chars.now ≡ first ∷ rest → ⊥) }
{
    match chars {
        [c, rest @ ..] => if *c == first { Some(rest) } else { None },
        [] => None,
    }
}
