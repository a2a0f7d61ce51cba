//! What is after a construct at the front of a text.
ghost use Rattle.std.specs.Prelude.{◌≡◌, ◌<◌, IfSome, IfNone};
ghost use Rattle.std.specs.Str.{chars};
ghost use Rattle.mof_syntax.specs.Characters.{digit_of, Stops};
ghost use Rattle.mof_syntax.specs.Scanning.{left_of, BeginsWithDigit, is_in, after, block_rest, comment_rest, separator_rest, identifier_rest, hex_tail, hex_escape_rest, escape_rest, stopped, suffix_rest, binary_rest, hex_rest, zero_rest, unmarked_rest, magnitude_rest};

use crate::text::first_char;
use mof_values::{may_begin, may_follow};

/// A class of characters.
#[derive(Clone, Copy, Debug, PartialEq, Eq)]
pub enum Class {
    /// What may follow in an identifier.
    Name,

    Binary,
    Octal,
    Decimal,
    Hexadecimal,

    /// All but a line feed.
    Line,
}

impl Class {
    fn contains(self, c: char) -> bool
        ensures { result ≡ is_in self c }
    {
        match self {
            Class::Name => may_follow(c),
            Class::Binary => c.is_digit(2),
            Class::Octal => c.is_digit(8),
            Class::Decimal => c.is_digit(10),
            Class::Hexadecimal => c.is_digit(16),
            Class::Line => c != '\n',
        }
    }
}

/// After the characters of the class, as many as there are.
pub fn after(text: &str, class: Class) -> &str
    ensures { chars result.now ≡ after (is_in class) (chars text.now) }
{
    let mut left = text;
    while let Some((c, rest)) = first_char(left) {
        if !class.contains(c) {
            return left;
        }
        left = rest;
    }
    left
}

/// After a separator.
pub(crate) fn separator_rest(text: &str) -> Option<&str>
    ensures { left_of result ≡ separator_rest (chars text.now) }
{
    match first_char(text)? {
        (' ' | '\t' | '\n' | '\r', rest) => Some(rest),
        ('/', rest) => comment_rest(rest),
        _ => None,
    }
}

fn comment_rest(text: &str) -> Option<&str>
    ensures { left_of result ≡ comment_rest (chars text.now) }
{
    match first_char(text)? {
        ('/', rest) => Some(after(rest, Class::Line)),
        ('*', rest) => block_rest(rest),
        _ => None,
    }
}

fn block_rest(text: &str) -> Option<&str>
    ensures { left_of result ≡ block_rest (chars text.now) }
{
    let mut left = text;
    while let Some((first, rest)) = first_char(left) {
        if first == '*'
            && let Some(('/', after)) = first_char(rest)
        {
            return Some(after);
        }
        left = rest;
    }
    None
}

/// After an identifier.
pub fn identifier_rest(text: &str) -> Option<&str>
    ensures { left_of result ≡ identifier_rest (chars text.now) }
{
    match first_char(text)? {
        (c, rest) if may_begin(c) => Some(after(rest, Class::Name)),
        _ => None,
    }
}

/// After the digits of an integer and the marks of its base.
pub fn magnitude_rest(text: &str) -> Option<&str>
    ensures { left_of result ≡ magnitude_rest (chars text.now) }
{
    match binary_rest(text) {
        Some(rest) => Some(rest),
        None => unmarked_rest(text),
    }
}

/// After the digits of an integer of base 2 and its mark.
pub fn binary_rest(text: &str) -> Option<&str>
    ensures { left_of result ≡ binary_rest (chars text.now) }
{
    let (c, rest) = first_char(text)?;
    if !Class::Binary.contains(c) {
        return None;
    }
    suffix_rest(after(rest, Class::Binary))
}

fn suffix_rest(text: &str) -> Option<&str>
    ensures { left_of result ≡ suffix_rest (chars text.now) }
{
    match first_char(text)? {
        ('b' | 'B', rest) => stopped(rest),
        _ => None,
    }
}

// The digits of a base that no letter after them marks.
fn unmarked_rest(text: &str) -> Option<&str>
    ensures { left_of result ≡ unmarked_rest (chars text.now) }
{
    match first_char(text)? {
        ('0', rest) => zero_rest(rest),
        (c, rest) if Class::Decimal.contains(c) => stopped(after(rest, Class::Decimal)),
        _ => None,
    }
}

fn zero_rest(text: &str) -> Option<&str>
    ensures { left_of result ≡ zero_rest (chars text.now) }
{
    match first_char(text) {
        Some(('x' | 'X', rest)) => hex_rest(rest),
        _ => stopped(after(text, Class::Octal)),
    }
}

fn hex_rest(text: &str) -> Option<&str>
    ensures { left_of result ≡ hex_rest (chars text.now) }
{
    let (c, rest) = first_char(text)?;
    if !Class::Hexadecimal.contains(c) {
        return None;
    }
    stopped(after(rest, Class::Hexadecimal))
}

// All of it, where no identifier character comes first.
fn stopped(text: &str) -> Option<&str>
    ensures { left_of result ≡ stopped (chars text.now) }
{
    match first_char(text) {
        Some((c, _)) if Class::Name.contains(c) => None,
        _ => Some(text),
    }
}

/// After an escape, of which the backslash was read.
pub(crate) fn escape_rest(text: &str) -> Option<&str>
    ensures { left_of result ≡ escape_rest (chars text.now) }
{
    match first_char(text)? {
        ('b' | 't' | 'n' | 'f' | 'r' | '"' | '\'' | '\\', rest) => Some(rest),
        ('x' | 'X', rest) => hex_escape_rest(rest),
        _ => None,
    }
}

fn hex_escape_rest(text: &str) -> Option<&str>
    ensures { left_of result ≡ hex_escape_rest (chars text.now) }
{
    let (first, others) = hex_digit(text)?;
    let (value, rest) = hex_tail(others, first);
    match value {
        0xd800..=0xdfff => None,
        _ => Some(rest),
    }
}

/// Up to three further digits after the value of a first: the value with them, and what is after.
pub fn hex_tail(text: &str, first: u32) -> (u32, &str)
    requires { first < 16 }
    ensures value { result.0 ≡ (hex_tail 3 first (chars text.now)).0 }
    ensures rest { chars result.1.now ≡ (hex_tail 3 first (chars text.now)).1 }
{
    let Some((second, after_two)) = hex_digit(text) else {
        return (first, text);
    };
    let two = first * 16 + second;
    let Some((third, after_three)) = hex_digit(after_two) else {
        return (two, after_two);
    };
    let three = two * 16 + third;
    match hex_digit(after_three) {
        Some((fourth, rest)) => (three * 16 + fourth, rest),
        None => (three, after_three),
    }
}

/// The value of the digit that comes first, and what is after.
pub fn hex_digit(text: &str) -> Option<(u32, &str)>
    ensures some { IfSome result (λ found.
        BeginsWithDigit (chars text.now) found.0 (chars found.1.now)) }
    ensures none { IfNone result (Stops (digit_of 16) (chars text.now)) }
{
    let (c, rest) = first_char(text)?;
    Some((c.to_digit(16)?, rest))
}
