//! String literals, joined, and their escapes.
ghost use Rattle.std.specs.Prelude.{◌≡◌, ◌++◌, IfOk, IfSome, IfNone};
ghost use Rattle.std.specs.Str.{chars};
ghost use Rattle.mof_syntax.specs.Characters.{is_x};
ghost use Rattle.mof_syntax.specs.Strings.{short_escape, Escape};
ghost use Rattle.mof_syntax.specs.Grammar.{StringValue};
ghost use Rattle.mof_codec.specs.Reading.{BeginsWith, Lacks};
ghost use Rattle.mof_codec.specs.Values.{AnyText, BeginsQuote, NoLiteralFirst, AddsQuoted, NoQuoted, is_plain, IsPlainTo, GoesOnBy, GoesOnByOne, OnlyQuoteFirst, NoEscape, HexEscape, NoHexEscape};

use crate::values::marks::char_rest;
use mof_syntax::scan::{hex_digit, hex_tail};
use mof_syntax::separators_rest;
use mof_syntax::text::{before, char_count, first_char};
use mof_values::Text;
use std::alloc::{AllocError, Global};

/// The text of one or more literals, joined, and what is after: no further literal.
pub(crate) fn string(alloc: Global, text: &str) -> Result<Option<(Text, &str)>, AllocError>
    ensures some { IfOk result (λ found. IfSome found (λ x. BeginsWith StringValue AnyText (chars text.now) x.0 (chars x.1.now))) }
    ensures none { IfOk result (λ found. IfNone found (Lacks StringValue AnyText (chars text.now))) }
{
    let Some(first) = quote_rest(text) else {
        return Ok(None);
    };
    let mut read = Vec::new(alloc);
    let Some(rest) = push_quoted(&mut read, first)? else {
        return Ok(None);
    };
    let mut left = rest;
    while let Some(after) = quote_rest(left) {
        let Some(rest) = push_quoted(&mut read, after)? else {
            return Ok(None);
        };
        left = rest;
    }
    Ok(Some((Text::of(read), left)))
}

// After a quote that stands after separators.
fn quote_rest(text: &str) -> Option<&str>
    ensures some { IfSome result (λ after. BeginsQuote (chars text.now) (chars after.now)) }
    ensures none { IfNone result (NoLiteralFirst (chars text.now)) }
{
    char_rest(separators_rest(text), '"')
}

// Adds the text of a literal, of which the quote was read: what is after it.
fn push_quoted<'a>(read: &mut Vec<char>, text: &'a str) -> Result<Option<&'a str>, AllocError>
    ensures some { IfOk result (λ found. IfSome found (λ rest. AddsQuoted read.old.items (chars text.now) read.new.items (chars rest.now))) }
    ensures none { IfOk result (λ found. IfNone found (NoQuoted (chars text.now))) }
{
    let mut left = text;
    loop {
        let (plain, after) = plain_front(left);
        push_chars(read, plain)?;
        if let Some(rest) = char_rest(after, '"') {
            return Ok(Some(rest));
        }
        let Some((c, rest)) = literal_char(after) else {
            return Ok(None);
        };
        read.push(c)?;
        left = rest;
    }
}

// Appends the characters of a text, for all of which memory is reserved at once.
fn push_chars(read: &mut Vec<char>, text: &str) -> Result<(), AllocError>
    ensures { IfOk result (λ _. read.new.items ≡ read.old.items ++ chars text.now) }
{
    read.reserve(char_count(text))?;
    let mut left = text;
    while let Some((c, rest)) = first_char(left) {
        read.push(c)?;
        left = rest;
    }
    Ok(())
}

// The characters before the first quote or backslash, and what is after them.
fn plain_front(text: &str) -> (&str, &str)
    ensures front { GoesOnBy (chars text.now) (chars result.0.now) (chars result.1.now) }
    ensures split { chars text.now ≡ chars result.0.now ++ chars result.1.now }
{
    let left = plain_rest(text);
    (before(text, left), left)
}

// What begins with the first quote or backslash.
fn plain_rest(text: &str) -> &str
    ensures { IsPlainTo (chars text.now) (chars result.now) }
{
    let mut left = text;
    while let Some((c, rest)) = first_char(left) {
        if !is_plain(c) {
            return left;
        }
        left = rest;
    }
    left
}

// Returns whether the character stands in a literal for itself.
fn is_plain(c: char) -> bool
    ensures { result ≡ is_plain c }
{
    !matches!(c, '"' | '\\')
}

// A character of a literal, itself or by an escape, and what is after.
fn literal_char(text: &str) -> Option<(char, &str)>
    ensures some { IfSome result (λ found. GoesOnByOne (chars text.now) found.0 (chars found.1.now)) }
    ensures none { IfNone result (OnlyQuoteFirst (chars text.now)) }
{
    let (c, rest) = first_char(text)?;
    if c == '"' {
        return None;
    }
    if c == '\\' {
        return escape(rest);
    }
    Some((c, rest))
}

// What an escape stands for, of which the backslash was read, and what is after.
fn escape(text: &str) -> Option<(char, &str)>
    ensures some { IfSome result (λ found. Escape (chars text.now) found.0 (chars found.1.now)) }
    ensures none { IfNone result (NoEscape (chars text.now)) }
{
    let (c, rest) = first_char(text)?;
    if let Some(value) = short_escape(c) {
        return Some((value, rest));
    }
    if is_x(c) { hex_escape(rest) } else { None }
}

fn is_x(c: char) -> bool
    ensures { result ≡ is_x c }
{
    matches!(c, 'x' | 'X')
}

fn short_escape(c: char) -> Option<char>
    ensures { result ≡ short_escape c }
{
    match c {
        'b' => Some('\u{8}'),
        't' => Some('\t'),
        'n' => Some('\n'),
        'f' => Some('\u{c}'),
        'r' => Some('\r'),
        '"' => Some('"'),
        '\'' => Some('\''),
        '\\' => Some('\\'),
        _ => None,
    }
}

// One to four digits after an x.
fn hex_escape(text: &str) -> Option<(char, &str)>
    ensures some { IfSome result (λ found. HexEscape (chars text.now) found.0 (chars found.1.now)) }
    ensures none { IfNone result (NoHexEscape (chars text.now)) }
{
    let (first, others) = hex_digit(text)?;
    let (value, rest) = hex_tail(others, first);
    Some((char::from_u32(value)?, rest))
}
