//! Integers of each base, after separators.
ghost use Rattle.std.specs.Prelude.{◌≡◌, ◌≤◌, ◌^◌, ◌↔◌, true, IfSome, IfNone};
ghost use Rattle.std.specs.Str.{chars};
ghost use Rattle.std.specs.Str.Parse.{digits_value};
ghost use Rattle.mof_syntax.specs.Characters.{digit_of};
ghost use Rattle.mof_syntax.specs.Limits.{IsInRange};
ghost use Rattle.mof_syntax.specs.Scanning.{run_of, zero_value, unmarked_value, magnitude_value};
ghost use Rattle.mof_codec.specs.Reading.{BeginsWith, Lacks};
ghost use Rattle.mof_codec.specs.Searching.{BeginsExcessInteger};
ghost use Rattle.mof_codec.specs.Values.{IsNumber, IsCapped, signed, is_negative, sign_rest};

use mof_syntax::scan::{binary_rest, magnitude_rest};
use mof_syntax::separators_rest;
use mof_syntax::text::first_char;

// The first magnitude that no integer has.
const CAP: u128 = 0x1_0000_0000_0000_0000;

/// An integer from -2^63 to 2^64-1, and what is after.
pub(crate) fn integer(text: &str) -> Option<(i128, &str)>
    ensures some { IfSome result (λ found. BeginsWith IsNumber IsInRange (chars text.now) found.0 (chars found.1.now)) }
    ensures none { IfNone result (Lacks IsNumber IsInRange (chars text.now)) }
{
    let left = separators_rest(text);
    let digits = sign_rest(left);
    let rest = magnitude_rest(digits)?;
    let value = in_range(is_negative(left), magnitude(digits))?;
    Some((value, rest))
}

/// Returns whether an integer out of that range comes first, as long as it goes on.
pub(crate) fn is_out_of_range(text: &str) -> bool
    ensures { result ≡ true ↔ BeginsExcessInteger (chars text.now) }
{
    let digits = sign_rest(text);
    match magnitude_rest(digits) {
        Some(_) => match in_range(is_negative(text), magnitude(digits)) {
            Some(_) => false,
            None => true,
        },
        None => false,
    }
}

fn is_negative(text: &str) -> bool
    ensures { result ≡ is_negative (chars text.now) }
{
    matches!(first_char(text), Some(('-', _)))
}

fn sign_rest(text: &str) -> &str
    ensures { chars result.now ≡ sign_rest (chars text.now) }
{
    match first_char(text) {
        Some(('-' | '+', rest)) => rest,
        _ => text,
    }
}

fn in_range(negative: bool, magnitude: u128) -> Option<i128>
    ensures some { IfSome result (λ z. (z ≡ signed negative magnitude) × IsInRange (signed negative magnitude)) }
    ensures none { IfNone result (IsInRange (signed negative magnitude) → ⊥) }
{
    if negative {
        if magnitude > 0x8000_0000_0000_0000 {
            return None;
        }
        return Some(-(magnitude as i128));
    }
    if magnitude >= CAP {
        return None;
    }
    Some(magnitude as i128)
}

// The value of the digits and the marks of their base, up to the cap.
fn magnitude(text: &str) -> u128
    ensures { IsCapped (magnitude_value (chars text.now)) result }
{
    match binary_rest(text) {
        Some(_) => digits(text, 2),
        None => unmarked(text),
    }
}

fn unmarked(text: &str) -> u128
    ensures { IsCapped (unmarked_value (chars text.now)) result }
{
    match first_char(text) {
        Some(('0', rest)) => zero_magnitude(rest),
        _ => digits(text, 10),
    }
}

fn zero_magnitude(text: &str) -> u128
    ensures { IsCapped (zero_value (chars text.now)) result }
{
    match first_char(text) {
        Some(('x' | 'X', rest)) => digits(rest, 16),
        _ => digits(text, 8),
    }
}

// The value of the digits that come first, up to the cap.
fn digits(text: &str, base: u32) -> u128
    requires least { 2 ≤ base }
    requires greatest { base ≤ 16 }
    ensures { IsCapped (digits_value base (run_of (digit_of base) (chars text.now))) result }
{
    let mut value: u128 = 0;
    let mut left = text;
    while let Some((c, rest)) = first_char(left) {
        let Some(digit) = c.to_digit(base) else {
            return value;
        };
        value = capped(value * base as u128 + digit as u128);
        left = rest;
    }
    value
}

fn capped(value: u128) -> u128
    ensures same { IsCapped value result }
    ensures most { result ≤ 2 ^ 64 }
{
    if value < CAP { value } else { CAP }
}
