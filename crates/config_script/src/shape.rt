//! Where a text that is no script goes wrong.
ghost use Rattle.std.specs.Prelude.{◌≡◌};
ghost use Rattle.std.specs.Str.{chars};
ghost use Rattle.config_script.specs.Fronts.{LongestFront, front_rest, keyword_front, text_front, quoted_front, value_front, scalar_front, digits_front, constant_front};
ghost use Rattle.config_script.specs.Scripts.{IsScript};

use crate::place::Place;
use crate::token::{first_token, separators_rest};
use mof_syntax::scan::{Class, after};
use mof_syntax::text::first_char;

/// What is after the longest front of the text with which some script begins.
pub(crate) fn torn_rest(text: &str) -> &str
    ensures { LongestFront IsScript (chars text.now) (chars result.now) }
{
    let mut place = Place::Start;
    let (mut fed, mut left) = separators_rest(text);
    while !left.is_empty() {
        let Some((token, rest)) = first_token(left) else {
            return front_rest(place, left);
        };
        let Some(step) = place.after(fed, token, left) else {
            return front_rest(place, left);
        };
        place = step.place;
        (fed, left) = separators_rest(rest);
    }
    left
}

// What is after the longest front of the text with which a token of the place begins, where no token of it does.
fn front_rest(place: Place, text: &str) -> &str
    ensures { chars result.now ≡ front_rest place (chars text.now) }
{
    match place {
        Place::Start => keyword_front("configuration", text),
        Place::InConfiguration => keyword_front("node", text),
        Place::AfterNode | Place::AfterKind => text_front(text),
        Place::AfterEquals => value_front(text),
        Place::InArray | Place::AfterComma => scalar_front(text),
        _ => text,
    }
}

// After the characters that are those of the word, which is in lower case, by fold.
fn keyword_front<'a>(word: &str, text: &'a str) -> &'a str
    ensures { chars result.now ≡ keyword_front word.now (chars text.now) }
{
    let (mut left, mut codes) = (text, word.as_bytes());
    while let [code, others @ ..] = codes {
        match first_char(left) {
            Some((c, rest)) if c.to_ascii_lowercase() == *code as char => left = rest,
            _ => return left,
        }
        codes = others;
    }
    left
}

fn text_front(text: &str) -> &str
    ensures { chars result.now ≡ text_front (chars text.now) }
{
    match first_char(text) {
        Some(('\'', _)) => "",
        Some(('"', rest)) => quoted_front(rest),
        _ => text,
    }
}

// After the characters of a text in which nothing is replaced.
fn quoted_front(text: &str) -> &str
    ensures { chars result.now ≡ quoted_front (chars text.now) }
{
    let mut left = text;
    while let Some((c, rest)) = first_char(left) {
        if c == '$' || c == '`' {
            return left;
        }
        left = rest;
    }
    left
}

fn value_front(text: &str) -> &str
    ensures { chars result.now ≡ value_front (chars text.now) }
{
    match first_char(text) {
        Some(('@', rest)) => rest,
        _ => scalar_front(text),
    }
}

fn scalar_front(text: &str) -> &str
    ensures { chars result.now ≡ scalar_front (chars text.now) }
{
    match first_char(text) {
        Some(('$', rest)) => constant_front(rest),
        Some(('-', rest)) => digits_front(rest),
        Some(('0'..='9', _)) => digits_front(text),
        _ => text_front(text),
    }
}

fn digits_front(text: &str) -> &str
    ensures { chars result.now ≡ digits_front (chars text.now) }
{
    match first_char(text) {
        Some(('0', rest)) => rest,
        Some(('1'..='9', rest)) => after(rest, Class::Decimal),
        _ => text,
    }
}

// After the `$` of a constant.
fn constant_front(text: &str) -> &str
    ensures { chars result.now ≡ constant_front (chars text.now) }
{
    let Some((c, _)) = first_char(text) else {
        return text;
    };
    match c.to_ascii_lowercase() {
        't' => keyword_front("true", text),
        'f' => keyword_front("false", text),
        'n' => keyword_front("null", text),
        _ => text,
    }
}
