//! The tokens of a script.
ghost use Rattle.std.specs.Prelude.{◌≡◌, false, IfSome};
ghost use Rattle.std.specs.Str.{chars};
ghost use Rattle.mof_syntax.specs.Scanning.{left_of, stopped};
ghost use Rattle.config_script.specs.Digits.{IsPlain};
ghost use Rattle.config_script.specs.Lexing.{lexed_of, split_of, as_token, identifier_in, digits_rest, digits_in, from_apostrophe, verbatim_in, quoted_in, constant_named, constant_in, apostrophe_rest, array_begin_in, integer_in, first_token, separated};
ghost use Rattle.config_script.specs.Tokens.{Text, Word};

use crate::name::{Name, is_word};
use crate::number::Number;
use mof_syntax::scan::{Class, after, identifier_rest};
use mof_syntax::text::{before, first_char};
use mof_values::may_follow;

/// A token and what it stands for.
#[derive(Clone, Copy, Debug)]
pub(crate) enum Token<'a> {
    Word(&'a str),
    Text(Name<'a>),
    Integer(Number<'a>),
    True,
    False,
    Null,
    LeftBrace,
    RightBrace,
    EqualsSign,
    Semicolon,
    Comma,
    ArrayBegin,
    ArrayEnd,
}

/// After the separators that come first, and whether a line feed is among them.
#[inline(always)]
pub(crate) fn separators_rest(text: &str) -> (bool, &str)
    ensures fed { result.0 ≡ (separated false false (chars text.now)).0 }
    ensures rest { chars result.1.now ≡ (separated false false (chars text.now)).1 }
{
    let mut fed = false;
    let mut left = text;
    while let Some((c, rest)) = first_char(left) {
        match c {
            '\n' => {
                fed = true;
                left = rest;
            }
            ' ' | '\t' | '\r' => left = rest,
            '#' => left = after(rest, Class::Line),
            _ => return (fed, left),
        }
    }
    (fed, left)
}

/// The token that comes first, and what is after it.
#[inline(always)]
pub(crate) fn first_token(text: &str) -> Option<(Token<'_>, &str)>
    ensures { lexed_of result ≡ first_token (chars text.now) }
{
    let (c, rest) = first_char(text)?;
    match c {
        '{' => Some((Token::LeftBrace, rest)),
        '}' => Some((Token::RightBrace, rest)),
        '=' => Some((Token::EqualsSign, rest)),
        ';' => Some((Token::Semicolon, rest)),
        ',' => Some((Token::Comma, rest)),
        ')' => Some((Token::ArrayEnd, rest)),
        '@' => array_begin(rest),
        '\'' => verbatim(rest),
        '"' => quoted(rest),
        '$' => constant(rest),
        '-' => integer(true, rest),
        '0'..='9' => integer(false, text),
        _ => word(text),
    }
}

fn word(text: &str) -> Option<(Token<'_>, &str)>
    ensures { lexed_of result ≡ as_token Word (identifier_in (chars text.now)) }
{
    let (name, rest) = identifier(text)?;
    Some((Token::Word(name), rest))
}

// The identifier that comes first, and what is after it.
fn identifier(text: &str) -> Option<(&str, &str)>
    ensures { split_of result ≡ identifier_in (chars text.now) }
{
    let rest = identifier_rest(text)?;
    Some((before(text, rest), rest))
}

// After an `@`.
fn array_begin(text: &str) -> Option<(Token<'_>, &str)>
    ensures { lexed_of result ≡ array_begin_in (chars text.now) }
{
    match first_char(text)? {
        ('(', rest) => Some((Token::ArrayBegin, rest)),
        _ => None,
    }
}

// After an apostrophe: a text that ends with the next one that is not doubled.
fn verbatim(text: &str) -> Option<(Token<'_>, &str)>
    ensures { lexed_of result ≡ as_token Text (verbatim_in (chars text.now)) }
{
    let mut left = from_apostrophe(text);
    while let Some((_, rest)) = first_char(left) {
        let Some(others) = apostrophe_rest(rest) else {
            return Some((Token::Text(Name::Doubled(before(text, left))), rest));
        };
        left = from_apostrophe(others);
    }
    None
}

// From the first apostrophe on; nothing where there is none.
fn from_apostrophe(text: &str) -> &str
    ensures { chars result.now ≡ from_apostrophe (chars text.now) }
{
    match text.find('\'') {
        Some(at) => &text[at..],
        None => "",
    }
}

fn apostrophe_rest(text: &str) -> Option<&str>
    ensures { left_of result ≡ apostrophe_rest (chars text.now) }
{
    match first_char(text)? {
        ('\'', rest) => Some(rest),
        _ => None,
    }
}

// After a quote: a text in which nothing is replaced.
fn quoted(text: &str) -> Option<(Token<'_>, &str)>
    ensures { lexed_of result ≡ as_token Text (quoted_in (chars text.now)) }
{
    let mut left = text;
    while let Some((c, rest)) = first_char(left) {
        match c {
            '"' => return Some((Token::Text(Name::Plain(before(text, left))), rest)),
            '$' | '`' => return None,
            _ => left = rest,
        }
    }
    None
}

// After a dollar sign: one of the three constants, by fold.
fn constant(text: &str) -> Option<(Token<'_>, &str)>
    ensures { lexed_of result ≡ constant_in (chars text.now) }
{
    let (name, rest) = identifier(text)?;
    constant_named(name, rest)
}

fn constant_named<'a>(name: &str, rest: &'a str) -> Option<(Token<'a>, &'a str)>
    ensures { lexed_of result ≡ constant_named (chars name.now) (chars rest.now) }
{
    if is_word(name, "true") {
        Some((Token::True, rest))
    } else if is_word(name, "false") {
        Some((Token::False, rest))
    } else if is_word(name, "null") {
        Some((Token::Null, rest))
    } else {
        None
    }
}

// After the sign: digits without leading zeros, followed by no character of an identifier.
fn integer(is_negative: bool, text: &str) -> Option<(Token<'_>, &str)>
    ensures { lexed_of result ≡ integer_in is_negative (chars text.now) }
{
    let (digits, rest) = digits(text)?;
    Some((
        Token::Integer(Number {
            is_negative,
            digits,
        }),
        rest,
    ))
}

fn digits(text: &str) -> Option<(&str, &str)>
    ensures split { split_of result ≡ digits_in (chars text.now) }
    ensures plain { IfSome result (λ found. IsPlain (chars found.0.now)) }
{
    let rest = digits_rest(text)?;
    Some((before(text, rest), rest))
}

// After digits without leading zeros, which no character of an identifier follows.
fn digits_rest(text: &str) -> Option<&str>
    ensures { left_of result ≡ digits_rest (chars text.now) }
{
    match first_char(text)? {
        ('0', rest) => stopped(rest),
        ('1'..='9', rest) => stopped(after(rest, Class::Decimal)),
        _ => None,
    }
}

// All of it, where no character of an identifier comes first.
fn stopped(text: &str) -> Option<&str>
    ensures { left_of result ≡ stopped (chars text.now) }
{
    match first_char(text) {
        Some((c, _)) if may_follow(c) => None,
        _ => Some(text),
    }
}
