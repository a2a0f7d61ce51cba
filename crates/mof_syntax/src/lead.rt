//! The token that a character begins.
ghost use Rattle.std.specs.Prelude.{◌≡◌, IfSome, IfNone, List, ℕ};
ghost use Rattle.std.specs.Str.{chars};
ghost use Rattle.mof_syntax.specs.Scanning.{IsOnly, StandsQuoted};
ghost use Rattle.mof_syntax.specs.Leads.{lead_of, kind_by, OnlyBy, NoneBy};
ghost use Rattle.mof_syntax.specs.Walk.{StandsToken, NoToken};

use crate::scan::{escape_rest, identifier_rest, magnitude_rest};
use crate::text::first_char;
use crate::token::TokenKind;

/// What begins with a character.
#[derive(Clone, Copy, Debug, PartialEq, Eq)]
pub(crate) enum Lead {
    Mark,
    Quote,
    Dollar,
    Sign,
    Digit,
    Other,
}

/// The kind of the token that begins the text, and what is after it.
pub(crate) fn first_token(text: &str) -> Option<(TokenKind, &str)>
    ensures some { IfSome result (λ found. StandsToken (chars text.now) found.0 (chars found.1.now)) }
    ensures none { IfNone result (NoToken (chars text.now)) }
{
    let (c, others) = first_char(text)?;
    let lead = lead_of(c);
    Some((lead.kind(), token_rest(lead, text, others)?))
}

fn lead_of(c: char) -> Lead
    ensures { result ≡ lead_of c }
{
    match c {
        '{' | '}' | '=' | ';' | ',' => Lead::Mark,
        '"' => Lead::Quote,
        '$' => Lead::Dollar,
        '+' | '-' => Lead::Sign,
        '0'..='9' => Lead::Digit,
        _ => Lead::Other,
    }
}

impl Lead {
    fn kind(self) -> TokenKind
        ensures { result ≡ kind_by self }
    {
        match self {
            Lead::Mark => TokenKind::Mark,
            Lead::Quote => TokenKind::Literal,
            Lead::Dollar => TokenKind::Alias,
            Lead::Sign | Lead::Digit => TokenKind::Integer,
            Lead::Other => TokenKind::Word,
        }
    }
}

// After the token, of which the first character is known; `others` is what is after that.
fn token_rest<'a>(lead: Lead, text: &'a str, others: &'a str) -> Option<&'a str>
    ensures some { IfSome result (λ rest. OnlyBy lead (chars text.now) (chars others.now) (chars rest.now)) }
    ensures none { IfNone result (NoneBy lead (chars text.now) (chars others.now)) }
{
    match lead {
        Lead::Mark => Some(others),
        Lead::Quote => literal_rest(others),
        Lead::Dollar => identifier_rest(others),
        Lead::Sign => magnitude_rest(others),
        Lead::Digit => magnitude_rest(text),
        Lead::Other => identifier_rest(text),
    }
}

// After a literal, of which the quote was read.
fn literal_rest(text: &str) -> Option<&str>
    ensures some { IfSome result (λ rest. IsOnly StandsQuoted (chars text.now) (chars rest.now)) }
    ensures none { IfNone result ((rest : List ℕ) → StandsQuoted (chars text.now) rest → ⊥) }
{
    let mut left = text;
    while let Some((c, others)) = first_char(left) {
        if c == '"' {
            return Some(others);
        }
        if c == '\\' {
            left = escape_rest(others)?;
            continue;
        }
        left = others;
    }
    None
}
