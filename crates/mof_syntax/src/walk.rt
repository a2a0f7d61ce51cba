//! A walk over the tokens of a text.
ghost use Rattle.std.specs.Prelude.{◌≡◌, ◌<◌, ◌^◌, None, length};
ghost use Rattle.std.specs.Str.{chars};
ghost use Rattle.mof_syntax.specs.Separators.{Separators};
ghost use Rattle.mof_syntax.specs.Scanning.{separator_rest};

use crate::lead::first_token;
use crate::scan::separator_rest;
use crate::text::{before, char_count};
use crate::token::Token;
use std::marker::Model;

/// The tokens of a text, in order. It ends at the end of the text, or where neither a token nor a separator stands.
#[derive(Drop)]
pub struct Tokens<'a> {
    text: &'a str,

    // What is after the place.
    left: &'a str,

    place: u32,
}

impl<'a> Model for Tokens<'a> {
    ghost use Rattle.std.specs.Prelude.{◌<◌, ◌^◌, length};
    ghost use Rattle.std.specs.Str.{chars};
    ghost use Rattle.mof_syntax.specs.Walk.{IsPlace, Walk};

    ghost Value = { Walk };

    ghost view = { λ t. record { text = chars t.text.now; place = t.place } };

    ghost invariant = { λ t. IsPlace (chars t.text.now) (chars t.left.now) t.place × (length (chars t.text.now) < 2 ^ 32) };
}

impl<'a> Tokens<'a> {
    pub(crate) fn of(text: &'a str) -> Tokens<'a>
        requires { length (chars text.now) < 2 ^ 32 }
        ensures text { result.text ≡ chars text.now }
        ensures place { result.place ≡ 0 }
    {
        Tokens {
            text,
            left: text,
            place: 0,
        }
    }

    /// How far the walk has come: after the token that it gave last, and once it ended where it ended.
    pub fn place(&self) -> u32
        ensures { result ≡ self.now.place }
    {
        self.place
    }
}

impl<'a> Iterator for Tokens<'a> {
    ghost use Rattle.std.specs.Prelude.{◌-◌, length};
    ghost use Rattle.std.specs.Iterator.{at_most};
    ghost use Rattle.mof_syntax.specs.Walk.{Steps};

    type Item = Token<'a>;

    ghost next_gives = { Steps };

    ghost remaining = { λ t. at_most (length t.text - t.place) };

    fn next(&mut self) -> Option<Token<'a>> {
        let start = separators_rest(self.left);
        let from = self.place + char_count(before(self.left, start)) as u32;
        self.left = start;
        self.place = from;
        let (kind, rest) = first_token(start)?;
        let text = before(start, rest);
        let to = from + char_count(text) as u32;
        self.left = rest;
        self.place = to;
        Some(Token {
            kind,
            text,
            from,
            to,
        })
    }
}

/// After all the separators that come first.
pub fn separators_rest(text: &str) -> &str
    ensures stands { Separators (chars text.now) (chars result.now) }
    ensures stops { separator_rest (chars result.now) ≡ None }
{
    let mut left = text;
    while let Some(rest) = separator_rest(left) {
        left = rest;
    }
    left
}
