//! Marks, after separators.
ghost use Rattle.std.specs.Prelude.{◌≡◌, IfSome, IfNone};
ghost use Rattle.std.specs.Str.{chars};
ghost use Rattle.mof_syntax.specs.Scanning.{left_of};
ghost use Rattle.mof_codec.specs.Reading.{Begins, BeginsNo};
ghost use Rattle.mof_codec.specs.Values.{char_rest, code_of, IsMark};

use mof_syntax::separators_rest;
use mof_syntax::text::first_char;

/// A mark of the syntax.
#[derive(Clone, Copy, Debug, PartialEq, Eq)]
pub(crate) enum Mark {
    LeftBrace,
    RightBrace,
    EqualsSign,
    Semicolon,
    Comma,
}

impl Mark {
    fn code(self) -> char
        ensures { result ≡ code_of self }
    {
        match self {
            Mark::LeftBrace => '{',
            Mark::RightBrace => '}',
            Mark::EqualsSign => '=',
            Mark::Semicolon => ';',
            Mark::Comma => ',',
        }
    }
}

/// After the mark.
pub(crate) fn mark_rest(text: &str, mark: Mark) -> Option<&str>
    ensures some { IfSome result (λ rest. Begins (IsMark mark) (chars text.now) (chars rest.now)) }
    ensures none { IfNone result (BeginsNo (IsMark mark) (chars text.now)) }
{
    char_rest(separators_rest(text), mark.code())
}

/// After the character, where it comes first.
pub(crate) fn char_rest(text: &str, code: char) -> Option<&str>
    ensures { left_of result ≡ char_rest code (chars text.now) }
{
    match first_char(text)? {
        (c, rest) if c == code => Some(rest),
        _ => None,
    }
}
