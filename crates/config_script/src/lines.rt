//! Lines of a text: the line feeds before a place.
ghost use Rattle.std.specs.Prelude.{◌≡◌, ◌-◌};
ghost use Rattle.std.specs.Str.{chars};
ghost use Rattle.config_script.specs.Tokens.{feeds, line_of};

use mof_syntax::text::first_char;

/// The line on which `from`, with which the text ends, begins.
pub(crate) fn line_of(text: &str, from: &str) -> usize
    ensures { result ≡ line_of (chars text.now) (chars from.now) }
{
    feeds(text).saturating_sub(feeds(from))
}

// How many line feeds the text has.
fn feeds(text: &str) -> usize
    ensures { result ≡ feeds (chars text.now) }
{
    let mut count = 0;
    let mut left = text;
    while let Some((c, rest)) = first_char(left) {
        if c == '\n' {
            count += 1;
        }
        left = rest;
    }
    count
}
