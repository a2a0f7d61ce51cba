//! Texts to tokens.
ghost use Rattle.std.specs.Prelude.{◌≡◌, ◌<◌, ◌^◌, length};
ghost use Rattle.std.specs.Str.{chars};

use crate::walk::Tokens;

/// The tokens of a text of fewer than 2^32 characters.
pub fn tokens(text: &str) -> Tokens<'_>
    requires { length (chars text.now) < 2 ^ 32 }
    ensures text { result.text ≡ chars text.now }
    ensures place { result.place ≡ 0 }
{
    Tokens::of(text)
}
