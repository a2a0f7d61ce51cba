//! A text in UTF-8 as its characters, from the front.
//!
//! Clauses speak of `chars`, the list of the characters that the bytes of a text are.
ghost use Rattle.std.specs.Prelude.{◌≡◌, ◌≤◌, ◌-◌, ◌++◌, ◌∷◌, [], length, take, drop, IfSome, IfNone};
ghost use Rattle.std.specs.Str.{chars};
ghost use Rattle.mof_syntax.specs.Characters.{EndsWith};

pub use mof_values::char_count;

/// The character that comes first, and what is after it.
pub fn first_char(text: &str) -> Option<(char, &str)>
    ensures some { IfSome result (λ found. chars text.now ≡ found.0 ∷ chars found.1.now) }
    ensures none { IfNone result (chars text.now ≡ []) }
{
    let mut left = text.chars();
    let c = left.next()?;
    Some((c, left.as_str()))
}

/// The text before `rest`, with which it ends.
pub fn before<'a>(text: &'a str, rest: &str) -> &'a str
    requires { EndsWith (chars text.now) (chars rest.now) }
    ensures { chars text.now ≡ chars result.now ++ chars rest.now }
{
    &text[..text.len() - rest.len()]
}

/// How many characters stand before `rest`, with which the text ends.
pub fn place_of(text: &str, rest: &str) -> usize
    requires { EndsWith (chars text.now) (chars rest.now) }
    ensures { result ≡ length (chars text.now) - length (chars rest.now) }
{
    char_count(before(text, rest))
}

/// The first `count` characters, and what is after them.
pub fn split_chars(text: &str, count: usize) -> (&str, &str)
    requires { count ≤ length (chars text.now) }
    ensures front { chars result.0.now ≡ take count (chars text.now) }
    ensures rest { chars result.1.now ≡ drop count (chars text.now) }
{
    let mut left = text;
    for _ in 0..count {
        left = without_first(left);
    }
    (before(text, left), left)
}

// What is after the first character, where there is one.
fn without_first(text: &str) -> &str
    ensures { chars result.now ≡ drop 1 (chars text.now) }
{
    match first_char(text) {
        Some((_, rest)) => rest,
        None => text,
    }
}
