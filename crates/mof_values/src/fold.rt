//! Names that are the same but for the case of ASCII letters.
ghost use Rattle.std.specs.Prelude.{◌≡◌, ◌↔◌, IsTrue};
ghost use Rattle.mof_values.specs.Fold.{SameName};

use crate::{Ident, Text};

/// Returns whether the folds of two names are equal; an equivalence.
pub fn same_name(a: &Ident, b: &Ident) -> bool
    ensures { IsTrue result ↔ SameName a.now b.now }
{
    folds_equal(a.as_slice(), b.as_slice())
}

/// Returns whether the folds of two texts are equal; an equivalence.
pub fn same_text(a: &Text, b: &Text) -> bool
    ensures { IsTrue result ↔ SameName a.now b.now }
{
    folds_equal(a.as_slice(), b.as_slice())
}

/// Returns whether the characters are an ASCII word, letter case and all.
pub fn is_spelled(chars: &[char], word: &str) -> bool
    ensures { IsTrue result ↔ (chars.now ≡ word.now) }
{
    let (mut left, mut codes) = (chars, word.as_bytes());
    while let ([c, rest @ ..], [code, others @ ..]) = (left, codes) {
        if *c as u32 != *code as u32 {
            return false;
        }
        (left, codes) = (rest, others);
    }
    left.is_empty() && codes.is_empty()
}

/// Returns whether the characters are an ASCII word by fold.
pub fn is_named(chars: &[char], word: &str) -> bool
    ensures { IsTrue result ↔ SameName chars.now word.now }
{
    let (mut left, mut codes) = (chars, word.as_bytes());
    while let ([c, rest @ ..], [code, others @ ..]) = (left, codes) {
        if c.to_ascii_lowercase() as u32 != code.to_ascii_lowercase() as u32 {
            return false;
        }
        (left, codes) = (rest, others);
    }
    left.is_empty() && codes.is_empty()
}

/// Returns whether the folds of two lists of characters are equal; an equivalence.
pub fn folds_equal(a: &[char], b: &[char]) -> bool
    ensures { IsTrue result ↔ SameName a.now b.now }
{
    let (mut left, mut right) = (a, b);
    while let ([x, rest @ ..], [y, others @ ..]) = (left, right) {
        if x.to_ascii_lowercase() != y.to_ascii_lowercase() {
            return false;
        }
        (left, right) = (rest, others);
    }
    left.is_empty() && right.is_empty()
}
