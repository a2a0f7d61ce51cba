//! A list of characters, from and to its bytes in UTF-8.
ghost use Rattle.std.specs.Prelude.{◌≡◌, ◌<◌, ◌≤◌, ◌↔◌, ℕ, All, IfOk, IsTrue, length, slice_index, take, encode_utf8_all, string_bytes};
ghost use Rattle.std.specs.Char.{IsScalar};
ghost use Rattle.std.specs.Str.{chars};

use std::alloc::{AllocError, Global};
use std::fmt;
use std::marker::Model;

/// A list of characters.
#[derive(Clone, Debug, Drop)]
pub struct Text {
    chars: Vec<char>,
}

impl Model for Text {
    ghost use Rattle.std.specs.Prelude.{List, ℕ, All};
    ghost use Rattle.std.specs.Char.{IsScalar};

    ghost Value = { List ℕ };

    ghost view = { λ t. t.chars.items };

    ghost invariant = { λ t. All IsScalar t.chars.items };
}

impl Text {
    /// These characters; takes no memory.
    pub fn of(chars: Vec<char>) -> Text
        ensures { result ≡ chars.items }
    {
        look_at(&chars);
        Text { chars }
    }

    /// The characters with these codes, U+0000 to U+00FF (ISO 8859-1); of ASCII, the text itself.
    pub fn from_latin1(alloc: Global, codes: &[u8]) -> Result<Text, AllocError>
        ensures { IfOk result (λ t. t ≡ codes.now) }
    {
        Ok(Text::of(codes.iter().map(|code| char::from(*code)).collect(alloc)?))
    }

    /// The characters of a text in UTF-8.
    pub fn from_utf8(alloc: Global, text: &str) -> Result<Text, AllocError>
        ensures chars { IfOk result (λ t. t ≡ chars text.now) }
        ensures bytes { IfOk result (λ t. encode_utf8_all t ≡ text.now) }
    {
        Ok(Text::of(text.chars().collect(alloc)?))
    }

    pub fn as_slice(&self) -> &[char]
        ensures value { result.now ≡ self.now }
        ensures scalars { All IsScalar self.now }
    {
        &self.chars
    }

    pub fn into_vec(self) -> Vec<char>
        ensures { result.items ≡ self }
    {
        self.chars
    }

    /// The same text once more.
    pub fn copy(&self) -> Result<Text, AllocError>
        ensures { IfOk result (λ copy. copy ≡ self.now) }
    {
        self.clone()
    }

    /// The characters in UTF-8.
    pub fn to_utf8(&self) -> Result<String, AllocError>
        ensures { IfOk result (λ s. string_bytes s ≡ encode_utf8_all self.now) }
    {
        self.chars.iter().copied().collect(*self.chars.allocator())
    }

    /// Returns whether the text has at most that many bytes of UTF-8.
    pub fn fits_utf8(&self, limit: usize) -> bool
        ensures { IsTrue result ↔ (length (encode_utf8_all self.now) ≤ limit) }
    {
        fits_utf8(self.as_slice(), limit)
    }
}

/// Returns whether the characters have at most that many bytes of UTF-8.
pub fn fits_utf8(chars: &[char], limit: usize) -> bool
    ensures { IsTrue result ↔ (length (encode_utf8_all chars.now) ≤ limit) }
{
    let mut left = limit;
    let mut rest = chars;
    while let [c, after @ ..] = rest {
        let size = c.len_utf8();
        if left < size {
            return false;
        }
        left -= size;
        rest = after;
    }
    true
}

/// How many characters the text has.
pub fn char_count(text: &str) -> usize
    ensures { result ≡ length (chars text.now) }
{
    text.chars().count()
}

/// The first characters, at most `count` of them.
pub fn front(chars: &[char], count: usize) -> &[char]
    ensures { result.now ≡ take count chars.now }
{
    if chars.len() <= count {
        chars
    } else {
        chars.split_at(count).0
    }
}

/// The same texts once more.
pub fn copy_texts(alloc: Global, texts: &[Text]) -> Result<Vec<Text>, AllocError>
    ensures { IfOk result (λ copies. copies.items ≡ texts.now) }
{
    texts.to_vec(alloc)
}

// Reads each character, so that it is known to be a scalar value.
fn look_at(chars: &[char])
    ensures { (k : ℕ) → k < length chars.now → IsScalar (slice_index chars.now k) }
{
    for c in chars {
        let _code = *c as u32;
    }
}

impl fmt::Display for Text {
    fn fmt<W: fmt::Write>(&self, f: &mut fmt::Formatter<W>) -> fmt::Result {
        for c in self.as_slice() {
            f.write_char(*c)?;
        }
        Ok(())
    }
}

impl PartialEq for Text {
    ghost use Rattle.std.specs.Str.{bytes_eq};
    ghost use Rattle.std.proofs.Common.{rules};
    ghost use Rattle.std.specs.Cmp.Rules.{comparing};

    ghost eq = { bytes_eq };

    ghost laws = { Prim.search (comparing, rules) };

    fn eq(&self, other: &Text) -> bool {
        self.chars == other.chars
    }
}

impl Eq for Text {
    ghost use Rattle.std.proofs.Common.{rules};
    ghost use Rattle.std.specs.Cmp.Rules.{comparing};

    ghost laws = { Prim.search (comparing, rules) };
}
