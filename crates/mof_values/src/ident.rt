//! An identifier: a text that is a name of MOF, and why another is none.
ghost use Rattle.std.specs.Prelude.{◌≡◌, IfOk, IsErrOf, false};
ghost use Rattle.std.specs.List.{list_all};
ghost use Rattle.std.specs.Str.{chars};
ghost use Rattle.mof_values.specs.Fold.{same_name};
ghost use Rattle.mof_values.specs.Ident.{IsIdent, is_ident, is_first, is_next};
ghost use Rattle.mof_values.specs.declared.ident.IdentError.TheVariants.{Memory};

use crate::fold::is_named;
use crate::text::char_count;
use crate::{MAX_IDENTIFIER, Text};
use std::alloc::{AllocError, Global};
use std::fmt;
use std::marker::Model;

/// An identifier of at most [`MAX_IDENTIFIER`] characters: a letter, `_` or U+0080 to U+FFEF, then these and digits
/// (DSP0004, "Identifiers").
#[derive(Clone, Debug, Drop)]
pub struct Ident {
    chars: Text,
}

impl Model for Ident {
    ghost use Rattle.std.specs.Prelude.{List, ℕ, IsTrue};
    ghost use Rattle.mof_values.specs.Ident.{is_ident};

    ghost Value = { List ℕ };

    ghost view = { λ i. i.chars };

    ghost invariant = { λ i. IsTrue (is_ident i.chars) };
}

/// Why a text was not made an identifier.
#[derive(Clone, Copy, Debug, PartialEq, Eq)]
pub enum IdentError {
    NotAnIdent,
    Memory,
}

impl From<AllocError> for IdentError {
    ghost from_gives = { λ _ e. e ≡ Memory };

    fn from(_: AllocError) -> Self {
        IdentError::Memory
    }
}

impl fmt::Display for IdentError {
    fn fmt<W: fmt::Write>(&self, f: &mut fmt::Formatter<W>) -> fmt::Result {
        f.write_str(match self {
            IdentError::NotAnIdent => "not an identifier of at most 255 characters",
            IdentError::Memory => "out of memory",
        })
    }
}

impl Ident {
    /// The identifier that the text spells.
    pub fn make(alloc: Global, text: &Text) -> Result<Ident, IdentError>
        ensures ok { IfOk result (λ ident. ident ≡ text.now) }
        ensures valid { IfOk result (λ _. IsIdent text.now) }
        ensures refused { IsErrOf result IdentError.NotAnIdent → is_ident text.now ≡ false }
    {
        Ident::spell(alloc, text.as_slice())
    }

    /// The identifier that the characters spell.
    pub fn spell(alloc: Global, chars: &[char]) -> Result<Ident, IdentError>
        ensures ok { IfOk result (λ ident. ident ≡ chars.now) }
        ensures valid { IfOk result (λ _. IsIdent chars.now) }
        ensures refused { IsErrOf result IdentError.NotAnIdent → is_ident chars.now ≡ false }
    {
        if !spells_ident(chars) {
            return Err(IdentError::NotAnIdent);
        }
        Ok(Ident {
            chars: Text::of(chars.to_vec(alloc)?),
        })
    }

    /// The identifier that a text in UTF-8 spells; a text that is too long takes no memory.
    pub fn parse(alloc: Global, text: &str) -> Result<Ident, IdentError>
        ensures ok { IfOk result (λ ident. ident ≡ chars text.now) }
        ensures valid { IfOk result (λ _. IsIdent (chars text.now)) }
        ensures refused { IsErrOf result IdentError.NotAnIdent → is_ident (chars text.now) ≡ false }
    {
        if char_count(text) > MAX_IDENTIFIER {
            return Err(IdentError::NotAnIdent);
        }
        let chars = Text::from_utf8(alloc, text)?;
        if !spells_ident(chars.as_slice()) {
            return Err(IdentError::NotAnIdent);
        }
        Ok(Ident { chars })
    }

    /// The identifier that the characters with these codes spell (ISO 8859-1).
    pub fn from_latin1(alloc: Global, codes: &[u8]) -> Result<Ident, IdentError>
        ensures ok { IfOk result (λ ident. ident ≡ codes.now) }
        ensures valid { IfOk result (λ _. IsIdent codes.now) }
        ensures refused { IsErrOf result IdentError.NotAnIdent → is_ident codes.now ≡ false }
    {
        if codes.len() > MAX_IDENTIFIER {
            return Err(IdentError::NotAnIdent);
        }
        let chars = Text::from_latin1(alloc, codes)?;
        if !spells_ident(chars.as_slice()) {
            return Err(IdentError::NotAnIdent);
        }
        Ok(Ident { chars })
    }

    /// The identifier that a word of ASCII spells.
    pub fn of_ascii(alloc: Global, word: &str) -> Result<Ident, AllocError>
        requires { IsIdent word.now }
        ensures { IfOk result (λ ident. ident ≡ word.now) }
    {
        match Ident::from_latin1(alloc, word.as_bytes()) {
            Ok(ident) => Ok(ident),
            Err(IdentError::Memory) => Err(AllocError),
            Err(IdentError::NotAnIdent) => unreachable!(),
        }
    }

    pub fn as_slice(&self) -> &[char]
        ensures value { result.now ≡ self.now }
        ensures valid { IsIdent self.now }
    {
        self.chars.as_slice()
    }

    /// Returns whether the name is an ASCII word by fold.
    pub fn is_named(&self, word: &str) -> bool
        ensures { result ≡ same_name self.now word.now }
    {
        is_named(self.as_slice(), word)
    }
}

// Returns whether the characters are an identifier.
fn spells_ident(chars: &[char]) -> bool
    ensures { result ≡ is_ident chars.now }
{
    match chars {
        [] => false,
        [first, rest @ ..] => may_begin(*first)
            && all_follow(rest)
            && chars.len() <= MAX_IDENTIFIER,
    }
}

/// Returns whether a character may begin an identifier.
pub fn may_begin(c: char) -> bool
    ensures { result ≡ is_first c }
{
    matches!(c, 'a'..='z' | 'A'..='Z' | '_' | '\u{80}'..='\u{ffef}')
}

fn all_follow(chars: &[char]) -> bool
    ensures { result ≡ list_all is_next chars.now }
{
    chars.iter().all(|c| may_follow(*c))
}

/// Returns whether a character may stand after the first of an identifier.
pub fn may_follow(c: char) -> bool
    ensures { result ≡ is_next c }
{
    may_begin(c) || c.is_ascii_digit()
}

impl fmt::Display for Ident {
    fn fmt<W: fmt::Write>(&self, f: &mut fmt::Formatter<W>) -> fmt::Result {
        write!(f, "{}", self.chars)
    }
}

impl PartialEq for Ident {
    ghost use Rattle.std.specs.Str.{bytes_eq};
    ghost use Rattle.std.proofs.Common.{rules};
    ghost use Rattle.std.specs.Cmp.Rules.{comparing};

    ghost eq = { bytes_eq };

    ghost laws = { Prim.search (comparing, rules) };

    fn eq(&self, other: &Ident) -> bool {
        self.chars == other.chars
    }
}
