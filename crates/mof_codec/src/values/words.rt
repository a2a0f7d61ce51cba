//! Words, keywords and aliases, after separators.
ghost use Rattle.std.specs.Prelude.{◌≡◌, ◌↔◌, true, false, IfOk, IfSome, IfNone};
ghost use Rattle.std.specs.Str.{chars};
ghost use Rattle.mof_values.specs.Fold.{SameName};
ghost use Rattle.mof_values.specs.Ident.{IsIdent, is_ident};
ghost use Rattle.mof_syntax.specs.Limits.{IsShortName};
ghost use Rattle.mof_syntax.specs.Tokens.{Identifier};
ghost use Rattle.mof_codec.specs.Reading.{Begins, BeginsNo, BeginsWith, Lacks};
ghost use Rattle.mof_codec.specs.Values.{IsKeyword, IsWord, IsAlias, NoIdentifier, DollarIdentifier, NoDollarIdentifier};

use crate::values::marks::char_rest;
use mof_syntax::scan::identifier_rest;
use mof_syntax::separators_rest;
use mof_syntax::text::{before, first_char};
use mof_values::{Ident, IdentError};
use std::alloc::{AllocError, Global};

/// After a word that is the keyword by fold.
pub(crate) fn keyword<'a>(text: &'a str, keyword: &str) -> Option<&'a str>
    ensures some { IfSome result (λ rest. Begins (IsKeyword keyword.now) (chars text.now) (chars rest.now)) }
    ensures none { IfNone result (BeginsNo (IsKeyword keyword.now) (chars text.now)) }
{
    let (found, rest) = identifier(separators_rest(text))?;
    if is_word(found, keyword) {
        Some(rest)
    } else {
        None
    }
}

/// A word that is short enough for an identifier, and what is after.
pub(crate) fn word(alloc: Global, text: &str) -> Result<Option<(Ident, &str)>, AllocError>
    ensures some { IfOk result (λ found. IfSome found (λ x. BeginsWith IsWord IsShortName (chars text.now) x.0 (chars x.1.now))) }
    ensures none { IfOk result (λ found. IfNone found (Lacks IsWord IsShortName (chars text.now))) }
{
    let Some((found, rest)) = identifier(separators_rest(text)) else {
        return Ok(None);
    };
    let Some(name) = name(alloc, found)? else {
        return Ok(None);
    };
    Ok(Some((name, rest)))
}

/// The name of an alias that is short enough for an identifier, and what is after.
pub(crate) fn alias(alloc: Global, text: &str) -> Result<Option<(Ident, &str)>, AllocError>
    ensures some { IfOk result (λ found. IfSome found (λ x. BeginsWith IsAlias IsShortName (chars text.now) x.0 (chars x.1.now))) }
    ensures none { IfOk result (λ found. IfNone found (Lacks IsAlias IsShortName (chars text.now))) }
{
    let Some((found, rest)) = dollar_identifier(separators_rest(text)) else {
        return Ok(None);
    };
    let Some(name) = name(alloc, found)? else {
        return Ok(None);
    };
    Ok(Some((name, rest)))
}

// The identifier that the text spells, where it is short enough.
fn name(alloc: Global, text: &str) -> Result<Option<Ident>, AllocError>
    ensures some { IfOk result (λ found. IfSome found (λ name. (name ≡ chars text.now) × IsIdent (chars text.now))) }
    ensures none { IfOk result (λ found. IfNone found (is_ident (chars text.now) ≡ false)) }
{
    match Ident::parse(alloc, text) {
        Ok(name) => Ok(Some(name)),
        Err(IdentError::NotAnIdent) => Ok(None),
        Err(IdentError::Memory) => Err(AllocError),
    }
}

fn dollar_identifier(text: &str) -> Option<(&str, &str)>
    ensures some { IfSome result (λ found. DollarIdentifier (chars text.now) (chars found.0.now) (chars found.1.now)) }
    ensures none { IfNone result (NoDollarIdentifier (chars text.now)) }
{
    identifier(char_rest(text, '$')?)
}

// An identifier of any length, and what is after.
fn identifier(text: &str) -> Option<(&str, &str)>
    ensures some { IfSome result (λ found. Identifier (chars text.now) (chars found.0.now) (chars found.1.now)) }
    ensures none { IfNone result (NoIdentifier (chars text.now)) }
{
    let rest = identifier_rest(text)?;
    Some((before(text, rest), rest))
}

/// Returns whether the text is an ASCII word by fold.
pub(crate) fn is_word(text: &str, word: &str) -> bool
    ensures { result ≡ true ↔ SameName (chars text.now) word.now }
{
    let (mut left, mut codes) = (text, word.as_bytes());
    while let Some((c, rest)) = first_char(left) {
        let [code, others @ ..] = codes else {
            return false;
        };
        if c.to_ascii_lowercase() as u32 != code.to_ascii_lowercase() as u32 {
            return false;
        }
        (left, codes) = (rest, others);
    }
    codes.is_empty()
}
