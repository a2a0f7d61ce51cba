//! What the values of settings mean.
ghost use Rattle.std.specs.Prelude.{◌≡◌, codes, drop, take};
ghost use Rattle.mof_values.specs.declared.value.Scalar.TheVariants.{Integer};
ghost use Rattle.mof_values.specs.declared.value.Value.TheVariants.{One};
ghost use Rattle.std.specs.List.{list_all};
ghost use Rattle.mof_values.specs.Fold.{same_name};
ghost use Rattle.dsc_document.specs.Declarations.{is_text};
ghost use Rattle.meta_config.specs.Words.{after_named, after_of, boolean_of, fits, is_name, is_reference, is_text_that, minutes_of, mode_named, mode_of, refresh_named, refresh_of};

use crate::tables::Domain;
use crate::{AfterReboot, ConfigMode, RefreshMode};
use mof_values::{MAX_NAME_BYTES, Scalar, Value, fits_utf8, front, is_named};

/// Returns whether the value may stand where the domain is asked.
pub fn fits(domain: Domain, value: &Value) -> bool
    ensures { result ≡ fits domain value.now }
{
    match domain {
        Domain::Mode => mode_of(value).is_some(),
        Domain::Refresh => refresh_of(value).is_some(),
        Domain::AfterReboot => after_of(value).is_some(),
        Domain::Boolean => boolean_of(value).is_some(),
        Domain::Minutes => minutes_of(value).is_some(),
        Domain::Text => value.as_text().is_some(),
        Domain::Texts => are_texts(value.scalars()),
        Domain::Names => are_names(value.scalars()),
        Domain::Reference => match value.as_text() {
            Some(text) => is_reference(text.as_slice()),
            None => false,
        },
        Domain::References => are_references(value.scalars()),
        Domain::Any => true,
    }
}

pub fn mode_of(value: &Value) -> Option<ConfigMode>
    ensures { result ≡ mode_of value.now }
{
    match value.as_text() {
        Some(text) => mode_named(text.as_slice()),
        None => None,
    }
}

fn mode_named(word: &[char]) -> Option<ConfigMode>
    ensures { result ≡ mode_named word.now }
{
    if is_named(word, "ApplyOnly") {
        Some(ConfigMode::ApplyOnly)
    } else if is_named(word, "ApplyAndMonitor") {
        Some(ConfigMode::ApplyAndMonitor)
    } else if is_named(word, "ApplyAndAutoCorrect") {
        Some(ConfigMode::ApplyAndAutoCorrect)
    } else {
        None
    }
}

pub fn refresh_of(value: &Value) -> Option<RefreshMode>
    ensures { result ≡ refresh_of value.now }
{
    match value.as_text() {
        Some(text) => refresh_named(text.as_slice()),
        None => None,
    }
}

fn refresh_named(word: &[char]) -> Option<RefreshMode>
    ensures { result ≡ refresh_named word.now }
{
    if is_named(word, "Push") {
        Some(RefreshMode::Push)
    } else if is_named(word, "Pull") {
        Some(RefreshMode::Pull)
    } else if is_named(word, "Disabled") {
        Some(RefreshMode::Disabled)
    } else {
        None
    }
}

pub fn after_of(value: &Value) -> Option<AfterReboot>
    ensures { result ≡ after_of value.now }
{
    match value.as_text() {
        Some(text) => after_named(text.as_slice()),
        None => None,
    }
}

fn after_named(word: &[char]) -> Option<AfterReboot>
    ensures { result ≡ after_named word.now }
{
    if is_named(word, "ContinueConfiguration") {
        Some(AfterReboot::ContinueConfiguration)
    } else if is_named(word, "StopConfiguration") {
        Some(AfterReboot::StopConfiguration)
    } else {
        None
    }
}

pub fn boolean_of(value: &Value) -> Option<bool>
    ensures { result ≡ boolean_of value.now }
{
    match value {
        Value::One(Scalar::Bool(b)) => Some(*b),
        _ => None,
    }
}

/// Minutes, 0 to 4,294,967,295.
pub fn minutes_of(value: &Value) -> Option<u32>
    ensures { result ≡ minutes_of value.now }
{
    match value {
        Value::One(Scalar::Integer(n)) => u32_of(*n),
        _ => None,
    }
}

fn u32_of(n: i128) -> Option<u32>
    ensures { result ≡ minutes_of (One (Integer n)) }
{
    if 0 <= n && n <= 4_294_967_295 {
        Some(n as u32)
    } else {
        None
    }
}

fn are_texts(scalars: &[Scalar]) -> bool
    ensures { result ≡ list_all is_text scalars.now }
{
    scalars.iter().all(|s| is_text(s))
}

fn is_text(scalar: &Scalar) -> bool
    ensures { result ≡ is_text scalar.now }
{
    matches!(scalar, Scalar::Text(_))
}

fn are_names(scalars: &[Scalar]) -> bool
    ensures { result ≡ list_all (is_text_that is_name) scalars.now }
{
    scalars.iter().all(|s| is_name_scalar(s))
}

fn is_name_scalar(scalar: &Scalar) -> bool
    ensures { result ≡ is_text_that is_name scalar.now }
{
    match scalar {
        Scalar::Text(text) => is_name(text.as_slice()),
        _ => false,
    }
}

fn are_references(scalars: &[Scalar]) -> bool
    ensures { result ≡ list_all (is_text_that is_reference) scalars.now }
{
    scalars.iter().all(|s| is_reference_scalar(s))
}

fn is_reference_scalar(scalar: &Scalar) -> bool
    ensures { result ≡ is_text_that is_reference scalar.now }
{
    match scalar {
        Scalar::Text(text) => is_reference(text.as_slice()),
        _ => false,
    }
}

fn is_name(chars: &[char]) -> bool
    ensures { result ≡ is_name chars.now }
{
    !chars.is_empty() && fits_utf8(chars, MAX_NAME_BYTES)
}

// Returns whether the characters are `[PartialConfiguration]`, by fold, and a name.
fn is_reference(chars: &[char]) -> bool
    ensures { result ≡ is_reference chars.now }
{
    begins_reference(chars) && is_name(after(chars, 22))
}

fn begins_reference(chars: &[char]) -> bool
    ensures { result ≡ same_name (take 22 chars.now) (codes "[PartialConfiguration]") }
{
    has_word(front(chars, 22), "[PartialConfiguration]")
}

fn has_word(chars: &[char], word: &str) -> bool
    ensures { result ≡ same_name chars.now word.now }
{
    is_named(chars, word)
}

/// The characters but the first `count`.
pub fn after(chars: &[char], count: usize) -> &[char]
    ensures { result.now ≡ drop count chars.now }
{
    if chars.len() <= count {
        &[]
    } else {
        chars.split_at(count).1
    }
}
