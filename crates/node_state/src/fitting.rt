//! Whether a document fits a meta-configuration.
ghost use Rattle.std.specs.Prelude.{◌≡◌, ◌<◌, ◌^◌, ℕ, not, ◌&&◌, ◌==◌, None, Some, ◌≤◌, IfOk, IfErr, IfSome, List, drop, length, unwrap_or, slice_get, if◌then◌else◌};
ghost use Rattle.std.specs.List.{list_any, position, prefix_len};
ghost use Rattle.mof_values.specs.Fold.{same_name};
ghost use Rattle.node_state.specs.Fits.{claimed, claims, has_part, is_backslash, is_inside, is_needed, is_partial, is_taken, lacks_part, misfit, misfit_of_parts, missing_part, part_name, strange_part, taken_from, type_of, wrong_count};

use crate::FitError;
use dsc_document::{Document, Resource};
use meta_config::{Meta, Partial};
use mof_values::{Text, folds_equal, same_text};

/// Returns whether the document of parts fits the meta-configuration: one part where no partial configuration is declared; else each
/// part that of a partial configuration, a part for each one that such a partial configuration depends on, and no resource whose
/// type another partial configuration claims. Takes no memory.
///
/// # Errors
///
/// The first reason that applies, in the order of [`FitError`].
pub fn fits(meta: &Meta, document: &Document) -> Result<(), FitError>
    requires partials { length meta.now.partials < 2 ^ 32 }
    requires parts { length document.now.parts < 2 ^ 32 }
    requires resources { length document.now.resources < 2 ^ 32 }
    ensures fits { IfOk result (λ _. misfit meta.now.partials document.now ≡ None) }
    ensures refused { IfErr result (λ error.
        misfit meta.now.partials document.now ≡ Some error) }
{
    match misfit(meta.partials.as_slice(), document) {
        None => Ok(()),
        Some(error) => Err(error),
    }
}

fn misfit(partials: &[Partial], document: &Document) -> Option<FitError>
    requires partials { length partials.now < 2 ^ 32 }
    requires parts { length document.now.parts < 2 ^ 32 }
    requires resources { length document.now.resources < 2 ^ 32 }
    ensures { result ≡ misfit partials.now document.now }
{
    match partials {
        [] => wrong_count(document.parts.as_slice()),
        _ => misfit_of_parts(partials, document),
    }
}

fn misfit_of_parts(partials: &[Partial], document: &Document) -> Option<FitError>
    requires partials { length partials.now < 2 ^ 32 }
    requires parts { length document.now.parts < 2 ^ 32 }
    requires resources { length document.now.resources < 2 ^ 32 }
    ensures { result ≡ misfit_of_parts partials.now document.now }
{
    let parts = document.parts.as_slice();
    if let Some(strange) = strange_part(partials, parts) {
        return Some(strange);
    }
    if let Some(missing) = missing_part(partials, parts) {
        return Some(missing);
    }
    first_taken(partials, parts, document.resources.as_slice())
}

fn wrong_count(parts: &[Text]) -> Option<FitError>
    requires { length parts.now < 2 ^ 32 }
    ensures { result ≡ wrong_count parts.now }
{
    if parts.len() == 1 {
        None
    } else {
        Some(FitError::PartCount {
            found: parts.len() as u32,
        })
    }
}

fn strange_part(partials: &[Partial], parts: &[Text]) -> Option<FitError>
    requires { length parts.now < 2 ^ 32 }
    ensures { result ≡ strange_part partials.now parts.now }
{
    let place = first_strange(partials, parts)?;
    Some(FitError::StrangePart { part: place as u32 })
}

fn first_strange(partials: &[Partial], parts: &[Text]) -> Option<usize>
    ensures place { result ≡ position (λ name. not (is_partial partials.now name)) parts.now }
    ensures within { IfSome result (λ place. place < length parts.now) }
{
    parts.iter().position(|name| !is_partial(partials, name))
}

fn missing_part(partials: &[Partial], parts: &[Text]) -> Option<FitError>
    requires { length partials.now < 2 ^ 32 }
    ensures { result ≡ missing_part partials.now parts.now }
{
    let place = first_missing(partials, parts)?;
    Some(FitError::MissingPart {
        partial: place as u32,
    })
}

fn first_missing(partials: &[Partial], parts: &[Text]) -> Option<usize>
    ensures place { result ≡
        position (lacks_part partials.now parts.now) partials.now }
    ensures within { IfSome result (λ place. place < length partials.now) }
{
    partials
        .iter()
        .position(|partial| lacks_part(partials, parts, partial))
}

fn first_taken(partials: &[Partial], parts: &[Text], resources: &[Resource]) -> Option<FitError>
    requires { length resources.now < 2 ^ 32 }
    ensures { result ≡ taken_from partials.now parts.now 0 resources.now }
{
    let mut place = 0;
    let mut left = resources;
    while let [resource, rest @ ..] = left {
        if is_taken(
            partials,
            part_name(parts, resource),
            type_of(resource.id.as_slice()),
        ) {
            return Some(FitError::ExclusiveTaken {
                part: resource.part,
                resource: place,
            });
        }
        place += 1;
        left = rest;
    }
    None
}

// The partial configuration has no part, and one that has a part depends on it.
fn lacks_part(partials: &[Partial], parts: &[Text], partial: &Partial) -> bool
    ensures { result ≡ lacks_part partials.now parts.now partial.now }
{
    !has_part(parts, partial) && is_needed(partials, parts, &partial.name)
}

fn is_needed(partials: &[Partial], parts: &[Text], name: &Text) -> bool
    ensures { result ≡ is_needed partials.now parts.now name.now }
{
    partials.iter().any(|partial| has_part(parts, partial) && depends_on(partial, name))
}

fn depends_on(partial: &Partial, name: &Text) -> bool
    ensures { result ≡ list_any (same_name name.now) partial.now.depends }
{
    partial
        .depends
        .as_slice()
        .iter()
        .any(|other| same_text(name, other))
}

fn has_part(parts: &[Text], partial: &Partial) -> bool
    ensures { result ≡ has_part parts.now partial.now }
{
    parts.iter().any(|name| folds_equal(name.as_slice(), partial.name.as_slice()))
}

fn is_partial(partials: &[Partial], name: &Text) -> bool
    ensures { result ≡ is_partial partials.now name.now }
{
    partials.iter().any(|partial| folds_equal(name.as_slice(), partial.name.as_slice()))
}

// The name of the part that declares the resource.
fn part_name<'a>(parts: &'a [Text], resource: &Resource) -> &'a [char]
    ensures { result.now ≡ part_name parts.now resource.now }
{
    match parts.get(resource.part as usize) {
        Some(name) => name.as_slice(),
        None => &[],
    }
}

// A partial configuration other than that of the name claims the type.
fn is_taken(partials: &[Partial], name: &[char], kind: &[char]) -> bool
    ensures { result ≡ is_taken partials.now name.now kind.now }
{
    partials.iter().any(|partial| !folds_equal(name, partial.name.as_slice())
        && claims(kind, partial))
}

fn claims(kind: &[char], partial: &Partial) -> bool
    ensures { result ≡ claims kind.now partial.now }
{
    partial
        .exclusive
        .as_slice()
        .iter()
        .any(|claim| folds_equal(claimed(claim.as_slice()), kind))
}

// What stands in the first brackets of an id.
fn type_of(id: &[char]) -> &[char]
    ensures { result.now ≡ type_of id.now }
{
    let kind = after_bracket(id);
    kind.split_at(inside_len(kind)).0
}

fn after_bracket(id: &[char]) -> &[char]
    ensures { result.now ≡ drop 1 id.now }
{
    match id {
        [_, rest @ ..] => rest,
        [] => &[],
    }
}

// How many characters stand before the first closing bracket.
fn inside_len(chars: &[char]) -> usize
    ensures value { result ≡ prefix_len is_inside chars.now }
    ensures within { result ≤ length chars.now }
{
    let (mut len, mut left) = (0, chars);
    while let [c, rest @ ..] = left {
        if *c == ']' {
            return len;
        }
        (len, left) = (len + 1, rest);
    }
    len
}

// What stands after the last backslash of a claim, or all of a claim that has none.
fn claimed(claim: &[char]) -> &[char]
    ensures { result.now ≡ claimed claim.now }
{
    let (mut left, mut after) = (claim, claim);
    while let [c, rest @ ..] = left {
        after = after_char(*c, rest, after);
        left = rest;
    }
    after
}

// What stands after the character where it is a backslash, or what stood there before.
fn after_char<'a>(c: char, rest: &'a [char], before: &'a [char]) -> &'a [char]
    ensures { result.now ≡ (if is_backslash c then rest.now else before.now) }
{
    if c == '\\' { rest } else { before }
}
