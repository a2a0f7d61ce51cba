//! How the paths that two texts mean lie to each other, found character by character.
ghost use Rattle.std.specs.Prelude.{◌≡◌, ◌≢◌, ◌<◌, ◌∷◌, [], length, option_map, IfSome};
ghost use Rattle.std.specs.List.{join_with_byte};
ghost use Rattle.std.specs.Option.{MatchOption};
ghost use Rattle.resource_kinds.specs.PathOrder.{from_name, names_after, order_of, path_left};
ghost use Rattle.resource_kinds.specs.Paths.{all_segments, kept_segments, rooted};

use crate::paths::{PathText, is_separator, rooted};

/// What is left of the path that a text means: its names, with `/` between.
#[derive(Clone, Copy)]
pub enum PathRest<'a> {
    /// A drive, and the names of these segments after it.
    Drive(char, &'a [char]),

    /// The names of these segments, with `/` before each.
    Names(&'a [char]),

    /// What is left of a name, and the names after it.
    Name(&'a [char]),
}

/// How one path lies to another.
#[derive(Clone, Copy, PartialEq, Eq)]
pub enum PathOrder {
    Same,

    /// The other lies below it.
    Above,

    /// It lies below the other.
    Below,
    Apart,
}

/// What a text would mean as a path, where it begins as one: `..` counts as a name, and there may be none at all.
pub fn path_in<'a>(text: &'a [char]) -> Option<PathRest<'a>>
    ensures { option_map path_left result ≡ option_map
        (λ all. join_with_byte 47 (kept_segments all)) (rooted text.now) }
{
    match rooted(text) {
        Some(parts) => Some(begun(parts)),
        None => None,
    }
}

fn begun<'a>(parts: PathText<'a>) -> PathRest<'a>
    requires { IfSome parts.drive (λ letter. letter ≢ 46) }
    ensures { path_left result ≡ join_with_byte 47 (kept_segments (all_segments parts.entry)) }
{
    match parts.drive {
        Some(letter) => PathRest::Drive(letter, parts.rest),
        None => PathRest::Name(skipped(parts.rest)),
    }
}

/// The text from its first name on.
pub fn skipped<'a>(text: &'a [char]) -> &'a [char]
    ensures { names_after text.now ≡ from_name result.now }
{
    let mut left = text;
    while let Some(rest) = passed(left) {
        left = rest;
    }
    left
}

// What stands after a first segment that is no name.
fn passed<'a>(text: &'a [char]) -> Option<&'a [char]>
    ensures names { MatchOption result (names_after text.now ≡ from_name text.now)
        (λ rest. names_after text.now ≡ names_after rest.now) }
    ensures shorter { IfSome result (λ rest. length rest.now < length text.now) }
{
    match text {
        ['.', rest @ ..] if rest.is_empty() => Some(rest),
        ['.', c, rest @ ..] if is_separator(*c) => Some(rest),
        [c, rest @ ..] if is_separator(*c) => Some(rest),
        _ => None,
    }
}

// The next character, and what is left after it.
fn next<'a>(path: PathRest<'a>) -> Option<(char, PathRest<'a>)>
    ensures { MatchOption result (path_left path.entry ≡ [])
        (λ step. path_left path.entry ≡ step.0 ∷ path_left step.1) }
{
    match path {
        PathRest::Drive(letter, text) => Some((letter, PathRest::Names(text))),
        PathRest::Names(text) => next_name(text),
        PathRest::Name(text) => match text {
            [] => None,
            [c, rest @ ..] if is_separator(*c) => next_name(rest),
            [c, rest @ ..] => Some((*c, PathRest::Name(rest))),
        },
    }
}

fn next_name<'a>(text: &'a [char]) -> Option<(char, PathRest<'a>)>
    ensures { MatchOption result (names_after text.now ≡ [])
        (λ step. names_after text.now ≡ step.0 ∷ path_left step.1) }
{
    match skipped(text) {
        [] => None,
        name => Some(('/', PathRest::Name(name))),
    }
}

/// How the first path lies to the second.
pub fn compare(a: PathRest, b: PathRest) -> PathOrder
    ensures { result ≡ order_of (path_left a.entry) (path_left b.entry) }
{
    let (mut left, mut right) = (a, b);
    loop {
        match (next(left), next(right)) {
            (Some((x, rest)), Some((y, after))) if x == y => (left, right) = (rest, after),
            (None, None) => return PathOrder::Same,
            (None, Some(('/', _))) => return PathOrder::Above,
            (Some(('/', _)), None) => return PathOrder::Below,
            _ => return PathOrder::Apart,
        }
    }
}
