//! The first declaration, property, element or identifier past its limit.
ghost use Rattle.std.specs.Prelude.{◌≡◌, ◌≤◌, ◌<◌, ◌⊎◌, ◌↔◌, true, List, length, IfSome, IfNone};
ghost use Rattle.std.specs.Str.{chars};
ghost use Rattle.std.specs.List.{AllByRecursion};
ghost use Rattle.mof_values.specs.declared.instance.Instance.{Instance};
ghost use Rattle.mof_syntax.specs.Grammar.{WideSpells};
ghost use Rattle.mof_syntax.specs.Limits.{instances_limit};
ghost use Rattle.mof_codec.specs.Beginnings.{begins_identifier};
ghost use Rattle.mof_codec.specs.Counting.{is_excess, name_length};
ghost use Rattle.mof_codec.specs.Searching.{BeginsLongName, HasFewParts, IsFirstExcess, HasNoExcess};

use crate::machine::beginnings::begins_identifier;
use crate::machine::counts::Counts;
use crate::machine::state::{Event, START, State};
use crate::machine::step::step;
use mof_syntax::text::{first_char, place_of};
use mof_values::{MAX_IDENTIFIER, may_begin, may_follow};

/// The place of the first part that is past its limit.
pub(crate) fn first_excess(text: &str) -> Option<usize>
    ensures some { IfSome result (λ at. IsFirstExcess (chars text.now) at) }
    ensures none { IfNone result (HasNoExcess (chars text.now)) }
    ensures count { IfNone result ((is : List Instance) → WideSpells (chars text.now) is → length is ≤ instances_limit) }
    ensures parts { IfNone result ((is : List Instance) → WideSpells (chars text.now) is → AllByRecursion HasFewParts is) }
{
    let mut state = START;
    let mut counts = Counts::NONE;
    let mut left = text;
    while let Some((c, rest)) = first_char(left) {
        let Some(next) = step(state, c) else {
            return None;
        };
        if is_past(state, counts, next.begun, left) {
            return Some(place_of(text, left));
        }
        counts = counts.with(next.begun);
        state = next;
        left = rest;
    }
    None
}

// What begins here is past its limit.
fn is_past(state: State, counts: Counts, begun: Event, left: &str) -> bool
    ensures { result ≡ true ↔ (is_excess begun counts ≡ true) ⊎ ((begins_identifier state.half state.place ≡ true) × BeginsLongName (chars left.now)) }
{
    counts.is_excess(begun) || (begins_identifier(state) && is_long_name(left))
}

fn is_long_name(text: &str) -> bool
    ensures { result ≡ true ↔ BeginsLongName (chars text.now) }
{
    match first_char(text) {
        Some((first, rest)) => may_begin(first) && name_length(rest) >= MAX_IDENTIFIER,
        None => false,
    }
}

// How many characters an identifier goes on.
fn name_length(text: &str) -> usize
    ensures { result ≡ name_length (chars text.now) }
{
    let mut length = 0;
    let mut left = text;
    while let Some((c, rest)) = first_char(left) {
        if !may_follow(c) {
            return length;
        }
        length += 1;
        left = rest;
    }
    length
}
