//! The first place at which a literal of a kind stands where a single value may begin.
ghost use Rattle.std.specs.Prelude.{◌≡◌, ◌↔◌, ℕ, true, IfSome, IfNone};
ghost use Rattle.std.specs.Str.{chars};
ghost use Rattle.mof_syntax.specs.Fronts.{IsFront};
ghost use Rattle.std.specs.List.{list_all};
ghost use Rattle.mof_syntax.specs.Characters.{digit_of};
ghost use Rattle.mof_codec.specs.Beginnings.{begins_scalar};
ghost use Rattle.mof_codec.specs.Searching.{FirstOf, IsWanted, ScalarStands, is_real};

use crate::machine::beginnings::begins_scalar;
use crate::machine::state::{START, State};
use crate::machine::step::step;
use crate::values::is_out_of_range;
use mof_syntax::text::{char_count, first_char, place_of};

/// A literal that is looked for.
#[derive(Clone, Copy, Debug, PartialEq, Eq)]
pub(crate) enum Wanted {
    /// An integer below -2^63 or above 2^64-1.
    ExcessInteger,

    /// The front of a floating-point constant up to its point, where that is all of the text.
    Real,
}

/// The first place of such a literal in a text with which some text of the wide grammar begins.
pub(crate) fn first_scalar(front: &str, wanted: Wanted) -> Option<usize>
    requires { IsFront (chars front.now) }
    ensures some { IfSome result (λ at. FirstOf (ScalarStands wanted (chars front.now)) at) }
    ensures none { IfNone result ((at : ℕ) → ScalarStands wanted (chars front.now) at → ⊥) }
{
    let mut state = START;
    let mut left = front;
    while let Some((c, rest)) = first_char(left) {
        if stands(state, wanted, left) {
            return Some(place_of(front, left));
        }
        let Some(next) = step(state, c) else {
            return None;
        };
        state = next;
        left = rest;
    }
    if stands(state, wanted, left) {
        return Some(char_count(front));
    }
    None
}

fn stands(state: State, wanted: Wanted, text: &str) -> bool
    ensures { result ≡ true ↔ (begins_scalar state.half state.place ≡ true) × IsWanted wanted (chars text.now) }
{
    begins_scalar(state) && is_wanted(wanted, text)
}

fn is_wanted(wanted: Wanted, text: &str) -> bool
    ensures { result ≡ true ↔ IsWanted wanted (chars text.now) }
{
    match wanted {
        Wanted::ExcessInteger => is_out_of_range(text),
        Wanted::Real => is_real(text),
    }
}

// An optional sign and decimal digits, and nothing else.
fn is_real(text: &str) -> bool
    ensures { result ≡ is_real (chars text.now) }
{
    match first_char(text) {
        Some(('+' | '-', rest)) => are_digits(rest),
        _ => are_digits(text),
    }
}

fn are_digits(text: &str) -> bool
    ensures { result ≡ list_all (digit_of 10) (chars text.now) }
{
    text.chars().all(|c| c.is_digit(10))
}
