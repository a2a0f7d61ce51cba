//! Finds where a text goes wrong.
ghost use Rattle.std.specs.Prelude.{◌≡◌, ◌↔◌, true, None, IfSome, IfNone};
ghost use Rattle.std.specs.Str.{chars};
ghost use Rattle.mof_syntax.specs.Grammar.{Wide};
ghost use Rattle.mof_syntax.specs.Fronts.{IsSyntaxFault};
ghost use Rattle.mof_codec.specs.declared.machine.state.Place.TheVariants as places;
ghost use Rattle.mof_codec.specs.Machine.{is_whole};
ghost use Rattle.mof_codec.specs.Walked.{walked};
ghost use Rattle.mof_codec.specs.Searching.{StandsAfter};

use crate::machine::state::{Place, START, State};
use crate::machine::step::{is_whole, step};
use mof_syntax::text::{char_count, first_char, place_of};

/// The length of the longest prefix with which a text of the wide grammar begins, or none where the text is one.
pub(crate) fn fault(text: &str) -> Option<usize>
    ensures fault { IfSome result (λ at. IsSyntaxFault (chars text.now) at) }
    ensures wide { IfNone result (Wide (chars text.now)) }
{
    let mut state = START;
    let mut left = text;
    while let Some((c, rest)) = first_char(left) {
        let Some(next) = step(state, c) else {
            return Some(place_of(text, left));
        };
        state = next;
        left = rest;
    }
    if is_end(state) {
        return None;
    }
    Some(char_count(text))
}

/// The state after the text, or none where no text of the wide grammar begins with it.
pub(crate) fn state_after(text: &str) -> Option<State>
    ensures some { IfSome result (λ state. StandsAfter (chars text.now) state) }
    ensures none { IfNone result (walked (chars text.now) ≡ None) }
{
    let mut state = START;
    let mut left = text;
    while let Some((c, rest)) = first_char(left) {
        let Some(next) = step(state, c) else {
            return None;
        };
        state = next;
        left = rest;
    }
    Some(state)
}

// No declaration, token or comment is begun.
fn is_end(state: State) -> bool
    ensures { result ≡ true ↔ (state.place ≡ places.Start) × (is_whole state.half ≡ true) }
{
    match state.place {
        Place::Start => is_whole(state.half),
        _ => false,
    }
}
