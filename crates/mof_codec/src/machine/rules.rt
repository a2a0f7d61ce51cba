//! Which token may begin at each place.
ghost use Rattle.std.specs.Prelude.{◌≡◌};
ghost use Rattle.mof_codec.specs.Machine.{go, scalar_begun, opened, begin, ended};

use crate::machine::characters::{Kind, kind_of};
use crate::machine::numerals::number_begun;
use crate::machine::state::{Event, Half, Keyword, Numeral, Place, State};
use crate::machine::words::{keyed, mark, value_word};
use mof_values::may_follow;

/// The state with which a token or a separator goes on.
pub(crate) fn go(place: Place, half: Half) -> Option<State>
    ensures { result ≡ go place half }
{
    mark(Event::Quiet, place, half)
}

// The first character of a single value: a literal leads to one place, any other value to another.
fn scalar_begun(begun: Event, text: Place, other: Place, kind: Kind, c: char) -> Option<State>
    ensures { result ≡ scalar_begun begun text other kind c }
{
    match kind {
        Kind::Letter => value_word(begun, other, c),
        Kind::Digit => number_begun(begun, other, c),
        Kind::Sign => mark(begun, other, Half::Integer(Numeral::Sign)),
        Kind::Quote => mark(begun, text, Half::Literal),
        Kind::Dollar => mark(begun, other, Half::Alias),
        _ => None,
    }
}

// The first character of a token.
fn opened(place: Place, kind: Kind, c: char) -> Option<State>
    ensures { result ≡ opened place kind c }
{
    match (place, kind) {
        (Place::Start, Kind::Letter) => {
            keyed(
                Event::Declaration,
                Keyword::Instance,
                0,
                Place::AfterInstance,
                c,
            )
        }
        (Place::AfterInstance, Kind::Letter) => keyed(
            Event::Quiet,
            Keyword::Of,
            0,
            Place::AfterOf,
            c,
        ),
        (Place::AfterOf, Kind::Letter) => go(Place::AfterClass, Half::Name),
        (Place::AfterClass, Kind::LeftBrace) => go(Place::Body, Half::Gap),
        (Place::AfterClass, Kind::Letter) => keyed(Event::Quiet, Keyword::As, 0, Place::AfterAs, c),
        (Place::AfterAs, Kind::Dollar) => go(Place::AfterAlias, Half::Alias),
        (Place::AfterAlias, Kind::LeftBrace) => go(Place::Body, Half::Gap),
        (Place::Body, Kind::RightBrace) => go(Place::AfterBody, Half::Gap),
        (Place::Body, Kind::Letter) => mark(Event::Property, Place::AfterName, Half::Name),
        (Place::AfterBody, Kind::Semicolon) => go(Place::Start, Half::Gap),
        (Place::AfterName, Kind::EqualsSign) => go(Place::AfterEquals, Half::Gap),
        (Place::AfterEquals, Kind::LeftBrace) => go(Place::InArray, Half::Gap),
        (Place::AfterEquals, _) => {
            scalar_begun(
                Event::Quiet,
                Place::AfterStrings,
                Place::AfterValue,
                kind,
                c,
            )
        }
        (Place::AfterStrings, Kind::Quote) => go(Place::AfterStrings, Half::Literal),
        (Place::AfterStrings | Place::AfterValue, Kind::Semicolon) => go(Place::Body, Half::Gap),
        (Place::InArray, Kind::RightBrace) => go(Place::AfterValue, Half::Gap),
        (Place::InArray | Place::AfterComma, _) => {
            scalar_begun(
                Event::Element,
                Place::AfterElementStrings,
                Place::AfterElement,
                kind,
                c,
            )
        }
        (Place::AfterElementStrings, Kind::Quote) => go(Place::AfterElementStrings, Half::Literal),
        (Place::AfterElementStrings | Place::AfterElement, Kind::Comma) => {
            go(Place::AfterComma, Half::Gap)
        }
        (Place::AfterElementStrings | Place::AfterElement, Kind::RightBrace) => {
            go(Place::AfterValue, Half::Gap)
        }
        _ => None,
    }
}

/// The first character of a token or a separator.
#[tactic(auto, unfolding(crate::specs::Machine::begin))]
pub(crate) fn begin(place: Place, c: char) -> Option<State>
    ensures { result ≡ begin place c }
{
    match kind_of(c) {
        Kind::Blank => go(place, Half::Gap),
        Kind::Slash => go(place, Half::Slash),
        kind => opened(place, kind, c),
    }
}

/// The character after a token that ends with an identifier character.
pub(crate) fn ended(place: Place, c: char) -> Option<State>
    ensures { result ≡ ended place c }
{
    if may_follow(c) { None } else { begin(place, c) }
}
