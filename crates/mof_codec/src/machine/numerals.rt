//! The first digit of an integer.
ghost use Rattle.std.specs.Prelude.{◌≡◌};
ghost use Rattle.mof_codec.specs.Machine.{number_begun};

use crate::machine::state::{Event, Half, Numeral, Place, State};
use crate::machine::words::mark;

/// The first digit of an integer.
pub(crate) fn number_begun(begun: Event, place: Place, c: char) -> Option<State>
    ensures { result ≡ number_begun begun place c }
{
    match c {
        '0' => mark(begun, place, Half::Integer(Numeral::Zero)),
        '1' => mark(begun, place, Half::Integer(Numeral::Bits)),
        '2'..='9' => mark(begun, place, Half::Integer(Numeral::Decimal)),
        _ => None,
    }
}
