//! The step of the walk over a text: the state after one more character.
ghost use Rattle.std.specs.Prelude.{◌≡◌, drop};
ghost use Rattle.mof_codec.specs.declared.machine.state.Half.TheVariants as halves;
ghost use Rattle.mof_codec.specs.Machine.{letters, head_of, go, numbered, quoted, key_on, digit_on, step, is_whole};

use crate::machine::characters::hex_value;
use crate::machine::numerals::number_begun;
use crate::machine::rules::{begin, ended, go};
use crate::machine::state::{Event, Half, Keyword, Numeral, Place, State};
use crate::machine::words::{keyed, letter};
use mof_values::{may_begin, may_follow};

/// The state after one more character, or none where no text goes on with it.
pub(crate) fn step(state: State, c: char) -> Option<State>
    ensures { result ≡ step state.half state.place c }
{
    let place = state.place;
    match state.half {
        Half::Gap => begin(place, c),
        Half::Slash => match c {
            '/' => go(place, Half::Line),
            '*' => go(place, Half::Block),
            _ => None,
        },
        Half::Line => go(place, if c == '\n' { Half::Gap } else { Half::Line }),
        Half::Block => go(place, if c == '*' { Half::Star } else { Half::Block }),
        Half::Star => match c {
            '/' => go(place, Half::Gap),
            '*' => go(place, Half::Star),
            _ => go(place, Half::Block),
        },
        Half::Name => {
            if may_follow(c) {
                go(place, Half::Name)
            } else {
                begin(place, c)
            }
        }
        Half::Alias => {
            if may_begin(c) {
                go(place, Half::Name)
            } else {
                None
            }
        }
        Half::Key(word, read) => key_on(word, read, place, c),
        Half::Integer(numeral) => numbered(numeral, place, c),
        Half::Literal => quoted(place, c),
        Half::Escape => escaped(place, c),
        Half::EscapeX => match hex_value(c) {
            None => None,
            Some(value) => go(place, Half::Digits(3, value)),
        },
        Half::Digits(more, value) => digit_on(more, value, place, c),
    }
}

fn key_on(word: Keyword, read: usize, place: Place, c: char) -> Option<State>
    ensures { result ≡ key_on (head_of (drop read (letters word))) word read place c }
{
    match letter(word, read) {
        None => ended(place, c),
        Some(_) => keyed(Event::Quiet, word, read, place, c),
    }
}

fn numbered(numeral: Numeral, place: Place, c: char) -> Option<State>
    ensures { result ≡ numbered numeral place c }
{
    match numeral {
        Numeral::Sign => number_begun(Event::Quiet, place, c),
        Numeral::Zero => match c {
            'x' | 'X' => go(place, Half::Integer(Numeral::Prefix)),
            '0' | '1' => go(place, Half::Integer(Numeral::ZeroBits)),
            '2'..='7' => go(place, Half::Integer(Numeral::Octal)),
            'b' | 'B' => go(place, Half::Integer(Numeral::Binary)),
            _ => ended(place, c),
        },
        Numeral::ZeroBits => match c {
            '0' | '1' => go(place, Half::Integer(Numeral::ZeroBits)),
            '2'..='7' => go(place, Half::Integer(Numeral::Octal)),
            'b' | 'B' => go(place, Half::Integer(Numeral::Binary)),
            _ => ended(place, c),
        },
        Numeral::Octal => match c {
            '0'..='7' => go(place, Half::Integer(Numeral::Octal)),
            _ => ended(place, c),
        },
        Numeral::Bits => match c {
            '0' | '1' => go(place, Half::Integer(Numeral::Bits)),
            '2'..='9' => go(place, Half::Integer(Numeral::Decimal)),
            'b' | 'B' => go(place, Half::Integer(Numeral::Binary)),
            _ => ended(place, c),
        },
        Numeral::Decimal => match c {
            '0'..='9' => go(place, Half::Integer(Numeral::Decimal)),
            _ => ended(place, c),
        },
        Numeral::Prefix => match hex_value(c) {
            Some(_) => go(place, Half::Integer(Numeral::Hexadecimal)),
            None => None,
        },
        Numeral::Hexadecimal => match hex_value(c) {
            Some(_) => go(place, Half::Integer(Numeral::Hexadecimal)),
            None => ended(place, c),
        },
        Numeral::Binary => ended(place, c),
    }
}

fn quoted(place: Place, c: char) -> Option<State>
    ensures { result ≡ quoted place c }
{
    match c {
        '"' => go(place, Half::Gap),
        '\\' => go(place, Half::Escape),
        _ => go(place, Half::Literal),
    }
}

fn escaped(place: Place, c: char) -> Option<State>
    ensures { result ≡ step halves.Escape place c }
{
    match c {
        'b' | 't' | 'n' | 'f' | 'r' | '"' | '\'' | '\\' => go(place, Half::Literal),
        'x' | 'X' => go(place, Half::EscapeX),
        _ => None,
    }
}

// A digit that would make the escape stand for a surrogate cannot stand there.
fn digit_on(more: u8, value: u16, place: Place, c: char) -> Option<State>
    ensures { result ≡ digit_on more value place c }
{
    if more == 0 {
        return quoted(place, c);
    }
    match hex_value(c) {
        None => quoted(place, c),
        Some(digit) => match u32::from(value) * 16 + u32::from(digit) {
            0xd800..=0xdfff | 0x10000.. => None,
            next => go(place, Half::Digits(more - 1, next as u16)),
        },
    }
}

/// Returns whether no token and no comment is half read.
pub(crate) fn is_whole(half: Half) -> bool
    ensures { result ≡ is_whole half }
{
    match half {
        Half::Gap | Half::Line | Half::Name => true,
        Half::Key(word, read) => letter(word, read).is_none(),
        Half::Integer(numeral) => !matches!(numeral, Numeral::Sign | Numeral::Prefix),
        _ => false,
    }
}
