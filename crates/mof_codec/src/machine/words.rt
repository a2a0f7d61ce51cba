//! Steps within keywords.
ghost use Rattle.std.specs.Prelude.{◌≡◌, ◌<◌, ◌≤◌, drop, length, IfSome};
ghost use Rattle.mof_codec.specs.Machine.{mark, letters, head_of, keyed, value_word};

use crate::machine::state::{Event, Half, Keyword, Place, State};

/// The letters of the keyword, in lower case.
fn letters(word: Keyword) -> &'static [char]
    ensures value { result.now ≡ letters word }
    ensures short { length result.now ≤ 8 }
{
    match word {
        Keyword::Instance => &['i', 'n', 's', 't', 'a', 'n', 'c', 'e'],
        Keyword::Of => &['o', 'f'],
        Keyword::As => &['a', 's'],
        Keyword::True => &['t', 'r', 'u', 'e'],
        Keyword::False => &['f', 'a', 'l', 's', 'e'],
        Keyword::Null => &['n', 'u', 'l', 'l'],
    }
}

/// The letter of the keyword after that many.
pub(crate) fn letter(word: Keyword, read: usize) -> Option<char>
    ensures value { result ≡ head_of (drop read (letters word)) }
    ensures bound { IfSome result (λ l. read < 8) }
{
    letters(word).get(read).copied()
}

/// The state with which the token goes on, or begins.
pub(crate) fn mark(begun: Event, place: Place, half: Half) -> Option<State>
    ensures { result ≡ mark begun place half }
{
    Some(State { place, half, begun })
}

/// A letter of the keyword, after that many.
pub(crate) fn keyed(
    begun: Event,
    word: Keyword,
    read: usize,
    place: Place,
    c: char,
) -> Option<State>
    ensures { result ≡ keyed (head_of (drop read (letters word))) begun word read place c }
{
    match letter(word, read) {
        Some(letter) if c.to_ascii_lowercase() == letter => {
            mark(begun, place, Half::Key(word, read + 1))
        }
        _ => None,
    }
}

/// The first letter of a value that is a keyword.
pub(crate) fn value_word(begun: Event, place: Place, c: char) -> Option<State>
    ensures { result ≡ value_word begun place c }
{
    match c.to_ascii_lowercase() {
        't' => mark(begun, place, Half::Key(Keyword::True, 1)),
        'f' => mark(begun, place, Half::Key(Keyword::False, 1)),
        'n' => mark(begun, place, Half::Key(Keyword::Null, 1)),
        _ => None,
    }
}
