//! A text as pieces: separators and tokens, each as long as it can be.
ghost use Rattle.std.specs.Prelude.{◌<◌, ◌≤◌, length, IfSome};

use std::alloc::{AllocError, Global};

/// A word by its letters without case. Its place alone decides whether it is a keyword.
#[derive(Clone, Copy, Debug, PartialEq, Eq)]
pub(crate) enum Word {
    Instance,
    Of,
    As,
    True,
    False,
    Null,
    Other,
}

#[derive(Clone, Copy, Debug, PartialEq, Eq)]
pub(crate) enum Token {
    Word(Word),
    Alias,
    Literal,
    Integer,
    Mark(char),
}

#[derive(Clone, Copy, Debug, PartialEq, Eq)]
enum Piece {
    Separator,
    Token(Token),
}

/// The tokens of a text, or none where it does not divide into pieces.
pub(crate) fn tokens(alloc: Global, text: &[char]) -> Result<Option<Vec<Token>>, AllocError> {
    let mut tokens = Vec::new(alloc);
    let mut left = text;
    let mut apart = true;
    while let [first, ..] = left {
        let Some((piece, length)) = longest(left) else {
            return Ok(None);
        };
        if !apart && goes_on_name(*first) {
            return Ok(None);
        }
        apart = match piece {
            Piece::Token(Token::Word(_) | Token::Alias | Token::Integer) => false,
            _ => true,
        };
        if let Piece::Token(token) = piece {
            tokens.push(token)?;
        }
        left = &left[length..];
    }
    Ok(Some(tokens))
}

// The longest piece that the characters begin with, and its length.
fn longest(chars: &[char]) -> Option<(Piece, usize)>
    ensures some { IfSome result (λ found. 0 < found.1) }
    ensures within { IfSome result (λ found. found.1 ≤ length chars.now) }
{
    let mut count = chars.len();
    while count > 0 {
        if let Some(piece) = whole_piece(&chars[..count]) {
            return Some((piece, count));
        }
        count -= 1;
    }
    None
}

// The piece that all of the characters are.
fn whole_piece(chars: &[char]) -> Option<Piece> {
    if is_separator(chars) {
        return Some(Piece::Separator);
    }
    if is_name(chars) {
        return Some(Piece::Token(Token::Word(word_of(chars))));
    }
    if is_integer(chars) {
        return Some(Piece::Token(Token::Integer));
    }
    match chars {
        ['$', name @ ..] if is_name(name) => Some(Piece::Token(Token::Alias)),
        ['"', literal @ ..] if ends_literal(literal) => Some(Piece::Token(Token::Literal)),
        [mark] if matches!(*mark, '{' | '}' | '=' | ';' | ',') => {
            Some(Piece::Token(Token::Mark(*mark)))
        }
        _ => None,
    }
}

// White space, or a comment: after `//` to the end of its line, or from `/*` to the next `*/`.
fn is_separator(chars: &[char]) -> bool {
    match chars {
        [' ' | '\t' | '\r' | '\n'] => true,
        ['/', '/', comment @ ..] => comment.iter().all(|c| *c != '\n'),
        ['/', '*', comment @ .., '*', '/'] => !holds_end(comment),
        _ => false,
    }
}

// Returns whether a comment that is these characters would have ended before.
fn holds_end(comment: &[char]) -> bool {
    let mut left = comment;
    while let [_, rest @ ..] = left {
        if let ['*', '/', ..] = left {
            return true;
        }
        left = rest;
    }
    false
}

// A letter, an underscore or U+0080 to U+FFEF.
fn begins_name(c: char) -> bool {
    matches!(c, 'A'..='Z' | 'a'..='z' | '_' | '\u{80}'..='\u{ffef}')
}

fn goes_on_name(c: char) -> bool {
    begins_name(c) || matches!(c, '0'..='9')
}

fn is_name(chars: &[char]) -> bool {
    match chars {
        [first, rest @ ..] => begins_name(*first) && rest.iter().all(|c| goes_on_name(*c)),
        [] => false,
    }
}

fn word_of(chars: &[char]) -> Word {
    if is_word(chars, b"instance") {
        Word::Instance
    } else if is_word(chars, b"of") {
        Word::Of
    } else if is_word(chars, b"as") {
        Word::As
    } else if is_word(chars, b"true") {
        Word::True
    } else if is_word(chars, b"false") {
        Word::False
    } else if is_word(chars, b"null") {
        Word::Null
    } else {
        Word::Other
    }
}

fn is_word(chars: &[char], word: &[u8]) -> bool {
    chars.len() == word.len()
        && chars.iter().zip(word).all(|(c, letter)| c.to_ascii_lowercase() == char::from(*letter))
}

// An optional sign, and digits with the marks of their base.
fn is_integer(chars: &[char]) -> bool {
    match chars {
        ['+' | '-', digits @ ..] => is_magnitude(digits),
        _ => is_magnitude(chars),
    }
}

// Hexadecimal, binary, octal (a 0 and further digits, if any) or decimal.
fn is_magnitude(chars: &[char]) -> bool {
    match chars {
        ['0'] => true,
        ['0', 'x' | 'X', digits @ ..] => are_digits(digits, 16),
        [digits @ .., 'b' | 'B'] => are_digits(digits, 2),
        ['0', digits @ ..] => are_digits(digits, 8),
        _ => are_digits(chars, 10),
    }
}

// One or more digits of the base.
fn are_digits(chars: &[char], base: u32) -> bool
    requires least { 2 ≤ base }
    requires most { base ≤ 16 }
{
    !chars.is_empty() && chars.iter().all(|c| c.is_digit(base))
}

// Returns whether a literal whose opening quote was before ends with these characters, and not sooner.
fn ends_literal(chars: &[char]) -> bool {
    let mut left = chars;
    while let [c, rest @ ..] = left {
        left = match *c {
            '"' => return rest.is_empty(),
            '\\' => match escape_rest(rest) {
                Some(after) => after,
                None => return false,
            },
            _ => rest,
        };
    }
    false
}

// What is after the escape whose backslash was before.
fn escape_rest(chars: &[char]) -> Option<&[char]>
    ensures { IfSome result (λ rest. length rest.now ≤ length chars.now) }
{
    match chars {
        ['b' | 't' | 'n' | 'f' | 'r' | '"' | '\'' | '\\', rest @ ..] => Some(rest),
        ['x' | 'X', digits @ ..] if !is_surrogate(digits) => digits_rest(digits),
        _ => None,
    }
}

// What is after one to four hexadecimal digits, as many as there are.
fn digits_rest(chars: &[char]) -> Option<&[char]>
    ensures { IfSome result (λ rest. length rest.now ≤ length chars.now) }
{
    match chars {
        [a, b, c, d, rest @ ..] if is_hex(*a) && is_hex(*b) && is_hex(*c) && is_hex(*d) => Some(
            rest,
        ),
        [a, b, c, rest @ ..] if is_hex(*a) && is_hex(*b) && is_hex(*c) => Some(rest),
        [a, b, rest @ ..] if is_hex(*a) && is_hex(*b) => Some(rest),
        [a, rest @ ..] if is_hex(*a) => Some(rest),
        _ => None,
    }
}

// The digits of D800 to DFFF come first.
fn is_surrogate(chars: &[char]) -> bool {
    match chars {
        [
            'D' | 'd',
            '8' | '9' | 'A'..='F' | 'a'..='f',
            third,
            fourth,
            ..
        ] => { is_hex(*third) && is_hex(*fourth) }
        _ => false,
    }
}

fn is_hex(c: char) -> bool {
    matches!(c, '0'..='9' | 'A'..='F' | 'a'..='f')
}
