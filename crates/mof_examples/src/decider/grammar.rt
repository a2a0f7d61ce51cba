//! The rules over tokens. Each takes a rule's tokens from the front of a list, and gives what is after them.
ghost use Rattle.std.specs.Prelude.{◌<◌, ◌≤◌, length, IfSome};

use crate::decider::pieces::{Token, Word};

/// Returns whether all the tokens are declarations, any number of them.
pub(crate) fn are_declarations(tokens: &[Token]) -> bool {
    let mut left = tokens;
    while !left.is_empty() {
        match declaration(left) {
            Some(rest) => left = rest,
            None => return false,
        }
    }
    true
}

// `instance`, `of`, the class, an alias or none, and properties between braces and a semicolon.
fn declaration(tokens: &[Token]) -> Option<&[Token]>
    ensures { IfSome result (λ rest. length rest.now < length tokens.now) }
{
    match tokens {
        [
            Token::Word(Word::Instance),
            Token::Word(Word::Of),
            Token::Word(_),
            rest @ ..,
        ] => {
            let body = mark(alias(rest), '{')?;
            mark(properties(body)?, ';')
        }
        _ => None,
    }
}

fn alias(tokens: &[Token]) -> &[Token]
    ensures { length result.now ≤ length tokens.now }
{
    match tokens {
        [Token::Word(Word::As), Token::Alias, rest @ ..] => rest,
        _ => tokens,
    }
}

// Any number of properties, and the brace after them.
fn properties(tokens: &[Token]) -> Option<&[Token]>
    ensures { IfSome result (λ rest. length rest.now ≤ length tokens.now) }
{
    let mut left = tokens;
    while let [Token::Word(_), Token::Mark('='), rest @ ..] = left {
        left = mark(value(rest)?, ';')?;
    }
    mark(left, '}')
}

// A single value, or an array of any number of them.
fn value(tokens: &[Token]) -> Option<&[Token]>
    ensures { IfSome result (λ rest. length rest.now ≤ length tokens.now) }
{
    match tokens {
        [Token::Mark('{'), Token::Mark('}'), rest @ ..] => Some(rest),
        [Token::Mark('{'), rest @ ..] => elements(rest),
        _ => single(tokens),
    }
}

// One or more single values with commas between them, and the brace after them.
fn elements(tokens: &[Token]) -> Option<&[Token]>
    ensures { IfSome result (λ rest. length rest.now ≤ length tokens.now) }
{
    let mut left = single(tokens)?;
    while let [Token::Mark(','), rest @ ..] = left {
        left = single(rest)?;
    }
    mark(left, '}')
}

// One or more literals, an integer, a keyword that is a value, or an alias.
fn single(tokens: &[Token]) -> Option<&[Token]>
    ensures { IfSome result (λ rest. length rest.now ≤ length tokens.now) }
{
    match tokens {
        [Token::Literal, rest @ ..] => Some(literals(rest)),
        [Token::Integer | Token::Alias, rest @ ..] => Some(rest),
        [
            Token::Word(Word::True | Word::False | Word::Null),
            rest @ ..,
        ] => Some(rest),
        _ => None,
    }
}

// What is after all the literals.
fn literals(tokens: &[Token]) -> &[Token]
    ensures { length result.now ≤ length tokens.now }
{
    let mut left = tokens;
    while let [Token::Literal, rest @ ..] = left {
        left = rest;
    }
    left
}

fn mark(tokens: &[Token], wanted: char) -> Option<&[Token]>
    ensures { IfSome result (λ rest. length rest.now ≤ length tokens.now) }
{
    match tokens {
        [Token::Mark(found), rest @ ..] if *found == wanted => Some(rest),
        _ => None,
    }
}
