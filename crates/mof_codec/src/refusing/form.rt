//! The form of DSP0004 that is left out and stands where a text goes wrong.
ghost use Rattle.std.specs.Prelude.{◌≡◌, ◌≤◌, ◌↔◌, true, length, IfSome, IfNone};
ghost use Rattle.std.specs.Str.{chars};
ghost use Rattle.mof_values.specs.Ident.{is_next};
ghost use Rattle.mof_syntax.specs.declared.mof_error.Form.{Form};
ghost use Rattle.mof_syntax.specs.Characters.{Stops};
ghost use Rattle.mof_syntax.specs.Fronts.{IsSyntaxFault};
ghost use Rattle.mof_codec.specs.Searching.{IsFirstForm, HasNoForm, BeginsWord, BeginsForm, StandsForm, begins_with};

use crate::machine::beginnings::{begins_declaration, begins_scalar};
use crate::machine::state::State;
use crate::refusing::fault::state_after;
use crate::refusing::scalar::{Wanted, first_scalar};
use crate::values::is_word;
use mof_syntax::Form;
use mof_syntax::text::{first_char, split_chars};
use mof_values::may_follow;

/// The form that stands in a text which goes wrong at `fault`, and where it begins.
pub(crate) fn form_at(text: &str, fault: usize) -> Option<(usize, Form)>
    requires within { fault ≤ length (chars text.now) }
    requires fault { IsSyntaxFault (chars text.now) fault }
    ensures some { IfSome result (λ found. IsFirstForm (chars text.now) fault found.0 found.1) }
    ensures none { IfNone result (HasNoForm (chars text.now) fault) }
{
    let (front, left) = split_chars(text, fault);
    if begins_with(left, '.') {
        return match first_scalar(front, Wanted::Real) {
            Some(at) => Some((at, Form::Real)),
            None => None,
        };
    }
    let state = state_after(front)?;
    match form_here(state, left) {
        Some(form) => Some((fault, form)),
        None => None,
    }
}

// The form that stands where the machine is in the state and this text comes.
fn form_here(state: State, left: &str) -> Option<Form>
    ensures some { IfSome result (λ form. StandsForm state (chars left.now) form) }
    ensures none { IfNone result ((form : Form) → StandsForm state (chars left.now) form → ⊥) }
{
    if begins_scalar(state) && begins_with(left, '\'') {
        return Some(Form::Character);
    }
    if begins_declaration(state) {
        return declared(left);
    }
    None
}

// The form that stands in place of a declaration.
fn declared(left: &str) -> Option<Form>
    ensures some { IfSome result (λ form. BeginsForm (chars left.now) form) }
    ensures none { IfNone result ((form : Form) → BeginsForm (chars left.now) form → ⊥) }
{
    if begins_with(left, '#') {
        return Some(Form::Pragma);
    }
    if begins_with(left, '[') {
        return Some(Form::Qualifiers);
    }
    if begins_word(left, "class") {
        return Some(Form::Class);
    }
    if begins_word(left, "qualifier") {
        return Some(Form::Qualifier);
    }
    None
}

fn begins_with(text: &str, c: char) -> bool
    ensures { result ≡ begins_with (chars text.now) c }
{
    match first_char(text) {
        Some((first, _)) => first == c,
        None => false,
    }
}

fn begins_word(text: &str, word: &str) -> bool
    ensures { result ≡ true ↔ BeginsWord (chars text.now) word.now }
{
    if !has_chars(text, word.len()) {
        return false;
    }
    let (front, rest) = split_chars(text, word.len());
    is_word(front, word) && stops(rest)
}

// Returns whether the text has that many characters; of a longer text only those are looked at.
fn has_chars(text: &str, count: usize) -> bool
    ensures { result ≡ true ↔ (count ≤ length (chars text.now)) }
{
    let mut left = text;
    for _ in 0..count {
        let Some((_, rest)) = first_char(left) else {
            return false;
        };
        left = rest;
    }
    true
}

fn stops(text: &str) -> bool
    ensures { result ≡ true ↔ Stops is_next (chars text.now) }
{
    match first_char(text) {
        Some((c, _)) => !may_follow(c),
        None => true,
    }
}
