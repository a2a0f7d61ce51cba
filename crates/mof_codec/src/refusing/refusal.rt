//! The refusal that wins.
ghost use Rattle.std.specs.Prelude.{◌≡◌, ◌≤◌, length, None, List, IfSome, IfNone};
ghost use Rattle.std.specs.Str.{chars};
ghost use Rattle.mof_values.specs.declared.instance.Instance.{Instance};
ghost use Rattle.mof_syntax.specs.Limits.{Spells};
ghost use Rattle.mof_syntax.specs.Fronts.{IsSyntaxFault};
ghost use Rattle.mof_syntax.specs.Refusals.{Wins, refusal_place};
ghost use Rattle.mof_codec.specs.Searching.{IsFirstForm, HasNoForm};
ghost use Rattle.mof_codec.specs.Winning.{end_of, sooner, out_of_profile, number_range, too_many, syntax_fault};

use crate::refusing::excess::first_excess;
use crate::refusing::fault::fault;
use crate::refusing::form::form_at;
use crate::refusing::scalar::{Wanted, first_scalar};
use mof_syntax::text::{char_count, split_chars};
use mof_syntax::{Form, MofError};

/// Why the text spells no instances within the limits, or none where it spells some.
pub(crate) fn refusal_of(text: &str) -> Option<MofError>
    ensures some { IfSome result (λ e. Wins (chars text.now) e) }
    ensures none { IfNone result ((is : List Instance) × Spells (chars text.now) is) }
{
    let fault = fault(text);
    let form = left_out(text, fault);
    let (front, _) = split_chars(text, end_of(text, fault));
    let number = first_scalar(front, Wanted::ExcessInteger);
    let part = first_excess(text);
    let others = sooner(too_many(part), syntax(fault));
    sooner(out_of_profile(form), sooner(number_range(number), others))
}

// Where the text goes wrong, or its length where it does not.
fn end_of(text: &str, fault: Option<usize>) -> usize
    ensures { result ≡ end_of (chars text.now) fault }
{
    match fault {
        Some(at) => at,
        None => char_count(text),
    }
}

fn left_out(text: &str, fault: Option<usize>) -> Option<(usize, Form)>
    requires within { IfSome fault (λ at. at ≤ length (chars text.now)) }
    requires fault { IfSome fault (λ at. IsSyntaxFault (chars text.now) at) }
    ensures some { IfSome result (λ found. IfSome fault (λ at. IsFirstForm (chars text.now) at found.0 found.1)) }
    ensures wide { IfNone fault (result ≡ None) }
    ensures none { IfNone result (IfSome fault (λ at. HasNoForm (chars text.now) at)) }
{
    match fault {
        Some(at) => form_at(text, at),
        None => None,
    }
}

fn out_of_profile(found: Option<(usize, Form)>) -> Option<MofError>
    ensures { result ≡ out_of_profile found }
{
    match found {
        Some((at, what)) => Some(MofError::OutOfProfile { at, what }),
        None => None,
    }
}

fn number_range(found: Option<usize>) -> Option<MofError>
    ensures { result ≡ number_range found }
{
    match found {
        Some(at) => Some(MofError::NumberRange { at }),
        None => None,
    }
}

fn too_many(found: Option<usize>) -> Option<MofError>
    ensures { result ≡ too_many found }
{
    match found {
        Some(at) => Some(MofError::TooMany { at }),
        None => None,
    }
}

fn syntax(found: Option<usize>) -> Option<MofError>
    ensures { result ≡ syntax_fault found }
{
    match found {
        Some(at) => Some(MofError::Syntax { at }),
        None => None,
    }
}

// The one with the lesser place, and of equal places the first.
fn sooner(one: Option<MofError>, other: Option<MofError>) -> Option<MofError>
    ensures { result ≡ sooner one other }
{
    match (one, other) {
        (None, other) => other,
        (one, None) => one,
        (Some(one), Some(other)) => {
            if refusal_place(one) <= refusal_place(other) {
                Some(one)
            } else {
                Some(other)
            }
        }
    }
}

fn refusal_place(refusal: MofError) -> usize
    ensures { result ≡ refusal_place refusal }
{
    match refusal {
        MofError::Text { at }
        | MofError::Syntax { at }
        | MofError::OutOfProfile { at, .. }
        | MofError::NumberRange { at }
        | MofError::TooMany { at } => at,
        MofError::TooLong | MofError::Memory => 0,
    }
}
