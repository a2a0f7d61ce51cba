//! Arrays, and what a property may be given.
ghost use Rattle.std.specs.Prelude.{◌≡◌, IfOk, IfSome, IfNone};
ghost use Rattle.std.specs.Str.{chars};
ghost use Rattle.mof_syntax.specs.Grammar.{Initializer};
ghost use Rattle.mof_syntax.specs.Limits.{ValueFits};
ghost use Rattle.mof_codec.specs.Reading.{BeginsWith, Lacks};
ghost use Rattle.mof_codec.specs.Values.{IsArray, ArrayFits};

use crate::values::marks::{Mark, mark_rest};
use crate::values::scalars::constant;
use mof_syntax::MAX_ELEMENTS;
use mof_values::{Items, Scalar, Value};
use std::alloc::{AllocError, Global};

/// A single value or an array within the limits, and what is after.
pub(crate) fn initializer(alloc: Global, text: &str) -> Result<Option<(Value, &str)>, AllocError>
    ensures some { IfOk result (λ found. IfSome found (λ x. BeginsWith Initializer ValueFits (chars text.now) x.0 (chars x.1.now))) }
    ensures none { IfOk result (λ found. IfNone found (Lacks Initializer ValueFits (chars text.now))) }
{
    if let Some(inside) = mark_rest(text, Mark::LeftBrace) {
        let Some((elements, rest)) = array(alloc, inside)? else {
            return Ok(None);
        };
        return Ok(Some((Value::Many(Items::of(elements)), rest)));
    }
    let Some((scalar, rest)) = constant(alloc, text)? else {
        return Ok(None);
    };
    Ok(Some((Value::One(scalar), rest)))
}

// The elements of an array, of which the brace was read, and what is after the other.
fn array(alloc: Global, text: &str) -> Result<Option<(Vec<Scalar>, &str)>, AllocError>
    ensures some { IfOk result (λ found. IfSome found (λ x. BeginsWith IsArray ArrayFits (chars text.now) x.0.items (chars x.1.now))) }
    ensures none { IfOk result (λ found. IfNone found (Lacks IsArray ArrayFits (chars text.now))) }
{
    let mut elements = Vec::new(alloc);
    if let Some(rest) = mark_rest(text, Mark::RightBrace) {
        return Ok(Some((elements, rest)));
    }
    let Some((first, rest)) = constant(alloc, text)? else {
        return Ok(None);
    };
    elements.push(first)?;
    let mut left = rest;
    'elements: loop {
        if let Some(rest) = mark_rest(left, Mark::RightBrace) {
            return Ok(Some((elements, rest)));
        }
        let Some(next) = mark_rest(left, Mark::Comma) else {
            return Ok(None);
        };
        if elements.len() == MAX_ELEMENTS {
            return Ok(None);
        }
        let Some((element, rest)) = constant(alloc, next)? else {
            return Ok(None);
        };
        elements.push(element)?;
        left = rest;
    }
}
