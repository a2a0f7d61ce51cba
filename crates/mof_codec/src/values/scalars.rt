//! Reading a single value: a text, a number, a name, a truth value or null.
ghost use Rattle.std.specs.Prelude.{◌≡◌, IfOk, IfSome, IfNone};
ghost use Rattle.std.specs.Str.{chars};
ghost use Rattle.mof_syntax.specs.Grammar.{ConstantValue};
ghost use Rattle.mof_syntax.specs.Limits.{ScalarFits};
ghost use Rattle.mof_codec.specs.Reading.{BeginsWith, Lacks};

use crate::values::integers::integer;
use crate::values::strings::string;
use crate::values::words::{alias, keyword};
use mof_syntax::separators_rest;
use mof_values::Scalar;
use std::alloc::{AllocError, Global};

/// A single value within the limits, and what is after.
pub(crate) fn constant(alloc: Global, text: &str) -> Result<Option<(Scalar, &str)>, AllocError>
    ensures some { IfOk result (λ found. IfSome found (λ x. BeginsWith ConstantValue ScalarFits (chars text.now) x.0 (chars x.1.now))) }
    ensures none { IfOk result (λ found. IfNone found (Lacks ConstantValue ScalarFits (chars text.now))) }
{
    let left = separators_rest(text);
    if let Some((text, rest)) = string(alloc, left)? {
        return Ok(Some((Scalar::Text(text), rest)));
    }
    if let Some((value, rest)) = integer(left) {
        return Ok(Some((Scalar::Integer(value), rest)));
    }
    if let Some((name, rest)) = alias(alloc, left)? {
        return Ok(Some((Scalar::Alias(name), rest)));
    }
    if let Some(rest) = keyword(left, "TRUE") {
        return Ok(Some((Scalar::Bool(true), rest)));
    }
    if let Some(rest) = keyword(left, "FALSE") {
        return Ok(Some((Scalar::Bool(false), rest)));
    }
    if let Some(rest) = keyword(left, "NULL") {
        return Ok(Some((Scalar::Null, rest)));
    }
    Ok(None)
}
