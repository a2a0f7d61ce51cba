//! Scalars and values.
ghost use Rattle.std.specs.Prelude.{◌≡◌, ◌++◌, OnOk, string_bytes};
ghost use Rattle.std.specs.List.{flat_map, AllByRecursion};
ghost use Rattle.mof_syntax.specs.Canonical.{canonical_scalar, canonical_elements, canonical_value};
ghost use Rattle.mof_syntax.specs.Numerals.{signed_numeral};
ghost use Rattle.mof_codec.specs.Written.{Adds, further_element, ScalarIsValid, ValueIsValid};

use crate::writer::literals::{push_literal, push_name};
use mof_values::{Scalar, Value};
use std::alloc::AllocError;
use std::fmt::Write;

/// Appends a scalar, or an array of them.
pub(crate) fn push_value(out: &mut String, value: &Value) -> Result<(), AllocError>
    ensures text { OnOk result (Adds (string_bytes out.old) (string_bytes out.new) (canonical_value value.now)) }
    ensures valid { OnOk result (ValueIsValid value.now) }
{
    match value {
        Value::One(scalar) => push_scalar(out, scalar),
        Value::Many(scalars) => {
            out.push('{')?;
            push_elements(out, scalars.as_slice())?;
            out.push('}')?;
            Ok(())
        }
    }
}

// Scalars divided by a comma and a space.
fn push_elements(out: &mut String, scalars: &[Scalar]) -> Result<(), AllocError>
    ensures text { OnOk result (Adds (string_bytes out.old) (string_bytes out.new) (canonical_elements scalars.now)) }
    ensures valid { OnOk result (AllByRecursion ScalarIsValid scalars.now) }
{
    let [first, others @ ..] = scalars else {
        return Ok(());
    };
    push_scalar(out, first)?;
    push_further(out, others)?;
    Ok(())
}

// Each after a comma and a space.
fn push_further(out: &mut String, scalars: &[Scalar]) -> Result<(), AllocError>
    ensures text { OnOk result (Adds (string_bytes out.old) (string_bytes out.new) (flat_map further_element scalars.now)) }
    ensures valid { OnOk result (AllByRecursion ScalarIsValid scalars.now) }
{
    let mut left = scalars;
    while let [scalar, rest @ ..] = left {
        out.push_str(", ")?;
        push_scalar(out, scalar)?;
        left = rest;
    }
    Ok(())
}

fn push_scalar(out: &mut String, scalar: &Scalar) -> Result<(), AllocError>
    ensures text { OnOk result (Adds (string_bytes out.old) (string_bytes out.new) (canonical_scalar scalar.now)) }
    ensures valid { OnOk result (ScalarIsValid scalar.now) }
{
    match scalar {
        Scalar::Text(text) => push_literal(out, text.as_slice()),
        Scalar::Integer(value) => push_integer(out, *value),
        Scalar::Bool(true) => out.push_str("TRUE"),
        Scalar::Bool(false) => out.push_str("FALSE"),
        Scalar::Null => out.push_str("NULL"),
        Scalar::Alias(name) => {
            out.push('$')?;
            push_name(out, name)
        }
    }
}

fn push_integer(out: &mut String, value: i128) -> Result<(), AllocError>
    ensures { OnOk result (Adds (string_bytes out.old) (string_bytes out.new) (signed_numeral value)) }
{
    write!(out, "{value}")?;
    Ok(())
}
