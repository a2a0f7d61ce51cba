//! Properties of an instance.
ghost use Rattle.std.specs.Prelude.{◌≡◌, IfOk, IfSome, IfNone};
ghost use Rattle.std.specs.Str.{chars};
ghost use Rattle.mof_syntax.specs.Grammar.{ValueInitializers};
ghost use Rattle.mof_syntax.specs.Limits.{PropertyFits};
ghost use Rattle.mof_codec.specs.Reading.{BeginsWith, Lacks};
ghost use Rattle.mof_codec.specs.Values.{IsProperty, PropertiesFit};

use crate::values::arrays::initializer;
use crate::values::marks::{Mark, mark_rest};
use crate::values::words::word;
use mof_syntax::MAX_PROPERTIES;
use mof_values::Property;
use std::alloc::{AllocError, Global};

/// The properties up to the closing brace, within the limits, and what is after it.
pub(crate) fn properties(
    alloc: Global,
    text: &str,
) -> Result<Option<(Vec<Property>, &str)>, AllocError>
    ensures some { IfOk result (λ found. IfSome found (λ x. BeginsWith ValueInitializers PropertiesFit (chars text.now) x.0.items (chars x.1.now))) }
    ensures none { IfOk result (λ found. IfNone found (Lacks ValueInitializers PropertiesFit (chars text.now))) }
{
    let mut properties = Vec::new(alloc);
    let mut left = text;
    'properties: loop {
        if let Some(rest) = mark_rest(left, Mark::RightBrace) {
            return Ok(Some((properties, rest)));
        }
        if properties.len() == MAX_PROPERTIES {
            return Ok(None);
        }
        let Some((property, rest)) = property(alloc, left)? else {
            return Ok(None);
        };
        properties.push(property)?;
        left = rest;
    }
}

// A property within the limits, and what is after its semicolon.
fn property(alloc: Global, text: &str) -> Result<Option<(Property, &str)>, AllocError>
    ensures some { IfOk result (λ found. IfSome found (λ x. BeginsWith IsProperty PropertyFits (chars text.now) x.0 (chars x.1.now))) }
    ensures none { IfOk result (λ found. IfNone found (Lacks IsProperty PropertyFits (chars text.now))) }
{
    let Some((name, named)) = word(alloc, text)? else {
        return Ok(None);
    };
    let Some(given) = mark_rest(named, Mark::EqualsSign) else {
        return Ok(None);
    };
    let Some((value, end)) = initializer(alloc, given)? else {
        return Ok(None);
    };
    let Some(rest) = mark_rest(end, Mark::Semicolon) else {
        return Ok(None);
    };
    Ok(Some((Property { name, value }, rest)))
}
