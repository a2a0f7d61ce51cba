//! Declarations of instances.
ghost use Rattle.std.specs.Prelude.{◌≡◌, List, IfOk, IfSome, IfNone};
ghost use Rattle.std.specs.Str.{chars};
ghost use Rattle.mof_values.specs.declared.instance.Instance.{Instance};
ghost use Rattle.mof_syntax.specs.Limits.{InstanceFits, IsShortName, Spells};
ghost use Rattle.mof_codec.specs.Reading.{BeginsWith, Lacks};
ghost use Rattle.mof_codec.specs.Values.{IsHead, IsNaming, NamingFits, IsDeclaration};

use crate::values::marks::{Mark, mark_rest};
use crate::values::properties::properties;
use crate::values::words::{alias, keyword, word};
use mof_syntax::{MAX_INSTANCES, separators_rest};
use mof_values::{Ident, Instance, Items};
use std::alloc::{AllocError, Global};

/// The instances that the text spells within the limits, or none where it spells none.
pub(crate) fn instances_of(alloc: Global, text: &str) -> Result<Option<Vec<Instance>>, AllocError>
    ensures spelled { IfOk result (λ found. IfSome found (λ v. Spells (chars text.now) v.items)) }
    ensures none { IfOk result (λ found. IfNone found ((is : List Instance) → Spells (chars text.now) is → ⊥)) }
{
    let mut instances = Vec::new(alloc);
    let mut left = separators_rest(text);
    'declarations: while !left.is_empty() {
        if instances.len() == MAX_INSTANCES {
            return Ok(None);
        }
        let Some((instance, rest)) = declaration(alloc, left)? else {
            return Ok(None);
        };
        instances.push(instance)?;
        left = separators_rest(rest);
    }
    Ok(Some(instances))
}

// A declaration within the limits, and what is after its semicolon.
fn declaration(alloc: Global, text: &str) -> Result<Option<(Instance, &str)>, AllocError>
    ensures some { IfOk result (λ found. IfSome found (λ x. BeginsWith IsDeclaration InstanceFits (chars text.now) x.0 (chars x.1.now))) }
    ensures none { IfOk result (λ found. IfNone found (Lacks IsDeclaration InstanceFits (chars text.now))) }
{
    let Some((class, named)) = head(alloc, text)? else {
        return Ok(None);
    };
    let Some((alias, body)) = naming(alloc, named)? else {
        return Ok(None);
    };
    let Some((properties, end)) = properties(alloc, body)? else {
        return Ok(None);
    };
    let Some(rest) = mark_rest(end, Mark::Semicolon) else {
        return Ok(None);
    };
    let instance = Instance {
        class,
        alias,
        properties: Items::of(properties),
    };
    Ok(Some((instance, rest)))
}

// `instance of` and a class, and what is after.
fn head(alloc: Global, text: &str) -> Result<Option<(Ident, &str)>, AllocError>
    ensures some { IfOk result (λ found. IfSome found (λ x. BeginsWith IsHead IsShortName (chars text.now) x.0 (chars x.1.now))) }
    ensures none { IfOk result (λ found. IfNone found (Lacks IsHead IsShortName (chars text.now))) }
{
    let Some(first) = keyword(text, "instance") else {
        return Ok(None);
    };
    let Some(second) = keyword(first, "of") else {
        return Ok(None);
    };
    let Some((class, rest)) = word(alloc, second)? else {
        return Ok(None);
    };
    Ok(Some((class, rest)))
}

// An alias, or none, and what is after the opening brace.
fn naming(alloc: Global, text: &str) -> Result<Option<(Option<Ident>, &str)>, AllocError>
    ensures some { IfOk result (λ found. IfSome found (λ x. BeginsWith IsNaming NamingFits (chars text.now) x.0 (chars x.1.now))) }
    ensures none { IfOk result (λ found. IfNone found (Lacks IsNaming NamingFits (chars text.now))) }
{
    if let Some(rest) = mark_rest(text, Mark::LeftBrace) {
        return Ok(Some((None, rest)));
    }
    let Some(named) = keyword(text, "as") else {
        return Ok(None);
    };
    let Some((name, left)) = alias(alloc, named)? else {
        return Ok(None);
    };
    let Some(rest) = mark_rest(left, Mark::LeftBrace) else {
        return Ok(None);
    };
    Ok(Some((Some(name), rest)))
}
