//! What resources depend on.
ghost use Rattle.std.specs.Prelude.{◌≡◌, ◌<◌, ◌^◌, ◌↔◌, ◌++◌, length, IsTrue, IfOk, OnOk, MatchOption, option_to_list};
ghost use Rattle.std.specs.List.{list_all};
ghost use Rattle.mof_values.specs.Values.{text_of_scalar};
ghost use Rattle.dsc_document.specs.Declarations.{depends_of, is_list_of_texts, is_text, texts_of};
ghost use Rattle.dsc_document.specs.Places.{HoldsNames};
ghost use Rattle.dsc_document.specs.Rules.{HasBadDependsOn, id_at, texts_to_depend_on, known_dependencies};
ghost use Rattle.dsc_document.specs.Tests.{Tests, ArePlaced, IsFirstUnplaced};

use crate::DocError;
use crate::declarations::depends_value;
use crate::places::Places;
use mof_values::{Instance, Scalar, Text, Value};
use std::alloc::{AllocError, Global};

/// Finds the first resource whose DependsOn is neither null, nor a text, nor an array of texts.
pub fn check_depends_on(instances: &[Instance]) -> Result<(), DocError>
    requires { length instances.now < 2 ^ 32 }
    ensures { Tests texts_to_depend_on instances.now result }
{
    for (index, instance) in instances.iter().enumerate() {
        if has_bad_depends_on(instance) {
            return Err(DocError::BadDependsOn {
                index: index as u32,
            });
        }
    }
    Ok(())
}

fn has_bad_depends_on(instance: &Instance) -> bool
    ensures { IsTrue result ↔ HasBadDependsOn instance.now }
{
    match depends_value(instance) {
        Some(value) => !is_list_of_texts(value),
        None => false,
    }
}

fn is_list_of_texts(value: &Value) -> bool
    ensures { result ≡ is_list_of_texts value.now }
{
    match value {
        Value::One(Scalar::Null) => true,
        Value::One(scalar) => is_text(scalar),
        Value::Many(scalars) => are_texts(scalars.as_slice()),
    }
}

fn are_texts(scalars: &[Scalar]) -> bool
    ensures { result ≡ list_all is_text scalars.now }
{
    scalars.iter().all(|s| is_text(s))
}

fn is_text(scalar: &Scalar) -> bool
    ensures { result ≡ is_text scalar.now }
{
    matches!(scalar, Scalar::Text(_))
}

/// Finds the first resource that depends on what is no resource's id.
pub fn check_known(instances: &[Instance], ids: &Places) -> Result<(), DocError>
    requires few { length instances.now < 2 ^ 32 }
    requires places { HoldsNames (id_at instances.now) ids.now }
    ensures { Tests known_dependencies instances.now result }
{
    for (index, instance) in instances.iter().enumerate() {
        if let Some(name) = first_unknown(depends_scalars(instance), ids)? {
            return Err(DocError::DependsUnknown {
                index: index as u32,
                name: name.copy()?,
            });
        }
    }
    Ok(())
}

// The first text of the scalars that has no place.
fn first_unknown<'a>(scalars: &'a [Scalar], ids: &Places) -> Result<Option<&'a Text>, AllocError>
    ensures { IfOk result (λ unknown. MatchOption unknown
        (ArePlaced ids.now (texts_of scalars.now))
        (λ name. IsFirstUnplaced ids.now (texts_of scalars.now) name.now)) }
{
    let mut left = scalars;
    while let [scalar, rest @ ..] = left {
        if let Scalar::Text(name) = scalar {
            if ids.find(name.as_slice())?.is_none() {
                return Ok(Some(name));
            }
        }
        left = rest;
    }
    Ok(None)
}

/// The ids that a resource depends on.
pub fn depends_of(alloc: Global, instance: &Instance) -> Result<Vec<Text>, AllocError>
    ensures { IfOk result (λ names. names.items ≡ depends_of instance.now) }
{
    let mut names = Vec::new(alloc);
    for scalar in depends_scalars(instance) {
        push_text(&mut names, scalar)?;
    }
    Ok(names)
}

fn push_text(names: &mut Vec<Text>, scalar: &Scalar) -> Result<(), AllocError>
    ensures { OnOk result
        (names.new.items ≡ names.old.items ++ option_to_list (text_of_scalar scalar.now)) }
{
    if let Scalar::Text(name) = scalar {
        names.push(name.copy()?)?;
    }
    Ok(())
}

// The scalars of the DependsOn, where there is one.
fn depends_scalars<'a>(instance: &'a Instance) -> &'a [Scalar]
    ensures { texts_of result.now ≡ depends_of instance.now }
{
    match depends_value(instance) {
        Some(value) => value.scalars(),
        None => &[],
    }
}
