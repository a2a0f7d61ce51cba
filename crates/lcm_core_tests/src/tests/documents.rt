//! Documents written as words: a resource is its id and the ids that it depends on, with semicolons between resources.
ghost use Rattle.std.specs.Prelude.{◌≤◌, length, IfOk};
ghost use Rattle.dsc_document.specs.Dependencies.{HasDistinctIds, NamesResources};
ghost use Rattle.dsc_document.specs.Sizes.{DocumentInSize};

use dsc_document::{Document, check};
use mof_values::{Ident, Instance, Items, Property, Scalar, Text, Value};
use std::test::Fail;

fn text(rt: &impl AllocGlobal, chars: &str) -> Result<Text, Fail> {
    Ok(Text::of(chars.chars().collect(rt.alloc())?))
}

fn ident(rt: &impl AllocGlobal, chars: &str) -> Result<Ident, Fail> {
    Ok(Ident::make(rt.alloc(), &text(rt, chars)?)?)
}

fn property(rt: &impl AllocGlobal, name: &str, value: Value) -> Result<Property, Fail> {
    Ok(Property {
        name: ident(rt, name)?,
        value,
    })
}

// the header has no words
fn instance(rt: &impl AllocGlobal, declaration: &str) -> Result<Instance, Fail> {
    let mut words = declaration.split_whitespace();
    let mut properties = Vec::new(rt.alloc());
    let class = match words.next() {
        None => "OMI_ConfigurationDocument",
        Some(id) => {
            let id = Value::One(Scalar::Text(text(rt, id)?));
            properties.push(property(rt, "ResourceID", id)?)?;
            let mut names = Vec::new(rt.alloc());
            for name in words {
                names.push(Scalar::Text(text(rt, name)?))?;
            }
            let names = Value::Many(Items::of(names));
            properties.push(property(rt, "DependsOn", names)?)?;
            "MSFT_LogResource"
        }
    };
    Ok(Instance {
        class: ident(rt, class)?,
        alias: None,
        properties: Items::of(properties),
    })
}

/// The document of these words, of at most five resources.
pub fn document(rt: &impl AllocGlobal, declarations: &str) -> Result<Document, Fail>
    ensures few { IfOk result (λ document. length document.resources ≤ 5) }
    ensures known { IfOk result NamesResources }
    ensures distinct { IfOk result HasDistinctIds }
    ensures size { IfOk result DocumentInSize }
{
    let mut made = Vec::new(rt.alloc());
    made.push(instance(rt, "")?)?;
    for declaration in declarations.split(';') {
        made.push(instance(rt, declaration)?)?;
    }
    if made.len() > 6 {
        return Err("too many resources".into());
    }
    Ok(check(rt.alloc(), made)?)
}

/// The last character of the id of the resource at that place.
pub fn letter(document: &Document, place: u32) -> char {
    match document.resources.as_slice().get(place as usize) {
        Some(resource) => *resource.id.as_slice().last().unwrap_or(&'?'),
        None => '?',
    }
}
