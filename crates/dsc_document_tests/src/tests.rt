//! That ample memory gives a document at every size, and that a part may depend on other parts.
use dsc_document::*;
use mof_values::{Ident, Instance, Items, Property, Scalar, Text, Value};
use std::test::Fail;

fn text(rt: &impl AllocGlobal, chars: &str) -> Result<Text, Fail> {
    Ok(Text::of(chars.chars().collect(rt.alloc())?))
}

fn ident(rt: &impl AllocGlobal, chars: &str) -> Result<Ident, Fail> {
    Ok(Ident::make(rt.alloc(), &text(rt, chars)?)?)
}

// An instance of the class, whose properties are single texts.
fn instance(
    rt: &impl AllocGlobal,
    class: &str,
    properties: &[(&str, &str)],
) -> Result<Instance, Fail> {
    let mut made = Vec::new(rt.alloc());
    for (name, value) in properties {
        made.push(property(rt, name, value)?)?;
    }
    Ok(Instance {
        class: ident(rt, class)?,
        alias: None,
        properties: Items::of(made),
    })
}

fn property(rt: &impl AllocGlobal, name: &str, value: &str) -> Result<Property, Fail> {
    Ok(Property {
        name: ident(rt, name)?,
        value: Value::One(Scalar::Text(text(rt, value)?)),
    })
}

// A header, another instance, and that many resources, each of which depends on the one before it, and the first on `first`.
fn instances(rt: &impl AllocGlobal, count: u32, first: &str) -> Result<Vec<Instance>, Fail> {
    let mut made = Vec::new(rt.alloc());
    made.push(instance(rt, "OMI_ConfigurationDocument", &[])?)?;
    made.push(instance(rt, "Other", &[])?)?;
    let mut depends = format!(in rt.alloc(); "{first}")?;
    for number in 0..count {
        let id = format!(in rt.alloc(); "[Log]R{number}")?;
        made.push(instance(
            rt,
            "Log",
            &[("ResourceID", id.as_str()), ("DependsOn", depends.as_str())],
        )?)?;
        depends = id;
    }
    Ok(made)
}

fn answer(
    rt: &impl AllocGlobal,
    made: Vec<Instance>,
    as_part: bool,
) -> Result<Result<Document, DocError>, Fail> {
    if made.len() > 5000 {
        return Err(Fail::new("too many instances"));
    }
    if as_part {
        Ok(check_part(rt.alloc(), made))
    } else {
        Ok(check(rt.alloc(), made))
    }
}

fn has_resources(answer: &Result<Document, DocError>, count: u32) -> bool {
    match answer {
        Ok(document) => document.resources.as_slice().len() == count as usize,
        Err(_) => false,
    }
}

#[test]
fn every_size_is_a_document(rt: HostRuntime) -> Result<(), Fail> {
    for count in [0, 1, 2, 7, 63, 64, 65, 300] {
        let made = instances(&rt, count, "[log]r0")?;
        let found = answer(&rt, made, false)?;
        assert!(rt; has_resources(&found, count), "{count}");
    }
    Ok(())
}

#[test]
fn a_part_may_depend_on_other_parts(rt: HostRuntime) -> Result<(), Fail> {
    let found = answer(&rt, instances(&rt, 3, "[Log]Z")?, true)?;
    assert!(rt; has_resources(&found, 3));
    let found = answer(&rt, instances(&rt, 3, "[Log]Z")?, false)?;
    assert!(rt;
        matches!(&found, Err(DocError::DependsUnknown { index: 2, .. })),
        "{found:?}"
    );
    Ok(())
}
