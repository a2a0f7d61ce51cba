//! The instances of a generated document.
ghost use Rattle.std.specs.Prelude.{◌≡◌, ◌≤◌, List, ℕ, codes, IfOk, All};
ghost use Rattle.std.specs.Fmt.{decimal};
ghost use Rattle.mof_values.specs.Ident.{IsIdent};
ghost use Rattle.generated_document.specs.Generated.{generated_header, generated_instances, generated_properties, generated_resource, id_of_number, text_property};

use mof_values::{Ident, Instance, Items, Property, Scalar, Text, Value};
use std::alloc::{AllocError, Global};

/// The resources of the numbers below the count, the greatest first, and then the header.
pub fn instances(alloc: Global, count: u32) -> Result<Vec<Instance>, AllocError>
    ensures { IfOk result (λ instances. instances.items ≡ generated_instances count) }
{
    let mut instances = Vec::new(alloc);
    for number in (0..count).rev() {
        instances.push(resource(alloc, number)?)?;
    }
    instances.push(header(alloc)?)?;
    Ok(instances)
}

fn resource(alloc: Global, number: u32) -> Result<Instance, AllocError>
    ensures { IfOk result (λ resource. resource ≡ generated_resource number) }
{
    let properties = properties(alloc, number)?;
    instance(alloc, "MSFT_EnvironmentResource", properties)
}

fn header(alloc: Global) -> Result<Instance, AllocError>
    ensures { IfOk result (λ header. header ≡ generated_header) }
{
    let version = property(alloc, "Version", "2.0.0")?;
    instance(alloc, "OMI_ConfigurationDocument", vec![in alloc; version]?)
}

fn properties(alloc: Global, number: u32) -> Result<Vec<Property>, AllocError>
    ensures { IfOk result (λ properties. properties.items ≡ generated_properties number) }
{
    let value = format!(in alloc; "{number}")?;
    let name = format!(in alloc; "V{number}")?;
    let mut properties = Vec::new(alloc);
    properties.push(id_property(alloc, "ResourceID", number)?)?;
    properties.push(property(alloc, "Name", &name)?)?;
    properties.push(property(alloc, "Value", &value)?)?;
    if number == 0 {
        return Ok(properties);
    }
    properties.push(id_property(alloc, "DependsOn", (number - 1) / 2)?)?;
    Ok(properties)
}

// The property that is the ResourceID of the resource of that number.
fn id_property(alloc: Global, name: &str, number: u32) -> Result<Property, AllocError>
    requires name { IsIdent name.now }
    ensures { IfOk result (λ property. property ≡ text_property name.now (id_of_number number)) }
{
    let id = format!(in alloc; "[Environment]R{number}")?;
    property(alloc, name, &id)
}

// The property that is a single text.
fn property(alloc: Global, name: &str, text: &str) -> Result<Property, AllocError>
    requires name { IsIdent name.now }
    ensures { IfOk result (λ property. property ≡ text_property name.now text.now) }
{
    Ok(Property {
        name: Ident::of_ascii(alloc, name)?,
        value: Value::One(Scalar::Text(Text::from_latin1(alloc, text.as_bytes())?)),
    })
}

fn instance(alloc: Global, class: &str, properties: Vec<Property>) -> Result<Instance, AllocError>
    requires class { IsIdent class.now }
    ensures class { IfOk result (λ instance. instance.class ≡ class.now) }
    ensures rest { IfOk result (λ instance. (instance.alias ≡ None) × (instance.properties ≡ properties.items)) }
{
    Ok(Instance {
        class: Ident::of_ascii(alloc, class)?,
        alias: None,
        properties: Items::of(properties),
    })
}
