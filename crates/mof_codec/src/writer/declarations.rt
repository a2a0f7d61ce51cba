//! Declarations of instances and their properties.
ghost use Rattle.std.specs.Prelude.{◌≡◌, ◌++◌, OnOk, string_bytes, IfSome};
ghost use Rattle.std.specs.List.{flat_map, AllByRecursion};
ghost use Rattle.mof_syntax.specs.Canonical.{canonical_property, canonical_alias, canonical_instance, canonical_text};
ghost use Rattle.mof_codec.specs.Written.{Adds, IsName, PropertyIsValid, InstanceIsValid};

use crate::writer::literals::push_name;
use crate::writer::scalars::push_value;
use mof_values::{Ident, Instance, Property};
use std::alloc::AllocError;

/// Appends instances, each on lines of its own.
pub(crate) fn push_instances(out: &mut String, instances: &[Instance]) -> Result<(), AllocError>
    ensures text { OnOk result (Adds (string_bytes out.old) (string_bytes out.new) (canonical_text instances.now)) }
    ensures valid { OnOk result (AllByRecursion InstanceIsValid instances.now) }
{
    let mut left = instances;
    while let [instance, rest @ ..] = left {
        push_instance(out, instance)?;
        left = rest;
    }
    Ok(())
}

fn push_instance(out: &mut String, instance: &Instance) -> Result<(), AllocError>
    ensures text { OnOk result (Adds (string_bytes out.old) (string_bytes out.new) (canonical_instance instance.now)) }
    ensures valid { OnOk result (InstanceIsValid instance.now) }
{
    out.push_str("instance of ")?;
    push_name(out, &instance.class)?;
    push_alias(out, &instance.alias)?;
    out.push_str("\n{\n")?;
    push_properties(out, instance.properties.as_slice())?;
    out.push_str("};\n")?;
    Ok(())
}

fn push_alias(out: &mut String, alias: &Option<Ident>) -> Result<(), AllocError>
    ensures text { OnOk result (Adds (string_bytes out.old) (string_bytes out.new) (canonical_alias alias.now)) }
    ensures valid { OnOk result (IfSome alias.now IsName) }
{
    match alias {
        None => Ok(()),
        Some(name) => {
            out.push_str(" as $")?;
            push_name(out, name)
        }
    }
}

fn push_properties(out: &mut String, properties: &[Property]) -> Result<(), AllocError>
    ensures text { OnOk result (Adds (string_bytes out.old) (string_bytes out.new) (flat_map canonical_property properties.now)) }
    ensures valid { OnOk result (AllByRecursion PropertyIsValid properties.now) }
{
    let mut left = properties;
    while let [property, rest @ ..] = left {
        push_property(out, property)?;
        left = rest;
    }
    Ok(())
}

fn push_property(out: &mut String, property: &Property) -> Result<(), AllocError>
    ensures text { OnOk result (Adds (string_bytes out.old) (string_bytes out.new) (canonical_property property.now)) }
    ensures valid { OnOk result (PropertyIsValid property.now) }
{
    out.push(' ')?;
    push_name(out, &property.name)?;
    out.push_str(" = ")?;
    push_value(out, &property.value)?;
    out.push_str(";\n")?;
    Ok(())
}
