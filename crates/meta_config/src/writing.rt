//! Meta-configurations to their canonical text.
ghost use Rattle.std.specs.Prelude.{◌≡◌, ◌++◌, [], ◌∷◌, IfOk, OnOk, codes, map};
ghost use Rattle.std.specs.Option.{option_map_or};
ghost use Rattle.mof_values.specs.Ident.{IsIdent};
ghost use Rattle.meta_config.specs.Words.{refresh_name};
ghost use Rattle.meta_config.specs.Writing.{boolean_property, download_instance, instance, instances_of, integer_property, key_property, list_property, manager_instances, managers_of, partial_instance, property, reference_to, refresh_properties, report_instance, resource_instance, settings_instance, site_at_server, text_of_meta, text_property, text_scalar, url_property};

use crate::tables::Class;
use crate::urls::{push_ascii, url_of};
use crate::{Meta, Partial, RefreshMode, Server};
use mof_codec::write;
use mof_values::{Ident, Instance, Items, Memory, Property, Scalar, Text, Value};
use std::alloc::{AllocError, Global};

/// The canonical text of the meta-configuration.
pub fn write_meta(alloc: Global, meta: &Meta) -> Result<Vec<u8>, Memory>
    ensures { IfOk result (λ bytes. bytes.items ≡ text_of_meta meta.now) }
{
    let instances = instances_of(alloc, meta)?;
    write(alloc, &instances)
}

fn instances_of(alloc: Global, meta: &Meta) -> Result<Vec<Instance>, AllocError>
    ensures { IfOk result (λ instances. instances.items ≡ instances_of meta.now) }
{
    let mut instances = Vec::new(alloc);
    instances.push(settings_instance(alloc, meta)?)?;
    push_managers(alloc, &mut instances, meta)?;
    push_partials(alloc, &mut instances, meta.partials.as_slice())?;
    Ok(instances)
}

fn push_partials(
    alloc: Global,
    instances: &mut Vec<Instance>,
    partials: &[Partial],
) -> Result<(), AllocError>
    ensures { OnOk result (instances.new.items ≡
        instances.old.items ++ map partial_instance partials.now) }
{
    let mut left = partials;
    while let [partial, rest @ ..] = left {
        instances.push(partial_instance(alloc, partial)?)?;
        left = rest;
    }
    Ok(())
}

fn partial_instance(alloc: Global, partial: &Partial) -> Result<Instance, AllocError>
    ensures { IfOk result (λ i. i ≡ partial_instance partial.now) }
{
    let mut properties = Vec::new(alloc);
    properties.push(id_property(alloc, partial.name.as_slice())?)?;
    properties.push(depends_property(alloc, partial.depends.as_slice())?)?;
    properties.push(list_property(alloc, "ExclusiveResources", partial.exclusive.as_slice())?)?;
    push_refresh(alloc, &mut properties, partial.refresh)?;
    instance(alloc, Class::Partial, properties)
}

fn id_property(alloc: Global, name: &[char]) -> Result<Property, AllocError>
    ensures { IfOk result (λ p. p ≡ text_property (codes "ResourceID") (reference_to name.now)) }
{
    let reference = reference_to(alloc, name)?;
    property(alloc, "ResourceID", Value::One(Scalar::Text(reference)))
}

fn depends_property(alloc: Global, names: &[Text]) -> Result<Property, AllocError>
    ensures { IfOk result (λ p.
        p ≡ list_property (codes "DependsOn") (map reference_to names.now)) }
{
    let mut references = Vec::new(alloc);
    let mut left = names;
    while let [name, rest @ ..] = left {
        references.push(reference_to(alloc, name.as_slice())?)?;
        left = rest;
    }
    list_property(alloc, "DependsOn", &references)
}

fn reference_to(alloc: Global, name: &[char]) -> Result<Text, AllocError>
    ensures { IfOk result (λ reference. reference ≡ reference_to name.now) }
{
    let mut reference = Vec::new(alloc);
    push_ascii(&mut reference, "[PartialConfiguration]")?;
    reference.extend_from_slice(name)?;
    Ok(Text::of(reference))
}

fn push_refresh(
    alloc: Global,
    properties: &mut Vec<Property>,
    refresh: Option<RefreshMode>,
) -> Result<(), AllocError>
    ensures { OnOk result (properties.new.items ≡
        properties.old.items ++ refresh_properties refresh) }
{
    if let Some(mode) = refresh {
        properties.push(refresh_property(alloc, mode)?)?;
    }
    Ok(())
}

fn refresh_property(alloc: Global, mode: RefreshMode) -> Result<Property, AllocError>
    ensures { IfOk result (λ p. p ≡ text_property (codes "RefreshMode") (refresh_name mode)) }
{
    word_property(alloc, "RefreshMode", mode.name())
}

fn settings_instance(alloc: Global, meta: &Meta) -> Result<Instance, AllocError>
    ensures { IfOk result (λ i. i ≡ settings_instance meta.now) }
{
    let mut properties = Vec::new(alloc);
    properties.push(word_property(alloc, "ConfigurationMode", meta.mode.name())?)?;
    properties.push(word_property(alloc, "RefreshMode", meta.refresh.name())?)?;
    properties.push(boolean_property(alloc, "RebootNodeIfNeeded", meta.reboot_if_needed)?)?;
    properties.push(word_property(alloc, "ActionAfterReboot", meta.after.name())?)?;
    properties.push(integer_property(alloc, "ConfigurationModeFrequencyMins", meta.mode_mins)?)?;
    properties.push(integer_property(alloc, "RefreshFrequencyMins", meta.refresh_mins)?)?;
    properties.push(boolean_property(alloc, "AllowModuleOverwrite", meta.module_overwrite)?)?;
    instance(alloc, Class::Settings, properties)
}

// The managers of the server: the download manager and the report manager, or where there is neither a resource manager.
fn push_managers(
    alloc: Global,
    instances: &mut Vec<Instance>,
    meta: &Meta,
) -> Result<(), AllocError>
    ensures { OnOk result (instances.new.items ≡ instances.old.items ++ managers_of meta.now) }
{
    let Some(server) = &meta.server else {
        return Ok(());
    };
    match (meta.pulls, meta.reports) {
        (true, true) => {
            instances.push(download_instance(alloc, meta.names.as_slice(), server)?)?;
            instances.push(report_instance(alloc, server)?)?;
        }
        (true, false) => instances.push(download_instance(alloc, meta.names.as_slice(), server)?)?,
        (false, true) => instances.push(report_instance(alloc, server)?)?,
        (false, false) => instances.push(resource_instance(alloc, server)?)?,
    }
    Ok(())
}

fn download_instance(alloc: Global, names: &[Text], server: &Server) -> Result<Instance, AllocError>
    ensures { IfOk result (λ i. i ≡ download_instance names.now server.now) }
{
    let mut properties = Vec::new(alloc);
    properties.push(url_property(alloc, server)?)?;
    properties.push(key_property(alloc, server)?)?;
    properties.push(list_property(alloc, "ConfigurationNames", names)?)?;
    instance(alloc, Class::Download, properties)
}

fn report_instance(alloc: Global, server: &Server) -> Result<Instance, AllocError>
    ensures { IfOk result (λ i. i ≡ report_instance server.now) }
{
    let mut properties = Vec::new(alloc);
    properties.push(url_property(alloc, server)?)?;
    properties.push(key_property(alloc, server)?)?;
    instance(alloc, Class::Report, properties)
}

fn resource_instance(alloc: Global, server: &Server) -> Result<Instance, AllocError>
    ensures { IfOk result (λ i. i ≡ resource_instance server.now) }
{
    let mut properties = Vec::new(alloc);
    properties.push(url_property(alloc, server)?)?;
    instance(alloc, Class::Resource, properties)
}

fn url_property(alloc: Global, server: &Server) -> Result<Property, AllocError>
    ensures { IfOk result (λ p. p ≡ url_property server.now) }
{
    let url = url_of(alloc, server.https, &server.peer, &server.prefix)?;
    property(alloc, "ServerURL", Value::One(Scalar::Text(url)))
}

fn key_property(alloc: Global, server: &Server) -> Result<Property, AllocError>
    ensures { IfOk result (λ p. p ≡ key_property server.now) }
{
    let key = server.key.copy()?;
    property(alloc, "RegistrationKey", Value::One(Scalar::Text(key)))
}

fn word_property(alloc: Global, name: &str, word: &str) -> Result<Property, AllocError>
    requires name { IsIdent name.now }
    ensures { IfOk result (λ p. p ≡ text_property name.now word.now) }
{
    let text = Text::from_latin1(alloc, word.as_bytes())?;
    property(alloc, name, Value::One(Scalar::Text(text)))
}

fn boolean_property(alloc: Global, name: &str, b: bool) -> Result<Property, AllocError>
    requires name { IsIdent name.now }
    ensures { IfOk result (λ p. p ≡ boolean_property name.now b) }
{
    property(alloc, name, Value::One(Scalar::Bool(b)))
}

fn integer_property(alloc: Global, name: &str, n: u32) -> Result<Property, AllocError>
    requires name { IsIdent name.now }
    ensures { IfOk result (λ p. p ≡ integer_property name.now n) }
{
    property(alloc, name, Value::One(Scalar::Integer(i128::from(n))))
}

fn list_property(alloc: Global, name: &str, texts: &[Text]) -> Result<Property, AllocError>
    requires name { IsIdent name.now }
    ensures { IfOk result (λ p.
        p ≡ list_property name.now texts.now) }
{
    let scalars = scalars_of(alloc, texts)?;
    property(alloc, name, Value::Many(Items::of(scalars)))
}

fn scalars_of(alloc: Global, texts: &[Text]) -> Result<Vec<Scalar>, AllocError>
    ensures { IfOk result (λ scalars. scalars.items ≡ map text_scalar texts.now) }
{
    let mut scalars = Vec::new(alloc);
    let mut left = texts;
    while let [text, rest @ ..] = left {
        scalars.push(Scalar::Text(text.copy()?))?;
        left = rest;
    }
    Ok(scalars)
}

fn property(alloc: Global, name: &str, value: Value) -> Result<Property, AllocError>
    requires name { IsIdent name.now }
    ensures { IfOk result (λ p. p ≡ property name.now value) }
{
    Ok(Property {
        name: Ident::of_ascii(alloc, name)?,
        value,
    })
}

fn instance(alloc: Global, class: Class, properties: Vec<Property>) -> Result<Instance, AllocError>
    ensures { IfOk result (λ i. i ≡ instance class properties.items) }
{
    Ok(Instance {
        class: Ident::of_ascii(alloc, class.name())?,
        alias: None,
        properties: Items::of(properties),
    })
}
