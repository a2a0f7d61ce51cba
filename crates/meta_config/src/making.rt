//! The meta-configuration that instances declare.
ghost use Rattle.std.specs.Prelude.{◌≡◌, ◌++◌, [], IfOk, OnOk, filter, find, map, option_map, filter_map, option_to_list};
ghost use Rattle.std.specs.List.{list_any};
ghost use Rattle.std.specs.Option.{option_copied};
ghost use Rattle.mof_values.specs.Fold.{same_name};
ghost use Rattle.mof_values.specs.Values.{text_of_scalar};
ghost use Rattle.meta_config.specs.Making.{after_given, boolean_given, first_filled, first_site, has, key_given, key_of, meta_of, meta_with, minutes_given, mode_given, names_of, properties_of, refresh_given, server_at, site_given, with_name, with_names};
ghost use Rattle.meta_config.specs.Properties.{given, texts_of};
ghost use Rattle.meta_config.specs.Tables.{is_manager, is_of};

use crate::partials::partials_of;
use crate::properties::{given, text_given};
use crate::tables::{Class, is_manager, is_of};
use crate::urls::site_named;
use crate::words::{after_of, boolean_of, minutes_of, mode_of, refresh_of};
use crate::{AfterReboot, ConfigMode, Meta, RefreshMode, Server, Site};
use mof_values::{Instance, Items, Property, Scalar, Text, same_text};
use std::alloc::{AllocError, Global};

pub fn meta_of(alloc: Global, instances: &[Instance]) -> Result<Meta, AllocError>
    ensures { IfOk result (λ meta. meta ≡ meta_of instances.now) }
{
    meta_with(alloc, properties_of(Class::Settings, instances), instances)
}

fn meta_with(
    alloc: Global,
    settings: &[Property],
    instances: &[Instance],
) -> Result<Meta, AllocError>
    ensures { IfOk result (λ meta. meta ≡ meta_with settings.now instances.now) }
{
    let server = server_of(alloc, instances)?;
    let names = names_of(alloc, instances)?;
    let partials = partials_of(alloc, instances)?;
    Ok(Meta {
        mode: mode_given(settings),
        refresh: refresh_given(settings),
        reboot_if_needed: boolean_given(settings, "RebootNodeIfNeeded"),
        after: after_given(settings),
        mode_mins: minutes_given(settings, "ConfigurationModeFrequencyMins", 15),
        refresh_mins: minutes_given(settings, "RefreshFrequencyMins", 30),
        module_overwrite: boolean_given(settings, "AllowModuleOverwrite"),
        server,
        pulls: has(Class::Download, instances),
        reports: has(Class::Report, instances),
        names: Items::of(names),
        partials: Items::of(partials),
    })
}

// The properties of the first instance of the class.
fn properties_of<'a>(class: Class, instances: &'a [Instance]) -> &'a [Property]
    ensures { result.now ≡ properties_of class instances.now }
{
    match first_of(class, instances) {
        Some(instance) => instance.properties.as_slice(),
        None => &[],
    }
}

fn first_of<'a>(class: Class, instances: &'a [Instance]) -> Option<&'a Instance>
    ensures { option_copied result ≡ find (is_of class) instances.now }
{
    instances.iter().find(|i| is_of(class, *i))
}

/// Returns whether there is an instance of the class.
pub fn has(class: Class, instances: &[Instance]) -> bool
    ensures { result ≡ has class instances.now }
{
    instances.iter().any(|i| is_of(class, i))
}

fn mode_given(properties: &[Property]) -> ConfigMode
    ensures { result ≡ mode_given properties.now }
{
    match given(properties, "ConfigurationMode") {
        Some(value) => mode_of(value).unwrap_or(ConfigMode::ApplyAndMonitor),
        None => ConfigMode::ApplyAndMonitor,
    }
}

fn refresh_given(properties: &[Property]) -> RefreshMode
    ensures { result ≡ refresh_given properties.now }
{
    match given(properties, "RefreshMode") {
        Some(value) => refresh_of(value).unwrap_or(RefreshMode::Push),
        None => RefreshMode::Push,
    }
}

fn after_given(properties: &[Property]) -> AfterReboot
    ensures { result ≡ after_given properties.now }
{
    match given(properties, "ActionAfterReboot") {
        Some(value) => after_of(value).unwrap_or(AfterReboot::ContinueConfiguration),
        None => AfterReboot::ContinueConfiguration,
    }
}

fn boolean_given(properties: &[Property], name: &str) -> bool
    ensures { result ≡ boolean_given name.now properties.now }
{
    match given(properties, name) {
        Some(value) => boolean_of(value).unwrap_or(false),
        None => false,
    }
}

fn minutes_given(properties: &[Property], name: &str, default: u32) -> u32
    ensures { result ≡ minutes_given name.now default properties.now }
{
    match given(properties, name) {
        Some(value) => minutes_of(value).unwrap_or(default),
        None => default,
    }
}

// The server of the first manager.
fn server_of(alloc: Global, instances: &[Instance]) -> Result<Option<Server>, AllocError>
    ensures { IfOk result (λ server.
        server ≡ option_map (server_at (key_of instances.now)) (first_site instances.now)) }
{
    match first_site(alloc, instances)? {
        Some(site) => Ok(Some(server_at(alloc, instances, site)?)),
        None => Ok(None),
    }
}

fn server_at(alloc: Global, instances: &[Instance], site: Site) -> Result<Server, AllocError>
    ensures { IfOk result (λ server. server ≡ server_at (key_of instances.now) site) }
{
    let key = key_of(instances).to_vec(alloc)?;
    let Site {
        https,
        peer,
        prefix,
    } = site;
    Ok(Server {
        https,
        peer,
        prefix,
        key: Text::of(key),
    })
}

fn first_site(alloc: Global, instances: &[Instance]) -> Result<Option<Site>, AllocError>
    ensures { IfOk result (λ site. site ≡ first_site instances.now) }
{
    match first_manager(instances) {
        Some(manager) => site_given(alloc, manager.properties.as_slice()),
        None => Ok(None),
    }
}

fn first_manager<'a>(instances: &'a [Instance]) -> Option<&'a Instance>
    ensures { option_copied result ≡ find is_manager instances.now }
{
    instances.iter().find(|i| is_manager(*i))
}

/// The site that the ServerURL names.
pub fn site_given(alloc: Global, properties: &[Property]) -> Result<Option<Site>, AllocError>
    ensures { IfOk result (λ site. site ≡ site_given properties.now) }
{
    match text_given(properties, "ServerURL") {
        Some(url) => site_named(alloc, url),
        None => Ok(None),
    }
}

// The key of the download manager, or where that is absent or empty of the report manager.
fn key_of(instances: &[Instance]) -> &[char]
    ensures { result.now ≡ key_of instances.now }
{
    let download = key_given(properties_of(Class::Download, instances));
    let report = key_given(properties_of(Class::Report, instances));
    first_filled(download, report)
}

fn key_given(properties: &[Property]) -> &[char]
    ensures { result.now ≡ key_given properties.now }
{
    match text_given(properties, "RegistrationKey") {
        Some(key) => key.as_slice(),
        None => &[],
    }
}

fn first_filled<'a>(first: &'a [char], second: &'a [char]) -> &'a [char]
    ensures { result.now ≡ first_filled first.now second.now }
{
    match first {
        [] => second,
        [_, ..] => first,
    }
}

/// The ConfigurationNames, each once by fold, in its first spelling.
pub fn names_of(alloc: Global, instances: &[Instance]) -> Result<Vec<Text>, AllocError>
    ensures { IfOk result (λ names. names.items ≡ names_of instances.now) }
{
    let texts = texts_given(
        alloc,
        properties_of(Class::Download, instances),
        "ConfigurationNames",
    )?;
    distinct(alloc, &texts)
}

// Each text once by fold, in its first spelling.
fn distinct(alloc: Global, texts: &[Text]) -> Result<Vec<Text>, AllocError>
    ensures { IfOk result (λ names. names.items ≡ with_names [] texts.now) }
{
    let mut names = Vec::new(alloc);
    let mut left = texts;
    while let [text, rest @ ..] = left {
        put_name(&mut names, text)?;
        left = rest;
    }
    Ok(names)
}

// Puts a name after those before, but where one of them is the same by fold.
fn put_name(names: &mut Vec<Text>, name: &Text) -> Result<(), AllocError>
    ensures { OnOk result (names.new.items ≡ with_name names.old.items name.now) }
{
    if !is_among(names, name) {
        names.push(name.copy()?)?;
    }
    Ok(())
}

fn is_among(names: &[Text], name: &Text) -> bool
    ensures { result ≡ list_any (same_name name.now) names.now }
{
    names.iter().any(|other| same_text(name, other))
}

/// The texts of a list property.
pub fn texts_given(
    alloc: Global,
    properties: &[Property],
    name: &str,
) -> Result<Vec<Text>, AllocError>
    ensures { IfOk result (λ texts. texts.items ≡ texts_of (given name.now properties.now)) }
{
    match given(properties, name) {
        Some(value) => texts_in(alloc, value.scalars()),
        None => Ok(Vec::new(alloc)),
    }
}

fn texts_in(alloc: Global, scalars: &[Scalar]) -> Result<Vec<Text>, AllocError>
    ensures { IfOk result (λ texts. texts.items ≡ filter_map text_of_scalar scalars.now) }
{
    let mut texts = Vec::new(alloc);
    let mut left = scalars;
    while let [scalar, rest @ ..] = left {
        push_text(&mut texts, scalar)?;
        left = rest;
    }
    Ok(texts)
}

fn push_text(texts: &mut Vec<Text>, scalar: &Scalar) -> Result<(), AllocError>
    ensures { OnOk result (texts.new.items ≡
        texts.old.items ++ option_to_list (text_of_scalar scalar.now)) }
{
    if let Scalar::Text(text) = scalar {
        texts.push(text.copy()?)?;
    }
    Ok(())
}
