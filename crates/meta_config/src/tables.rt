//! The classes of a meta-configuration, and the table of each.
ghost use Rattle.std.specs.Prelude.{◌≡◌, IfOk};
ghost use Rattle.std.specs.Option.{option_copied, option_or};
ghost use Rattle.meta_config.specs.Tables.{Row, class_name, download_rows, first_wrong, is_manager, is_of, partial_rows, report_rows, resource_rows, row, settings_rows, wrong_from, wrong_in, wrong_in_partial, wrong_in_row};

use crate::properties::{first_name, from_given, given};
use crate::words::fits;
use mof_values::{Ident, Instance, Property};
use std::alloc::{AllocError, Global};

/// The classes whose instances are read.
#[derive(Clone, Copy, Debug, PartialEq, Eq)]
pub enum Class {
    Settings,
    Download,
    Report,
    Resource,
    Partial,
}

/// What the value of a property may be.
#[derive(Clone, Copy, Debug, PartialEq, Eq)]
pub enum Domain {
    /// A word of `ConfigMode`.
    Mode,

    /// A word of `RefreshMode`.
    Refresh,

    /// A word of `AfterReboot`.
    AfterReboot,

    Boolean,
    Minutes,
    Text,
    Texts,

    /// Texts of 1 to `MAX_NAME_BYTES` bytes.
    Names,

    /// `[PartialConfiguration]` and a name.
    Reference,

    References,
    Any,
}

impl Class {
    pub fn name(self) -> &'static str
        ensures { result.now ≡ class_name self }
    {
        match self {
            Class::Settings => "MSFT_DSCMetaConfiguration",
            Class::Download => "MSFT_WebDownloadManager",
            Class::Report => "MSFT_WebReportManager",
            Class::Resource => "MSFT_WebResourceManager",
            Class::Partial => "MSFT_PartialConfiguration",
        }
    }
}

pub fn is_of(class: Class, instance: &Instance) -> bool
    ensures { result ≡ is_of class instance.now }
{
    instance.class.is_named(class.name())
}

pub fn is_manager(instance: &Instance) -> bool
    ensures { result ≡ is_manager instance.now }
{
    is_of(Class::Download, instance)
        || is_of(Class::Report, instance)
        || is_of(Class::Resource, instance)
}

/// The name of the first wrong property of an instance, in the order of its class's table.
pub fn wrong_in(alloc: Global, instance: &Instance) -> Result<Option<Ident>, AllocError>
    ensures { IfOk result (λ wrong. wrong ≡ wrong_in instance.now) }
{
    let properties = instance.properties.as_slice();
    if is_of(Class::Settings, instance) {
        copied(wrong_setting(properties))
    } else if is_of(Class::Download, instance) {
        copied(wrong_in_download(properties))
    } else if is_of(Class::Report, instance) {
        copied(wrong_in_report(properties))
    } else if is_of(Class::Resource, instance) {
        copied(wrong_in_resource(properties))
    } else if is_of(Class::Partial, instance) {
        wrong_in_partial(alloc, properties)
    } else {
        Ok(None)
    }
}

fn copied(name: Option<&Ident>) -> Result<Option<Ident>, AllocError>
    ensures { IfOk result (λ copy. copy ≡ option_copied name.entry) }
{
    match name {
        Some(name) => Ok(Some(name.clone()?)),
        None => Ok(None),
    }
}

fn wrong_setting<'a>(properties: &'a [Property]) -> Option<&'a Ident>
    ensures { option_copied result ≡ first_wrong settings_rows properties.now }
{
    let found = wrong_in_row(properties, "ConfigurationMode", Domain::Mode);
    let found = or_wrong(found, properties, "RefreshMode", Domain::Refresh);
    let found = or_wrong(found, properties, "RebootNodeIfNeeded", Domain::Boolean);
    let found = or_wrong(found, properties, "ActionAfterReboot", Domain::AfterReboot);
    let found = or_wrong(
        found,
        properties,
        "ConfigurationModeFrequencyMins",
        Domain::Minutes,
    );
    let found = or_wrong(found, properties, "RefreshFrequencyMins", Domain::Minutes);
    or_wrong(found, properties, "AllowModuleOverwrite", Domain::Boolean)
}

fn wrong_in_download<'a>(properties: &'a [Property]) -> Option<&'a Ident>
    ensures { option_copied result ≡ first_wrong download_rows properties.now }
{
    let found = wrong_in_row(properties, "ServerURL", Domain::Any);
    let found = or_wrong(found, properties, "RegistrationKey", Domain::Text);
    or_wrong(found, properties, "ConfigurationNames", Domain::Names)
}

fn wrong_in_report<'a>(properties: &'a [Property]) -> Option<&'a Ident>
    ensures { option_copied result ≡ first_wrong report_rows properties.now }
{
    let found = wrong_in_row(properties, "ServerURL", Domain::Any);
    or_wrong(found, properties, "RegistrationKey", Domain::Text)
}

fn wrong_in_resource<'a>(properties: &'a [Property]) -> Option<&'a Ident>
    ensures { option_copied result ≡ first_wrong resource_rows properties.now }
{
    wrong_in_row(properties, "ServerURL", Domain::Any)
}

fn wrong_in_partial(alloc: Global, properties: &[Property]) -> Result<Option<Ident>, AllocError>
    ensures { IfOk result (λ wrong. wrong ≡ wrong_in_partial properties.now) }
{
    if given(properties, "ResourceID").is_none() {
        return Ok(Some(Ident::of_ascii(alloc, "ResourceID")?));
    }
    copied(wrong_in_parts(properties))
}

fn wrong_in_parts<'a>(properties: &'a [Property]) -> Option<&'a Ident>
    ensures { option_copied result ≡ first_wrong partial_rows properties.now }
{
    let found = wrong_in_row(properties, "ResourceID", Domain::Reference);
    let found = or_wrong(found, properties, "DependsOn", Domain::References);
    let found = or_wrong(found, properties, "ExclusiveResources", Domain::Texts);
    or_wrong(found, properties, "RefreshMode", Domain::Refresh)
}

// The name that was found, or else the name of the property that is wrong of one row.
fn or_wrong<'a>(
    found: Option<&'a Ident>,
    properties: &'a [Property],
    name: &str,
    domain: Domain,
) -> Option<&'a Ident>
    ensures { option_copied result ≡ option_or (option_copied found.entry)
        (wrong_in_row (row name.now domain) properties.now) }
{
    match found {
        Some(name) => Some(name),
        None => wrong_in_row(properties, name, domain),
    }
}

// The name of the property that is wrong of one row.
#[tactic(auto, unfolding(crate::specs::Tables::wrong_in_row))]
fn wrong_in_row<'a>(properties: &'a [Property], name: &str, domain: Domain) -> Option<&'a Ident>
    ensures { option_copied result ≡ wrong_in_row (row name.now domain) properties.now }
{
    match from_given(properties, name) {
        [first, rest @ ..] if fits(domain, &first.value) => first_name(from_given(rest, name)),
        [first, ..] => Some(&first.name),
        [] => None,
    }
}
