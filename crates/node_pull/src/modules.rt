//! The modules that resources name.
ghost use Rattle.std.specs.Prelude.{◌≡◌, IfOk, option_map, option_copied};
ghost use Rattle.std.specs.List.{list_any};
ghost use Rattle.meta_config.specs.Words.{is_name};
ghost use Rattle.node_pull.specs.Packages.{is_own, module_by, module_of, modules_of, same_module};

use dsc_document::{Document, Resource};
use mof_values::{MAX_NAME_BYTES, Text, is_named};
use std::alloc::{AllocError, Global};

/// A module of a certain version, whose package a machine is to have.
#[derive(Debug, Drop)]
pub struct Module {
    pub name: Text,
    pub version: Text,
}

/// The modules that the document's resources name, in their order and each once.
pub(crate) fn modules_of(alloc: Global, document: &Document) -> Result<Vec<Module>, AllocError>
    ensures { IfOk result (λ modules. modules.items ≡ modules_of document.now) }
{
    let mut modules = Vec::new(alloc);
    let mut left = document.resources.as_slice();
    while let [resource, rest @ ..] = left {
        if let Some(wanted) = module_of(resource)? {
            if !is_there(&modules, &wanted) {
                modules.push(wanted)?;
            }
        }
        left = rest;
    }
    Ok(modules)
}

fn is_there(modules: &[Module], wanted: &Module) -> bool
    ensures { result ≡ list_any (same_module wanted.now) modules.now }
{
    modules.iter().any(|other| same_module(wanted, other))
}

fn same_module(a: &Module, b: &Module) -> bool
    ensures { result ≡ same_module a.now b.now }
{
    a.name == b.name && a.version == b.version
}

// The module that a resource names, by its ModuleName and ModuleVersion, where both are texts.
fn module_of(resource: &Resource) -> Result<Option<Module>, AllocError>
    ensures { IfOk result (λ found. found ≡ module_of resource.now) }
{
    module_by(
        resource.instance.text_named("ModuleName"),
        resource.instance.text_named("ModuleVersion"),
    )
}

// The module of a name and a version of 1 to 255 bytes of UTF-8, unless every machine has it.
fn module_by(name: Option<&Text>, version: Option<&Text>) -> Result<Option<Module>, AllocError>
    ensures { IfOk result (λ found. found
        ≡ module_by (option_copied name.entry) (option_copied version.entry)) }
{
    let (Some(name), Some(version)) = (name, version) else {
        return Ok(None);
    };
    if is_name(name) && is_name(version) && !is_own(name) {
        Ok(Some(copied(name, version)?))
    } else {
        Ok(None)
    }
}

fn copied(name: &Text, version: &Text) -> Result<Module, AllocError>
    ensures { IfOk result (λ found. found ≡ record { name = name.now; version = version.now }) }
{
    Ok(Module {
        name: name.copy()?,
        version: version.copy()?,
    })
}

fn is_name(text: &Text) -> bool
    ensures { result ≡ is_name text.now }
{
    !text.as_slice().is_empty() && text.fits_utf8(MAX_NAME_BYTES)
}

fn is_own(name: &Text) -> bool
    ensures { result ≡ is_own name.now }
{
    is_named(name.as_slice(), "PSDesiredStateConfiguration")
}
