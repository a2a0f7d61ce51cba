//! Fetching of the content of a configuration, and of the package of a module.
ghost use Rattle.std.specs.Prelude.{◌≡◌, IfOk, Some, option_map, encode_utf8_all};
ghost use Rattle.dsc_outside.specs.Causes.{HasCauseOf};
ghost use Rattle.pull_outside.specs.Shelf.{Contents, package_of};
ghost use Rattle.pull_server.specs.Contents.{content_for, has_name};

use mof_values::Text;
use pull_outside::{Shelf, ShelfError};
use std::alloc::Global;

/// The content of a name that an agent with these names may have.
pub fn content<S: Shelf>(
    alloc: Global,
    shelf: &mut S,
    names: &[Text],
    name: &Text,
) -> Result<Option<Vec<u8>>, ShelfError>
    ensures content { IfOk result (λ found. (contents : Contents)
        → S.holds shelf.old ≡ Some contents
        → option_map (λ v. v.items) found ≡ content_for contents names.now name.now) }
    ensures same { S.holds shelf.new ≡ S.holds shelf.old }
    ensures cause { HasCauseOf ShelfError.Failed (S.faults shelf.old) (S.faults shelf.new) result }
{
    if !has_name(names, name) {
        return Ok(None);
    }
    let name = name.to_utf8()?;
    let mut content = Vec::new(alloc);
    if shelf.configuration(name.as_str(), &mut content)? {
        Ok(Some(content))
    } else {
        Ok(None)
    }
}

fn has_name(names: &[Text], name: &Text) -> bool
    ensures { result ≡ has_name name.now names.now }
{
    names.iter().any(|other| other == name)
}

/// The package of the module of that name and version.
pub fn package<S: Shelf>(
    alloc: Global,
    shelf: &mut S,
    name: &Text,
    version: &Text,
) -> Result<Option<Vec<u8>>, ShelfError>
    ensures package { IfOk result (λ found. (contents : Contents)
        → S.holds shelf.old ≡ Some contents
        → option_map (λ v. v.items) found
        ≡ package_of (encode_utf8_all name.now) (encode_utf8_all version.now) contents) }
    ensures same { S.holds shelf.new ≡ S.holds shelf.old }
    ensures cause { HasCauseOf ShelfError.Failed (S.faults shelf.old) (S.faults shelf.new) result }
{
    let name = name.to_utf8()?;
    let version = version.to_utf8()?;
    let mut package = Vec::new(alloc);
    if shelf.package(name.as_str(), version.as_str(), &mut package)? {
        Ok(Some(package))
    } else {
        Ok(None)
    }
}
