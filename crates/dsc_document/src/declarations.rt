//! What a declaration says: the header, a resource, or another instance.
ghost use Rattle.std.specs.Prelude.{◌≡◌, [], option_copied, unwrap_or, IfOk, take, codes};
ghost use Rattle.mof_values.specs.Values.{text_named};
ghost use Rattle.dsc_document.specs.Declarations.{is_header, version_of, id_value, id_of, depends_value};

use crate::MAX_VERSION;
use mof_values::{Instance, Text, Value, front};
use std::alloc::{AllocError, Global};

/// Returns whether the instance is a header.
pub fn is_header(instance: &Instance) -> bool
    ensures { result ≡ is_header instance.now }
{
    instance.class.is_named("OMI_ConfigurationDocument")
}

/// The first [`MAX_VERSION`] characters of the Version of a header, where that is a single text.
pub fn version_of(alloc: Global, header: &Instance) -> Result<Text, AllocError>
    ensures { IfOk result (λ version. version ≡ version_of header.now) }
{
    let chars = front(version_chars(header), MAX_VERSION).to_vec(alloc)?;
    Ok(Text::of(chars))
}

fn version_chars<'a>(header: &'a Instance) -> &'a [char]
    ensures { result.now ≡ unwrap_or (text_named (codes "Version") header.now) [] }
{
    match header.text_named("Version") {
        Some(text) => text.as_slice(),
        None => &[],
    }
}

/// The value of the ResourceID of a resource; no other instance has one.
pub fn id_value<'a>(instance: &'a Instance) -> Option<&'a Value>
    ensures { option_copied result ≡ id_value instance.now }
{
    if is_header(instance) {
        return None;
    }
    instance.value_named("ResourceID")
}

/// The id of a resource, where it is a single text.
pub fn id_of<'a>(instance: &'a Instance) -> Option<&'a Text>
    ensures { option_copied result ≡ id_of instance.now }
{
    match id_value(instance) {
        Some(value) => value.as_text(),
        None => None,
    }
}

/// The value of the DependsOn of a resource.
pub fn depends_value<'a>(instance: &'a Instance) -> Option<&'a Value>
    ensures { option_copied result ≡ depends_value instance.now }
{
    if id_value(instance).is_some() {
        return instance.value_named("DependsOn");
    }
    None
}
