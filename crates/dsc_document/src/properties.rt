//! Checks that no two properties of an instance have the same name.
ghost use Rattle.std.specs.Prelude.{◌≡◌, ◌<◌, ◌^◌, ◌↔◌, ℕ, length, IsTrue, MatchOption};
ghost use Rattle.dsc_document.specs.Names.{IsName, ShareName};
ghost use Rattle.dsc_document.specs.Rules.{RepeatsName, property_name_at, distinct_property_names};
ghost use Rattle.dsc_document.specs.Tests.{Tests};

use crate::DocError;
use mof_values::{Ident, Instance, Property, same_name};

pub fn check_properties(instances: &[Instance]) -> Result<(), DocError>
    requires { length instances.now < 2 ^ 32 }
    ensures { Tests distinct_property_names instances.now result }
{
    for (index, instance) in instances.iter().enumerate() {
        if let Some(name) = repeated_name(instance.properties.as_slice()) {
            return Err(DocError::DuplicateProperty {
                index: index as u32,
                name: name.clone()?,
            });
        }
    }
    Ok(())
}

// The first name that stands before it too.
fn repeated_name<'a>(properties: &'a [Property]) -> Option<&'a Ident>
    ensures { MatchOption result
        ((first second : ℕ) → ShareName (property_name_at properties.now) first second → ⊥)
        (λ name. RepeatsName properties.now name.now) }
{
    for (place, property) in properties.iter().enumerate() {
        if is_name(properties.split_at(place).0, &property.name) {
            return Some(&property.name);
        }
    }
    None
}

fn is_name(properties: &[Property], name: &Ident) -> bool
    ensures { IsTrue result ↔ IsName (property_name_at properties.now) name.now }
{
    for property in properties {
        if same_name(&property.name, name) {
            return true;
        }
    }
    false
}
