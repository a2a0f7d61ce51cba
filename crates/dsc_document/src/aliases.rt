//! Aliases: each instance's is its own, and each one that a value names is there.
ghost use Rattle.std.specs.Prelude.{◌≡◌, ◌<◌, ◌^◌, ◌↔◌, Any, length, IsTrue, IfOk, option_copied};
ghost use Rattle.mof_values.specs.Values.{scalars_of};
ghost use Rattle.dsc_document.specs.Places.{HoldsNames};
ghost use Rattle.dsc_document.specs.Rules.{alias_at, distinct_aliases, known_aliases};
ghost use Rattle.dsc_document.specs.Tests.{Tests, HoldsUnplaced};

use crate::DocError;
use crate::places::Places;
use mof_values::{Instance, Scalar};
use std::alloc::{AllocError, Global};

/// The places of the aliases, where no two are the same.
pub fn alias_places(alloc: Global, instances: &[Instance]) -> Result<Places, DocError>
    requires { length instances.now < 2 ^ 32 }
    ensures tested { Tests distinct_aliases instances.now result }
    ensures places { IfOk result (HoldsNames (alias_at instances.now)) }
{
    let mut places = Places::new(alloc);
    for (second, instance) in instances.iter().enumerate() {
        if let Some(first) = places.put_any(alias_of(instance), second as u32)? {
            return Err(DocError::TwoAliases {
                first,
                second: second as u32,
            });
        }
    }
    Ok(places)
}

fn alias_of<'a>(instance: &'a Instance) -> Option<&'a [char]>
    ensures { option_copied result ≡ instance.now.alias }
{
    match &instance.alias {
        Some(alias) => Some(alias.as_slice()),
        None => None,
    }
}

/// Finds the first instance with a value that is an alias without a place.
pub fn check_aliases(instances: &[Instance], aliases: &Places) -> Result<(), DocError>
    requires few { length instances.now < 2 ^ 32 }
    requires places { HoldsNames (alias_at instances.now) aliases.now }
    ensures { Tests known_aliases instances.now result }
{
    for (index, instance) in instances.iter().enumerate() {
        if names_no_alias(instance, aliases)? {
            return Err(DocError::AliasUnknown {
                index: index as u32,
            });
        }
    }
    Ok(())
}

fn names_no_alias(instance: &Instance, aliases: &Places) -> Result<bool, AllocError>
    ensures { IfOk result (λ yes. IsTrue yes
        ↔ Any (λ p. HoldsUnplaced aliases.now (scalars_of p.value)) instance.now.properties) }
{
    for property in instance.properties.as_slice() {
        if is_unknown_alias(property.value.scalars(), aliases)? {
            return Ok(true);
        }
    }
    Ok(false)
}

fn is_unknown_alias(scalars: &[Scalar], aliases: &Places) -> Result<bool, AllocError>
    ensures { IfOk result (λ yes. IsTrue yes ↔ HoldsUnplaced aliases.now scalars.now) }
{
    for scalar in scalars {
        if let Scalar::Alias(alias) = scalar {
            if aliases.find(alias.as_slice())?.is_none() {
                return Ok(true);
            }
        }
    }
    Ok(false)
}
