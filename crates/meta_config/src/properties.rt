//! The properties of an instance that have a value.
ghost use Rattle.std.specs.Prelude.{◌≡◌};
ghost use Rattle.std.specs.Option.{option_copied};
ghost use Rattle.mof_values.specs.Fold.{same_name};
ghost use Rattle.mof_values.specs.Values.{scalars_of, text_of};
ghost use Rattle.meta_config.specs.Making.{text_given};
ghost use Rattle.meta_config.specs.Properties.{first_name, from_given, given, is_given, is_given_as};

use mof_values::{Ident, Property, Scalar, Text, Value};

/// The properties from the first one of this name on that has a value.
pub fn from_given<'a>(properties: &'a [Property], name: &str) -> &'a [Property]
    ensures { result.now ≡ from_given name.now properties.now }
{
    let mut left = properties;
    while let [property, rest @ ..] = left {
        if is_given_as(property, name) {
            return left;
        }
        left = rest;
    }
    &[]
}

fn is_given_as(property: &Property, name: &str) -> bool
    ensures { result ≡ is_given_as name.now property.now }
{
    property.name.is_named(name) && is_given(&property.value)
}

fn is_given(value: &Value) -> bool
    ensures { result ≡ is_given value.now }
{
    !matches!(value, Value::One(Scalar::Null))
}

/// The first value of this name.
pub fn given<'a>(properties: &'a [Property], name: &str) -> Option<&'a Value>
    ensures { option_copied result ≡ given name.now properties.now }
{
    match from_given(properties, name) {
        [property, ..] => Some(&property.value),
        [] => None,
    }
}

/// The name of the first of the properties.
pub fn first_name<'a>(properties: &'a [Property]) -> Option<&'a Ident>
    ensures { option_copied result ≡ first_name properties.now }
{
    match properties {
        [property, ..] => Some(&property.name),
        [] => None,
    }
}

/// The single text of this name.
pub fn text_given<'a>(properties: &'a [Property], name: &str) -> Option<&'a Text>
    ensures { option_copied result ≡ text_given name.now properties.now }
{
    match given(properties, name) {
        Some(value) => value.as_text(),
        None => None,
    }
}
