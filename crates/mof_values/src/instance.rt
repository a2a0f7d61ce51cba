//! An instance declaration with its properties, and the look for one by its name.
ghost use Rattle.std.specs.Prelude.{◌≡◌, option_copied};
ghost use Rattle.mof_values.specs.Values.{text_named, value_named};

use crate::{Ident, Items, Text, Value};

/// A property of an instance.
#[derive(Debug, Drop, PartialEq)]
pub struct Property {
    pub name: Ident,
    pub value: Value,
}

/// An instance declaration (DSP0004, "Instance declaration").
#[derive(Debug, Drop, PartialEq)]
pub struct Instance {
    pub class: Ident,
    pub alias: Option<Ident>,
    pub properties: Items<Property>,
}

impl Instance {
    /// The value of the first property of that name, by fold.
    pub fn value_named(&self, name: &str) -> Option<&Value>
        ensures { option_copied result ≡ value_named name.now self.now }
    {
        let mut left = self.properties.as_slice();
        while let [property, rest @ ..] = left {
            if property.name.is_named(name) {
                return Some(&property.value);
            }
            left = rest;
        }
        None
    }

    /// The text of the first property of that name, where it is a single text.
    pub fn text_named(&self, name: &str) -> Option<&Text>
        ensures { option_copied result ≡ text_named name.now self.now }
    {
        match self.value_named(name) {
            Some(value) => value.as_text(),
            None => None,
        }
    }
}
