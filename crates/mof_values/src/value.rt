//! Scalars and values.
ghost use Rattle.std.specs.Prelude.{◌≡◌, option_copied};
ghost use Rattle.mof_values.specs.Values.{scalars_of, text_of, text_of_scalar};

use crate::{Ident, Items, Text};
use std::slice;

/// A single value of the instance syntax.
#[derive(Debug, Drop, PartialEq)]
pub enum Scalar {
    Text(Text),

    /// From -2^63 to 2^64-1 where a text spells it.
    Integer(i128),

    Bool(bool),
    Null,

    /// The name after the `$`.
    Alias(Ident),
}

/// What a property holds: a scalar, or an array of scalars.
#[derive(Debug, Drop, PartialEq)]
pub enum Value {
    One(Scalar),
    Many(Items<Scalar>),
}

impl Scalar {
    /// The text that the scalar is.
    pub fn as_text(&self) -> Option<&Text>
        ensures { option_copied result ≡ text_of_scalar self.now }
    {
        match self {
            Scalar::Text(text) => Some(text),
            _ => None,
        }
    }
}

impl Value {
    /// The single text that the value is.
    pub fn as_text(&self) -> Option<&Text>
        ensures { option_copied result ≡ text_of self.now }
    {
        match self {
            Value::One(scalar) => scalar.as_text(),
            Value::Many(_) => None,
        }
    }

    /// The scalars of the value: the one that it is, or those of its array.
    pub fn scalars(&self) -> &[Scalar]
        ensures { result.now ≡ scalars_of self.now }
    {
        match self {
            Value::One(scalar) => slice::from_ref(scalar),
            Value::Many(scalars) => scalars.as_slice(),
        }
    }
}
