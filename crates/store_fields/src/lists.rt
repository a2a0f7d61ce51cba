//! Lists of values, with their count.
ghost use Rattle.std.specs.Prelude.{◌≡◌, ◌<◌, ℕ, List, length, OnOk};
ghost use Rattle.std.specs.List.{flat_map, AllByRecursion};
ghost use Rattle.store_fields.specs.Fields.{bytes_of_list, IsList};
ghost use Rattle.store_fields.specs.Reading.{Reads};
ghost use Rattle.store_fields.specs.Writing.{Writes};

use crate::error::FieldError;
use crate::limits::MAX_TEXT;
use crate::reading::Fields;
use crate::writing::{put_byte, put_text};
use mof_values::{Items, Memory, Text};
use std::alloc::Global;

/// How the values of a type stand in a body.
pub trait FieldForm<T: Drop> {
    /// The bytes of a value.
    ghost bytes_of: { T → List ℕ };

    /// The values that have such bytes.
    ghost is_in_range: { T → Type 0 };

    /// What a writer needs to know of a value: its lengths.
    ghost fits: { T → Type 0 };

    /// The value that stands at the front of what is still to be read.
    fn read(alloc: Global, fields: &mut Fields<'_>) -> Result<T, FieldError>
        ensures { Reads bytes_of is_in_range fields.old fields.new result };

    /// Appends the value.
    fn write(value: &T, into: &mut Vec<u8>) -> Result<(), Memory>
        requires { fits value.now }
        ensures writes { Writes (bytes_of value.now) into.old into.new result }
        ensures in_range { OnOk result (is_in_range value.now) };
}

/// A count byte, and that many values.
pub fn read_list<F: FieldForm<T>, T: Drop>(
    alloc: Global,
    fields: &mut Fields<'_>,
) -> Result<Items<T>, FieldError>
    ensures { Reads (bytes_of_list F.bytes_of) (IsList F.is_in_range) fields.old fields.new result }
{
    let count = fields.byte()?;
    let mut items = Vec::new(alloc);
    for _ in 0..count {
        items.push(F::read(alloc, fields)?)?;
    }
    Ok(Items::of(items))
}

/// Appends a count byte, and each of the values.
pub fn put_list<F: FieldForm<T>, T: Drop>(into: &mut Vec<u8>, items: &[T]) -> Result<(), Memory>
    requires few { length items.now < 256 }
    requires fits { AllByRecursion F.fits items.now }
    ensures writes { Writes (bytes_of_list F.bytes_of items.now) into.old into.new result }
    ensures in_range { OnOk result (IsList F.is_in_range items.now) }
{
    put_byte(into, items.len() as u8)?;
    put_each::<F, T>(into, items)
}

fn put_each<F: FieldForm<T>, T: Drop>(into: &mut Vec<u8>, items: &[T]) -> Result<(), Memory>
    requires fits { AllByRecursion F.fits items.now }
    ensures writes { Writes (flat_map F.bytes_of items.now) into.old into.new result }
    ensures in_range { OnOk result (AllByRecursion F.is_in_range items.now) }
{
    let mut left = items;
    while let [item, rest @ ..] = left {
        F::write(item, into)?;
        left = rest;
    }
    Ok(())
}

/// Texts of at most 65,535 bytes in UTF-8.
pub struct TextForm;

impl FieldForm<Text> for TextForm {
    ghost use Rattle.std.specs.Prelude.{◌≤◌, length, encode_utf8_all};
    ghost use Rattle.store_fields.specs.declared.limits.TheConstants.{MAX_TEXT};
    ghost use Rattle.store_fields.specs.Fields.{bytes_of_text, IsText};

    ghost bytes_of = { bytes_of_text };

    ghost is_in_range = { IsText MAX_TEXT };

    ghost fits = { λ text. length (encode_utf8_all text) ≤ MAX_TEXT };

    fn read(alloc: Global, fields: &mut Fields<'_>) -> Result<Text, FieldError> {
        fields.text(alloc, MAX_TEXT)
    }

    fn write(text: &Text, into: &mut Vec<u8>) -> Result<(), Memory> {
        put_text(into, text)
    }
}
