//! The names of a registration, in a body.
use mof_values::{MAX_NAME_BYTES, Memory, Text};
use std::alloc::Global;
use store_fields::{FieldError, FieldForm, Fields, put_text};

/// Texts of 1 to 255 bytes in UTF-8.
pub struct NameForm;

impl FieldForm<Text> for NameForm {
    ghost use Rattle.store_fields.specs.Fields.{bytes_of_text};
    ghost use Rattle.pull_messages.specs.Sizes.{IsName};
    ghost use Rattle.pull_store.specs.Sound.{IsNameText};

    ghost bytes_of = { bytes_of_text };

    ghost is_in_range = { IsNameText };

    ghost fits = { IsName };

    fn read(alloc: Global, fields: &mut Fields<'_>) -> Result<Text, FieldError> {
        let name = fields.text(alloc, MAX_NAME_BYTES as u16)?;
        if name.fits_utf8(0) {
            return Err(FieldError::Wrong);
        }
        Ok(name)
    }

    fn write(name: &Text, into: &mut Vec<u8>) -> Result<(), Memory> {
        put_text(into, name)
    }
}
