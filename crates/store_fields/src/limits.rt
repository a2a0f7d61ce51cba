//! The limit of a text in a field.

/// The most bytes in UTF-8 of a text, whose length has two bytes.
pub const MAX_TEXT: u16 = 65_535;
