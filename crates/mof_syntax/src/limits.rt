//! Limits of a document. They are those of this profile.

/// The most bytes of a document.
pub const MAX_DOCUMENT: usize = 8_388_608;

/// The most instances of a text.
pub const MAX_INSTANCES: usize = 4_097;

/// The most properties of an instance.
pub const MAX_PROPERTIES: usize = 256;

/// The most elements of an array.
pub const MAX_ELEMENTS: usize = 4_096;
