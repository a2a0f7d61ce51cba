//! Limits of what the types hold, and of names.

/// The most characters of an identifier.
pub const MAX_IDENTIFIER: usize = 255;

/// The most bytes of UTF-8 of a name: of a node, a configuration, a part or a module.
pub const MAX_NAME_BYTES: usize = 255;
