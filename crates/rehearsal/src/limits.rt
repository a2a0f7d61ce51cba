//! The limits of a script.

/// The most bytes of a script.
pub const MAX_SCRIPT: usize = 4_194_304;
