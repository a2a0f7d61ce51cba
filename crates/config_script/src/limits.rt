//! The limit of a script.

/// The most bytes of a script.
pub const MAX_SCRIPT: usize = 8_388_608;
