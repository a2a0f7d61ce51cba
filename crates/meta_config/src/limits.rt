//! The limits of a meta-configuration.

/// The most bytes of the canonical text of a meta-configuration, and of an input that is read as one.
pub const MAX_META_TEXT: usize = 262_144;

/// The most bytes of a URL in UTF-8, as it is given and as it is written.
pub const MAX_URL: usize = 2_048;

/// The most partial configurations.
pub const MAX_PARTIALS: usize = 8;

/// The most names of configurations.
pub const MAX_NAMES: usize = 8;
