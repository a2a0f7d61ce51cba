//! The limits of a node.

/// The most bytes of the parts of a list together.
pub const MAX_BYTES: u64 = 16_777_216;

/// The most reports that a node keeps.
pub const MAX_REPORTS: usize = 16;

/// The most reports that stay where one more is kept.
pub const OLDER_REPORTS: usize = MAX_REPORTS - 1;
