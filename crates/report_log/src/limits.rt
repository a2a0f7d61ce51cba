//! The limits of a report.

/// The most resources that a report lists.
pub const LISTED_LIMIT: usize = 64;

/// The most parts of a document.
pub const MAX_PARTS: usize = 8;
