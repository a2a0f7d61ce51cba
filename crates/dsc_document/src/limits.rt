//! The limits of documents.

/// The most resources of a document.
pub const MAX_RESOURCES: usize = 4_096;

/// The most bytes of a resource's id in UTF-8.
pub const MAX_ID: usize = 256;

/// The most characters of a document's version.
pub const MAX_VERSION: usize = 64;
