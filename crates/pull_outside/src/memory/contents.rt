//! Contents of a shelf in memory.
use dsc_outside::Package;
use mof_values::{Bytes, Items};

/// A configuration, kept unread.
#[derive(Debug, Drop, PartialEq)]
pub struct Configuration {
    /// In UTF-8.
    pub name: Bytes,

    pub content: Bytes,
}

/// What a shelf in memory holds. Of several configurations of one name, and of several packages of one name and version, the
/// first counts.
#[derive(Debug, Drop)]
pub struct ShelfContents {
    pub configurations: Items<Configuration>,
    pub packages: Items<Package>,
    pub keys: Items<Bytes>,
}
