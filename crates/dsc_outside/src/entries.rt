//! The entries of a machine's log, and its module packages.
use mof_values::Bytes;

/// An entry of the machine's log.
#[derive(Debug, Drop, PartialEq)]
pub struct LogEntry {
    /// The UTF-8 of the folded id of the resource that wrote it.
    pub id: Bytes,

    /// In UTF-8.
    pub message: Bytes,
}

/// A module package, kept unread.
#[derive(Debug, Drop, PartialEq)]
pub struct Package {
    /// The module's name, in UTF-8.
    pub name: Bytes,

    /// The module's version, in UTF-8.
    pub version: Bytes,

    pub bytes: Bytes,
}
