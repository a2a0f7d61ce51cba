//! Documents and their resources.
use mof_values::{Instance, Items, Text};

/// A resource of a document.
#[derive(Debug, Drop)]
pub struct Resource {
    /// Its ResourceID, as spelled.
    pub id: Text,

    /// The part that declares it, counted from 0.
    pub part: u32,

    /// The place of its instance in that part, counted from 0.
    pub index: u32,

    pub instance: Instance,

    /// The ids that it depends on, as spelled.
    pub depends: Items<Text>,
}

/// What one or several configuration documents ask of a machine.
#[derive(Debug, Drop)]
pub struct Document {
    /// The first [`MAX_VERSION`](crate::MAX_VERSION) characters of the header's Version, where that is a text.
    pub version: Text,

    pub resources: Items<Resource>,

    /// The instances that are neither header nor resource.
    pub others: Items<Instance>,

    /// The names of the parts.
    pub parts: Items<Text>,
}
