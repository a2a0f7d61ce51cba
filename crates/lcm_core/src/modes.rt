//! How a run goes, and how it ends.

/// What a run may do with a resource that does not hold.
#[derive(Clone, Copy, Debug, PartialEq, Eq)]
pub enum RunMode {
    /// Nothing: it only reports.
    Monitor,

    /// It sets the resource and tests it again.
    Repair,
}

/// How a run ended.
#[derive(Clone, Copy, Debug, PartialEq, Eq)]
pub enum RunEnd {
    /// It came to its last resource.
    Finished,

    /// The machine wants a reboot for the resource at this place, which was set last.
    RebootAsked(u32),

    /// Memory was refused, in its last call or before its first.
    Memory,
}
