//! How long texts and lists may be.
ghost use Rattle.std.specs.Prelude.{◌≡◌};
ghost use Rattle.pull_messages.specs.Limits.{is_within};

use mof_values::MAX_NAME_BYTES;

/// The most bytes of a text that an agent says of itself.
pub const MAX_TEXT_BYTES: usize = 65_535;

/// The most names of a registration, and the most clients of a query.
pub const MAX_LIST_ITEMS: usize = 16;

/// Which texts a member may hold, by their bytes of UTF-8.
#[derive(Clone, Copy, Debug)]
pub enum Limit {
    /// Any text.
    Free,

    /// At most `MAX_TEXT_BYTES` bytes.
    Short,

    /// From 1 to `MAX_NAME_BYTES` bytes.
    Name,
}

impl Limit {
    /// Whether a text of `size` bytes is allowed.
    pub fn allows(self, size: usize) -> bool
        ensures { result ≡ is_within self size }
    {
        match self {
            Limit::Free => true,
            Limit::Short => size <= MAX_TEXT_BYTES,
            Limit::Name => 1 <= size && size <= MAX_NAME_BYTES,
        }
    }
}
