//! Sets of entries, to look entries up among them.
ghost use Rattle.std.specs.Prelude.{◌≡◌, ◌||◌, IfOk, List, OnOk, [], not, ℕ};
ghost use Rattle.std.specs.Str.{bytes_eq};
ghost use Rattle.resource_kinds.specs.Entries.{entries};
ghost use Rattle.resource_kinds.specs.EntrySets.{IsSetOf, is_in};

use std::alloc::{AllocError, Global};
use std::collections::BTreeSet;

/// Entries, each once.
#[derive(Drop)]
pub struct EntrySet<'a> {
    entries: BTreeSet<&'a [u8]>,
}

impl<'a> EntrySet<'a> {
    pub fn new(alloc: Global) -> EntrySet<'a>
        ensures { IsSetOf result [] }
    {
        EntrySet {
            entries: BTreeSet::new(alloc),
        }
    }

    /// The entries of a value.
    pub fn of(alloc: Global, value: &'a [u8]) -> Result<EntrySet<'a>, AllocError>
        ensures { IfOk result (λ set. IsSetOf set (entries value.now)) }
    {
        let mut set = EntrySet::new(alloc);
        for entry in value.split(|b| *b == b';') {
            set.insert(entry)?;
        }
        Ok(set)
    }

    /// Puts the entry into the set, and returns whether it is new there.
    pub fn insert(&mut self, entry: &'a [u8]) -> Result<bool, AllocError>
        ensures new { IfOk result (λ new. new ≡ not (is_in self.old entry.now)) }
        ensures put { OnOk result ((other : List ℕ) → is_in self.new other ≡
            (bytes_eq other entry.now || is_in self.old other)) }
    {
        Ok(self.entries.insert(entry)?)
    }

    /// Returns whether the entry is in the set.
    pub fn has(&self, entry: &[u8]) -> bool
        ensures { result ≡ is_in self.now entry.now }
    {
        self.entries.contains(entry)
    }
}
