//! The places of keys, which are lists of bytes.
ghost use Rattle.std.specs.Prelude.{◌≡◌, ◌↔◌, ℕ, List, IfOk, IsTrue, OnOk};
ghost use Rattle.resource_kinds.specs.Keys.{AnyBeginsWith, Puts, kept_place};

use std::alloc::{AllocError, Global};
use std::collections::BTreeMap;

/// A place for each of some keys.
#[derive(Drop)]
pub struct Keys {
    by_key: BTreeMap<Vec<u8>, u32>,
}

impl Keys {
    /// No key has a place.
    pub fn new(alloc: Global) -> Keys
        ensures { (key : List ℕ) → kept_place result key ≡ None }
    {
        Keys {
            by_key: BTreeMap::new(alloc),
        }
    }

    /// Gives the key this place, and returns the one that it had.
    pub fn put(&mut self, key: Vec<u8>, place: u32) -> Result<Option<u32>, AllocError>
        ensures had { IfOk result (λ had. had ≡ kept_place self.old key.items) }
        ensures put { OnOk result (Puts self.old self.new key.items place) }
    {
        Ok(self.by_key.insert(key, place)?)
    }

    /// Returns whether some key that begins with this has a place.
    pub fn any_begins_with(&self, front: &Vec<u8>) -> bool
        ensures { IsTrue result ↔ AnyBeginsWith self.now front.now.items }
    {
        match self.by_key.range(front..).next() {
            Some((key, _)) => key.as_slice().starts_with(front.as_slice()),
            None => false,
        }
    }
}
