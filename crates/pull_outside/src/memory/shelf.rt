//! A shelf in memory.
ghost use Rattle.std.specs.Prelude.{◌≡◌, ◌≤◌, false, Some, OnErr, length, slice_get};
ghost use Rattle.std.specs.Option.{option_copied};
ghost use Rattle.sha2.specs.Sha256.{sha256};
ghost use Rattle.dsc_outside.specs.Causes.{HasCauseOf};
ghost use Rattle.pull_outside.specs.Memory.{Looks, new_shelf};
ghost use Rattle.pull_outside.specs.Shelf.{Finds, FindsConfiguration, FindsKey, FindsPackage, Leaves, configuration_of, content_named, key_of, package_named, package_of};
ghost use Rattle.dsc_terms.specs.Counts.{Rose};

use super::calls::Calls;
use super::contents::{Configuration, ShelfContents};
use crate::shelf::{LONGEST_ITEM, Shelf, ShelfError};
use dsc_outside::Package;
use sha2::{Digest, Sha256};
use std::marker::Model;

/// A shelf that holds these contents.
#[derive(Drop)]
pub struct MemoryShelf {
    contents: ShelfContents,
    calls: Calls,
}

impl Model for MemoryShelf {
    ghost use Rattle.pull_outside.specs.Memory.{ShelfInMemory, contents_of};

    ghost Value = { ShelfInMemory };

    ghost view = { λ s. record { contents = contents_of s.contents; calls = s.calls } };
}

impl MemoryShelf {
    /// A shelf whose calls of these numbers, counted from 0, are to fail.
    pub fn new(contents: ShelfContents, failing: Vec<u64>) -> MemoryShelf
        ensures { result ≡ new_shelf contents failing.items }
    {
        MemoryShelf {
            contents,
            calls: Calls::new(failing),
        }
    }

    /// Answers whether a call failed because it ran out of memory. None does: it answers `Memory`.
    pub fn short(&self) -> bool
        ensures { result ≡ false }
    {
        false
    }
}

impl Shelf for MemoryShelf {
    ghost holds = { λ s. Some s.contents };

    ghost faults = { λ s. s.calls.faults };

    fn configuration(&mut self, name: &str, into: &mut Vec<u8>) -> Result<bool, ShelfError>
        ensures finds { FindsConfiguration name.now (Some self.old.contents) result
            into.old.items into.new.items }
        ensures leaves { Leaves result into.old.items into.new.items }
        ensures same { self.new.contents ≡ self.old.contents }
        ensures cause { HasCauseOf ShelfError.Failed
            self.old.calls.faults self.new.calls.faults result }

        // Exactly when it fails.
        ensures exact { Looks self.old.calls
            (configuration_of name.now self.old.contents) result self.new.calls }
    {
        let item = content_named(self.contents.configurations.as_slice(), name.as_bytes());
        look(&mut self.calls, item, into)
    }

    fn package(&mut self, name: &str, version: &str, into: &mut Vec<u8>) -> Result<bool, ShelfError>
        ensures finds { FindsPackage name.now version.now (Some self.old.contents) result
            into.old.items into.new.items }
        ensures leaves { Leaves result into.old.items into.new.items }
        ensures same { self.new.contents ≡ self.old.contents }
        ensures cause { HasCauseOf ShelfError.Failed
            self.old.calls.faults self.new.calls.faults result }

        // Exactly when it fails.
        ensures exact { Looks self.old.calls
            (package_of name.now version.now self.old.contents) result self.new.calls }
    {
        let item = package_named(
            self.contents.packages.as_slice(),
            name.as_bytes(),
            version.as_bytes(),
        );
        look(&mut self.calls, item, into)
    }

    fn key(&mut self, index: u32, into: &mut Vec<u8>) -> Result<bool, ShelfError>
        ensures finds { FindsKey index (Some self.old.contents) result
            into.old.items into.new.items }
        ensures leaves { Leaves result into.old.items into.new.items }
        ensures same { self.new.contents ≡ self.old.contents }
        ensures cause { HasCauseOf ShelfError.Failed
            self.old.calls.faults self.new.calls.faults result }

        // Exactly when it fails.
        ensures exact { Looks self.old.calls
            (key_of index self.old.contents) result self.new.calls }
    {
        let item = match self.contents.keys.as_slice().get(index as usize) {
            Some(key) => Some(key.as_slice()),
            None => None,
        };
        look(&mut self.calls, item, into)
    }

    fn digest(&mut self, item: &[u8]) -> [u8; 32]
        ensures digest { result ≡ sha256 item.now }

        // It is no call that is counted, and nothing is kept.
        ensures still { self.new ≡ self.old }
    {
        Sha256::digest(item)
    }
}

// A look for this item.
fn look(calls: &mut Calls, item: Option<&[u8]>, into: &mut Vec<u8>) -> Result<bool, ShelfError>
    ensures finds { Finds (Some (option_copied item.entry)) result into.old.items into.new.items }
    ensures leaves { Leaves result into.old.items into.new.items }
    ensures cause { HasCauseOf ShelfError.Failed calls.old.faults calls.new.faults result }
    ensures exact { Looks calls.old (option_copied item.entry) result calls.new }
{
    if calls.begin().is_err() {
        return Err(ShelfError::Failed);
    }
    match item {
        Some(bytes) => if bytes.len() > LONGEST_ITEM {
            calls.add_fault();
            Err(ShelfError::Failed)
        } else {
            into.extend_from_slice(bytes)?;
            Ok(true)
        },
        None => Ok(false),
    }
}

pub fn content_named<'a>(items: &'a [Configuration], name: &[u8]) -> Option<&'a [u8]>
    ensures { option_copied result ≡ content_named name.now items.now }
{
    for item in items {
        if item.name.as_slice() == name {
            return Some(item.content.as_slice());
        }
    }
    None
}

pub fn package_named<'a>(items: &'a [Package], name: &[u8], version: &[u8]) -> Option<&'a [u8]>
    ensures { option_copied result ≡ package_named name.now version.now items.now }
{
    for item in items {
        if item.name.as_slice() == name && item.version.as_slice() == version {
            return Some(item.bytes.as_slice());
        }
    }
    None
}
