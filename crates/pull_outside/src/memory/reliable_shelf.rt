//! A shelf in memory that never fails, and whose content can change.
ghost use Rattle.std.specs.Prelude.{◌≡◌, Some, IfOk, OnErr};
ghost use Rattle.std.specs.Option.{option_copied};
ghost use Rattle.sha2.specs.Sha256.{sha256};
ghost use Rattle.dsc_outside.specs.Causes.{HasCauseOf};
ghost use Rattle.pull_outside.specs.ReliableShelf.{FitsFound, FitsItem, empty_shelf, with_configuration, with_key, with_package};
ghost use Rattle.pull_outside.specs.Shelf.{Finds, FindsConfiguration, FindsKey, FindsPackage, Leaves};

use super::contents::Configuration;
use super::shelf::{content_named, package_named};
use crate::shelf::{Shelf, ShelfError};
use dsc_outside::Package;
use mof_values::{Bytes, Memory};
use sha2::{Digest, Sha256};
use std::alloc::Global;
use std::marker::Model;

/// A shelf none of whose calls fails: one answers `Memory` where there is no memory for the item that it found, and in no
/// other case an error.
#[derive(Drop)]
pub struct ReliableShelf {
    configurations: Vec<Configuration>,
    packages: Vec<Package>,
    keys: Vec<Bytes>,
}

impl Model for ReliableShelf {
    ghost use Rattle.pull_outside.specs.Shelf.{Contents};
    ghost use Rattle.pull_outside.specs.ReliableShelf.{FitsConfigurations, FitsKeys, FitsPackages};

    ghost Value = { Contents };

    ghost view = { λ s. record { configurations = s.configurations.items; packages = s.packages.items; keys = s.keys.items } };

    ghost invariant = { λ s. FitsConfigurations s.configurations.items × FitsPackages s.packages.items × FitsKeys s.keys.items };
}

impl ReliableShelf {
    /// A shelf on which nothing stands; takes no memory.
    pub fn new(alloc: Global) -> ReliableShelf
        ensures { result ≡ empty_shelf }
    {
        ReliableShelf {
            configurations: Vec::new(alloc),
            packages: Vec::new(alloc),
            keys: Vec::new(alloc),
        }
    }

    /// Puts a configuration before the others, so that it is the one that counts of its name.
    pub fn put_configuration(&mut self, name: Bytes, content: Bytes) -> Result<(), Memory>
        requires { FitsItem content }
        ensures put { IfOk result (λ _. self.new ≡ with_configuration name content self.old) }
        ensures kept { OnErr result (self.new ≡ self.old) }
    {
        let added = Configuration { name, content };
        Ok(self.configurations.insert(0, added)?)
    }

    /// Puts a package before the others, so that it is the one that counts of its name and version.
    pub fn put_package(&mut self, added: Package) -> Result<(), Memory>
        requires { FitsItem added.bytes }
        ensures put { IfOk result (λ _. self.new ≡ with_package added self.old) }
        ensures kept { OnErr result (self.new ≡ self.old) }
    {
        Ok(self.packages.insert(0, added)?)
    }

    /// Adds a key behind the others.
    pub fn add_key(&mut self, key: Bytes) -> Result<(), Memory>
        requires { FitsItem key }
        ensures added { IfOk result (λ _. self.new ≡ with_key key self.old) }
        ensures kept { OnErr result (self.new ≡ self.old) }
    {
        Ok(self.keys.push(key)?)
    }
}

impl Shelf for ReliableShelf {
    ghost holds = { λ s. Some s };

    ghost faults = { λ _. 0 };

    fn configuration(&mut self, name: &str, into: &mut Vec<u8>) -> Result<bool, ShelfError>
        ensures finds { FindsConfiguration name.now (Some self.old) result
            into.old.items into.new.items }
        ensures leaves { Leaves result into.old.items into.new.items }
        ensures cause { HasCauseOf ShelfError.Failed 0 0 result }
        ensures same { self.new ≡ self.old }
    {
        let item = content_named(&self.configurations, name.as_bytes());
        give(item, into)
    }

    fn package(&mut self, name: &str, version: &str, into: &mut Vec<u8>) -> Result<bool, ShelfError>
        ensures finds { FindsPackage name.now version.now (Some self.old) result
            into.old.items into.new.items }
        ensures leaves { Leaves result into.old.items into.new.items }
        ensures cause { HasCauseOf ShelfError.Failed 0 0 result }
        ensures same { self.new ≡ self.old }
    {
        let item = package_named(&self.packages, name.as_bytes(), version.as_bytes());
        give(item, into)
    }

    fn key(&mut self, index: u32, into: &mut Vec<u8>) -> Result<bool, ShelfError>
        ensures finds { FindsKey index (Some self.old) result into.old.items into.new.items }
        ensures leaves { Leaves result into.old.items into.new.items }
        ensures cause { HasCauseOf ShelfError.Failed 0 0 result }
        ensures same { self.new ≡ self.old }
    {
        let item = match self.keys.get(index as usize) {
            Some(key) => Some(key.as_slice()),
            None => None,
        };
        give(item, into)
    }

    fn digest(&mut self, item: &[u8]) -> [u8; 32]
        ensures digest { result ≡ sha256 item.now }
        ensures same { self.new ≡ self.old }
    {
        Sha256::digest(item)
    }
}

// Gives this item, where there is one.
fn give(item: Option<&[u8]>, into: &mut Vec<u8>) -> Result<bool, ShelfError>
    requires { FitsFound (option_copied item) }
    ensures finds { Finds (Some (option_copied item.entry)) result into.old.items into.new.items }
    ensures leaves { Leaves result into.old.items into.new.items }
    ensures cause { HasCauseOf ShelfError.Failed 0 0 result }
{
    match item {
        Some(bytes) => {
            into.extend_from_slice(bytes)?;
            Ok(true)
        }
        None => Ok(false),
    }
}
