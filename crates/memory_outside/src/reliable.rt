//! A host in memory none of whose calls fails.
ghost use Rattle.std.specs.Prelude.{◌≡◌, IsOk};
ghost use Rattle.dsc_outside.specs.Causes.{HasCauseOf};
ghost use Rattle.dsc_outside.specs.Changes.{AddsEntry, PutsPackage, MakesFolder, PutsFile, PutsVariable, RemovesPath, RemovesVariable, with_entry, with_file, with_folder, with_package, with_variable, without_path, without_variable};
ghost use Rattle.dsc_outside.specs.Host.{IsState, LeavesBuffer, SaysEntry, SaysFile, SaysPackage, SaysReboot, Tells, TellsVariable};
ghost use Rattle.memory_outside.specs.ReliableHost.{Changes, Takes, exposed_contents};

use crate::contents::HostContents;
use crate::lists::{add_entry, add_package, find_entry, find_package, find_wanting};
use crate::paths::{is_file, make_folder, put_file, remove, state_at};
use crate::variable::{find_value, put_value, remove_value};
use dsc_outside::{Host, HostError, PathState};
use std::marker::Model;

/// A host of given contents none of whose calls fails: one that runs out of memory answers `Memory`. A clause sees it
/// as its contents.
#[derive(Drop)]
pub struct ReliableHost {
    contents: HostContents,
}

impl Model for ReliableHost {
    ghost use Rattle.memory_outside.specs.declared.contents.HostContents.{HostContents};

    ghost Value = { HostContents };

    ghost view = { λ h. h.contents };
}

impl ReliableHost {
    /// A host of these contents; takes no memory.
    pub fn of(contents: HostContents) -> ReliableHost
        ensures { result ≡ contents }
    {
        ReliableHost { contents }
    }

    /// What it holds now.
    pub fn contents(&self) -> &HostContents
        ensures { result.now ≡ self.now }
    {
        &self.contents
    }

    /// What it held last.
    pub fn into_contents(self) -> HostContents
        ensures { result ≡ self }
    {
        self.contents
    }
}

impl Host for ReliableHost {
    ghost shown = { exposed_contents };

    ghost faults = { λ _. 0 };

    fn path_state(&mut self, path: &str) -> Result<PathState, HostError>
        ensures answer { Tells (exposed_contents self.old) result (IsState path.now) }
        ensures cause { HasCauseOf HostError.Failed 0 0 result }
        ensures ok { IsOk result }
        ensures looks { self.new ≡ self.old }
    {
        Ok(state_at(&self.contents.paths, path.as_bytes()))
    }

    fn file_equals(&mut self, path: &str, bytes: &[u8]) -> Result<bool, HostError>
        ensures answer { Tells (exposed_contents self.old) result (SaysFile path.now bytes.now) }
        ensures cause { HasCauseOf HostError.Failed 0 0 result }
        ensures ok { IsOk result }
        ensures looks { self.new ≡ self.old }
    {
        Ok(is_file(&self.contents.paths, path.as_bytes(), bytes))
    }

    fn put_file(&mut self, path: &str, bytes: &[u8]) -> Result<(), HostError>
        ensures change { PutsFile path.now bytes.now
            (exposed_contents self.old) (exposed_contents self.new) result }
        ensures cause { HasCauseOf HostError.Failed 0 0 result }
        ensures exact { Changes (with_file path.now bytes.now) self.old self.new result }
    {
        Ok(put_file(&mut self.contents.paths, path.as_bytes(), bytes)?)
    }

    fn make_dir(&mut self, path: &str) -> Result<(), HostError>
        ensures change { MakesFolder path.now
            (exposed_contents self.old) (exposed_contents self.new) result }
        ensures cause { HasCauseOf HostError.Failed 0 0 result }
        ensures exact { Changes (with_folder path.now) self.old self.new result }
    {
        Ok(make_folder(&mut self.contents.paths, path.as_bytes())?)
    }

    fn remove(&mut self, path: &str) -> Result<(), HostError>
        ensures change { RemovesPath path.now
            (exposed_contents self.old) (exposed_contents self.new) result }
        ensures cause { HasCauseOf HostError.Failed 0 0 result }
        ensures exact { Takes (without_path path.now) self.old self.new result }
    {
        remove(&mut self.contents.paths, path.as_bytes());
        Ok(())
    }

    fn env_state(&mut self, name: &str, into: &mut Vec<u8>) -> Result<bool, HostError>
        ensures answer { TellsVariable (exposed_contents self.old) name.now result
            into.old.items into.new.items }
        ensures buffer { LeavesBuffer result into.old.items into.new.items }
        ensures cause { HasCauseOf HostError.Failed 0 0 result }
        ensures looks { self.new ≡ self.old }
    {
        match find_value(&self.contents.variables, name.as_bytes()) {
            None => Ok(false),
            Some(value) => {
                into.extend_from_slice(value)?;
                Ok(true)
            }
        }
    }

    fn env_put(&mut self, name: &str, value: &[u8]) -> Result<(), HostError>
        ensures change { PutsVariable name.now value.now
            (exposed_contents self.old) (exposed_contents self.new) result }
        ensures cause { HasCauseOf HostError.Failed 0 0 result }
        ensures exact { Changes (with_variable name.now value.now) self.old self.new result }
    {
        Ok(put_value(&mut self.contents.variables, name.as_bytes(), value)?)
    }

    fn env_remove(&mut self, name: &str) -> Result<(), HostError>
        ensures change { RemovesVariable name.now
            (exposed_contents self.old) (exposed_contents self.new) result }
        ensures cause { HasCauseOf HostError.Failed 0 0 result }
        ensures exact { Takes (without_variable name.now) self.old self.new result }
    {
        remove_value(&mut self.contents.variables, name.as_bytes());
        Ok(())
    }

    fn log_has(&mut self, id: &str, message: &str) -> Result<bool, HostError>
        ensures answer { Tells (exposed_contents self.old) result (SaysEntry id.now message.now) }
        ensures cause { HasCauseOf HostError.Failed 0 0 result }
        ensures ok { IsOk result }
        ensures looks { self.new ≡ self.old }
    {
        Ok(find_entry(&self.contents.log, id.as_bytes(), message.as_bytes()))
    }

    fn log_add(&mut self, id: &str, message: &str) -> Result<(), HostError>
        ensures change { AddsEntry id.now message.now
            (exposed_contents self.old) (exposed_contents self.new) result }
        ensures cause { HasCauseOf HostError.Failed 0 0 result }
        ensures exact { Changes (with_entry id.now message.now) self.old self.new result }
    {
        Ok(add_entry(&mut self.contents.log, id.as_bytes(), message.as_bytes())?)
    }

    fn package_has(&mut self, name: &str, version: &str) -> Result<bool, HostError>
        ensures answer { Tells (exposed_contents self.old) result
            (SaysPackage name.now version.now) }
        ensures cause { HasCauseOf HostError.Failed 0 0 result }
        ensures ok { IsOk result }
        ensures looks { self.new ≡ self.old }
    {
        Ok(find_package(&self.contents.packages, name.as_bytes(), version.as_bytes()))
    }

    fn package_put(&mut self, name: &str, version: &str, bytes: &[u8]) -> Result<(), HostError>
        ensures change { PutsPackage name.now version.now bytes.now
            (exposed_contents self.old) (exposed_contents self.new) result }
        ensures cause { HasCauseOf HostError.Failed 0 0 result }
        ensures exact { Changes (with_package name.now version.now bytes.now)
            self.old self.new result }
    {
        Ok(add_package(
            &mut self.contents.packages,
            name.as_bytes(),
            version.as_bytes(),
            bytes,
        )?)
    }

    fn reboot_wanted(&mut self, id: &str) -> Result<bool, HostError>
        ensures answer { Tells (exposed_contents self.old) result (SaysReboot id.now) }
        ensures cause { HasCauseOf HostError.Failed 0 0 result }
        ensures ok { IsOk result }
        ensures looks { self.new ≡ self.old }
    {
        Ok(find_wanting(&self.contents.wanting, id.as_bytes()))
    }
}
