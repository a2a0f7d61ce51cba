//! A host in memory.
ghost use Rattle.std.specs.Prelude.{◌≡◌, ◌↔◌, IfErr, IsErr, IsErrOf, IsTrue};
ghost use Rattle.dsc_outside.specs.Changes.{AddsEntry, PutsPackage, MakesFolder, PutsFile, PutsVariable, RemovesPath, RemovesVariable, with_entry, with_file, with_folder, with_package, with_variable, without_path, without_variable};
ghost use Rattle.dsc_outside.specs.Host.{IsState, LeavesBuffer, SaysEntry, SaysFile, SaysPackage, SaysReboot, Tells, TellsVariable};
ghost use Rattle.memory_outside.specs.Memory.{counted, is_to_fail};
ghost use Rattle.memory_outside.specs.StoppedHost.{met};
ghost use Rattle.memory_outside.specs.MemoryHost.{ChangesPart, ChangesWhole, CountsFault, IsContents, SettlesChange, TakesWhole, answer_of, exposed_host, first_half, host_of_variables, host_with, looked_at, part_put};

use crate::calls::Calls;
use crate::contents::HostContents;
use crate::lists::{add_entry, add_package, find_entry, find_package, find_wanting};
use crate::paths::{is_file, make_folder, put_file, remove, state_at};
use crate::shared_stop::Turn;
use crate::stop::{Course, Done, Stop};
use crate::variable::{Variable, find_value, put_value, remove_value};
use dsc_outside::{Host, HostError, PathState};
use std::alloc::AllocError;
use std::marker::Model;

/// A host of given contents.
///
/// A call fails exactly where its number is in a list, or a stop has come: a change also succeeds where a host that
/// is a real folder fails, as below a file.
#[derive(Drop)]
pub struct MemoryHost {
    contents: HostContents,
    short: bool,
    calls: Calls,
}

impl Model for MemoryHost {
    ghost use Rattle.memory_outside.specs.MemoryHost.{HostInMemory};

    ghost Value = { HostInMemory };

    ghost view = { λ h. record { paths = h.contents.paths.items; variables = h.contents.variables.items; log = h.contents.log.items; packages = h.contents.packages.items; wanting = h.contents.wanting.items; short = h.short; calls = h.calls } };
}

impl MemoryHost {
    /// A host of these variables alone, whose calls of these numbers, counted from 0, are to fail. Of several
    /// variables of one name the first counts, and the others are as if they were not there.
    pub fn new(variables: Vec<Variable>, failing: Vec<u64>) -> MemoryHost
        ensures { result ≡ host_of_variables variables.items failing.items }
    {
        let alloc = *variables.allocator();
        let contents = HostContents {
            paths: Vec::new(alloc),
            variables,
            log: Vec::new(alloc),
            packages: Vec::new(alloc),
            wanting: Vec::new(alloc),
        };
        MemoryHost::of(contents, failing, None)
    }

    /// A host of these contents, whose calls of these numbers, counted from 0, are to fail, and that stops where the
    /// stop says it.
    pub fn of(contents: HostContents, failing: Vec<u64>, stop: Option<Stop>) -> MemoryHost
        ensures { result ≡ host_with contents failing.items stop }
    {
        MemoryHost {
            contents,
            short: false,
            calls: Calls::stopping(failing, stop),
        }
    }

    /// What it holds now.
    pub fn contents(&self) -> &HostContents
        ensures { IsContents result.now self.now }
    {
        &self.contents
    }

    /// What it held last, as after a stop: a host that starts again is made of it.
    pub fn into_contents(self) -> HostContents
        ensures { IsContents result self }
    {
        self.contents
    }

    /// Returns whether a stopped call ran out of memory for the part that it was to leave. Every other call that runs
    /// out of memory answers `Memory`.
    pub fn short(&self) -> bool
        ensures { result ≡ self.now.short }
    {
        self.short
    }

    /// Sets the stop that the next call meets, which leaves that part of a change.
    pub(crate) fn meet(&mut self, turn: Turn, done: Done)
        ensures { self.new ≡ met turn done self.old }
    {
        self.calls.meet(turn, done);
    }
}

// The bytes of a file that a change puts.
fn part_done(course: Course, bytes: &[u8]) -> &[u8]
    ensures { result.now ≡ part_put course bytes.now }
{
    match course {
        Course::StopsHalf => &bytes[..bytes.len() / 2],
        Course::Runs => bytes,
        Course::Fails => bytes,
        Course::StopsWhole => bytes,
    }
}

// The answer of a change that was tried. One that was stopped fails, and where it ran out of memory, `short` is set.
fn settled(course: Course, tried: Result<(), AllocError>, short: &mut bool) -> Result<(), HostError>
    ensures { SettlesChange course tried short.old short.new result }
{
    if course == Course::Runs {
        return Ok(tried?);
    }
    if let Err(AllocError) = tried {
        *short = true;
    }
    Err(HostError::Failed)
}

// The answer of a change that needs no memory.
fn answered(course: Course) -> Result<(), HostError>
    ensures { result ≡ answer_of course }
{
    match course {
        Course::Runs => Ok(()),
        Course::Fails => Err(HostError::Failed),
        Course::StopsHalf => Err(HostError::Failed),
        Course::StopsWhole => Err(HostError::Failed),
    }
}

impl Host for MemoryHost {
    ghost shown = { exposed_host };

    ghost faults = { λ h. h.calls.faults };

    fn path_state(&mut self, path: &str) -> Result<PathState, HostError>
        ensures answer { Tells (exposed_host self.old) result (IsState path.now) }
        ensures cause { CountsFault self.old self.new result }
        ensures fails { IsErr result ↔ IsTrue (is_to_fail self.old.calls) }
        ensures failed { IfErr result (λ e. e ≡ HostError.Failed) }
        ensures looks { self.new ≡ looked_at self.old }
    {
        self.calls.begin()?;
        Ok(state_at(&self.contents.paths, path.as_bytes()))
    }

    fn file_equals(&mut self, path: &str, bytes: &[u8]) -> Result<bool, HostError>
        ensures answer { Tells (exposed_host self.old) result (SaysFile path.now bytes.now) }
        ensures cause { CountsFault self.old self.new result }
        ensures fails { IsErr result ↔ IsTrue (is_to_fail self.old.calls) }
        ensures failed { IfErr result (λ e. e ≡ HostError.Failed) }
        ensures looks { self.new ≡ looked_at self.old }
    {
        self.calls.begin()?;
        Ok(is_file(&self.contents.paths, path.as_bytes(), bytes))
    }

    fn put_file(&mut self, path: &str, bytes: &[u8]) -> Result<(), HostError>
        ensures change { PutsFile path.now bytes.now
            (exposed_host self.old) (exposed_host self.new) result }
        ensures cause { CountsFault self.old self.new result }
        ensures fails { IsErrOf result HostError.Failed ↔ IsTrue (is_to_fail self.old.calls) }
        ensures exact { ChangesPart (with_file path.now bytes.now)
            (with_file path.now (first_half bytes.now)) self.old self.new result }
        ensures count { self.new.calls ≡ counted self.old.calls }
    {
        let course = self.calls.begin_change();
        if course == Course::Fails {
            return Err(HostError::Failed);
        }
        let part = part_done(course, bytes);
        let tried = put_file(&mut self.contents.paths, path.as_bytes(), part);
        settled(course, tried, &mut self.short)
    }

    fn make_dir(&mut self, path: &str) -> Result<(), HostError>
        ensures change { MakesFolder path.now
            (exposed_host self.old) (exposed_host self.new) result }
        ensures cause { CountsFault self.old self.new result }
        ensures fails { IsErrOf result HostError.Failed ↔ IsTrue (is_to_fail self.old.calls) }
        ensures exact { ChangesWhole (with_folder path.now) self.old self.new result }
        ensures count { self.new.calls ≡ counted self.old.calls }
    {
        let course = self.calls.begin_change();
        if course == Course::Fails {
            return Err(HostError::Failed);
        }
        let tried = make_folder(&mut self.contents.paths, path.as_bytes());
        settled(course, tried, &mut self.short)
    }

    fn remove(&mut self, path: &str) -> Result<(), HostError>
        ensures change { RemovesPath path.now
            (exposed_host self.old) (exposed_host self.new) result }
        ensures cause { CountsFault self.old self.new result }
        ensures fails { IsErr result ↔ IsTrue (is_to_fail self.old.calls) }
        ensures exact { TakesWhole (without_path path.now) self.old self.new result }
        ensures count { self.new.calls ≡ counted self.old.calls }
    {
        let course = self.calls.begin_change();
        if course == Course::Fails {
            return Err(HostError::Failed);
        }
        remove(&mut self.contents.paths, path.as_bytes());
        answered(course)
    }

    fn env_state(&mut self, name: &str, into: &mut Vec<u8>) -> Result<bool, HostError>
        ensures answer { TellsVariable (exposed_host self.old) name.now result
            into.old.items into.new.items }
        ensures buffer { LeavesBuffer result into.old.items into.new.items }
        ensures cause { CountsFault self.old self.new result }

        // Exactly when it fails.
        ensures fails { IsErrOf result HostError.Failed ↔ IsTrue (is_to_fail self.old.calls) }
        ensures looks { self.new ≡ looked_at self.old }
    {
        self.calls.begin()?;
        match find_value(&self.contents.variables, name.as_bytes()) {
            None => Ok(false),
            Some(value) => {
                into.extend_from_slice(value)?;
                Ok(true)
            }
        }
    }

    fn env_put(&mut self, name: &str, value: &[u8]) -> Result<(), HostError>
        ensures change { PutsVariable name.now value.now
            (exposed_host self.old) (exposed_host self.new) result }
        ensures cause { CountsFault self.old self.new result }
        ensures fails { IsErrOf result HostError.Failed ↔ IsTrue (is_to_fail self.old.calls) }
        ensures exact { ChangesWhole (with_variable name.now value.now) self.old self.new result }
        ensures count { self.new.calls ≡ counted self.old.calls }
    {
        let course = self.calls.begin_change();
        if course == Course::Fails {
            return Err(HostError::Failed);
        }
        let tried = put_value(&mut self.contents.variables, name.as_bytes(), value);
        settled(course, tried, &mut self.short)
    }

    fn env_remove(&mut self, name: &str) -> Result<(), HostError>
        ensures change { RemovesVariable name.now
            (exposed_host self.old) (exposed_host self.new) result }
        ensures cause { CountsFault self.old self.new result }
        ensures fails { IsErr result ↔ IsTrue (is_to_fail self.old.calls) }
        ensures exact { TakesWhole (without_variable name.now) self.old self.new result }
        ensures count { self.new.calls ≡ counted self.old.calls }
    {
        let course = self.calls.begin_change();
        if course == Course::Fails {
            return Err(HostError::Failed);
        }
        remove_value(&mut self.contents.variables, name.as_bytes());
        answered(course)
    }

    fn log_has(&mut self, id: &str, message: &str) -> Result<bool, HostError>
        ensures answer { Tells (exposed_host self.old) result (SaysEntry id.now message.now) }
        ensures cause { CountsFault self.old self.new result }
        ensures fails { IsErr result ↔ IsTrue (is_to_fail self.old.calls) }
        ensures failed { IfErr result (λ e. e ≡ HostError.Failed) }
        ensures looks { self.new ≡ looked_at self.old }
    {
        self.calls.begin()?;
        Ok(find_entry(&self.contents.log, id.as_bytes(), message.as_bytes()))
    }

    fn log_add(&mut self, id: &str, message: &str) -> Result<(), HostError>
        ensures change { AddsEntry id.now message.now
            (exposed_host self.old) (exposed_host self.new) result }
        ensures cause { CountsFault self.old self.new result }
        ensures fails { IsErrOf result HostError.Failed ↔ IsTrue (is_to_fail self.old.calls) }
        ensures exact { ChangesWhole (with_entry id.now message.now) self.old self.new result }
        ensures count { self.new.calls ≡ counted self.old.calls }
    {
        let course = self.calls.begin_change();
        if course == Course::Fails {
            return Err(HostError::Failed);
        }
        let tried = add_entry(&mut self.contents.log, id.as_bytes(), message.as_bytes());
        settled(course, tried, &mut self.short)
    }

    fn package_has(&mut self, name: &str, version: &str) -> Result<bool, HostError>
        ensures answer { Tells (exposed_host self.old) result (SaysPackage name.now version.now) }
        ensures cause { CountsFault self.old self.new result }
        ensures fails { IsErr result ↔ IsTrue (is_to_fail self.old.calls) }
        ensures failed { IfErr result (λ e. e ≡ HostError.Failed) }
        ensures looks { self.new ≡ looked_at self.old }
    {
        self.calls.begin()?;
        Ok(find_package(&self.contents.packages, name.as_bytes(), version.as_bytes()))
    }

    fn package_put(&mut self, name: &str, version: &str, bytes: &[u8]) -> Result<(), HostError>
        ensures change { PutsPackage name.now version.now bytes.now
            (exposed_host self.old) (exposed_host self.new) result }
        ensures cause { CountsFault self.old self.new result }
        ensures fails { IsErrOf result HostError.Failed ↔ IsTrue (is_to_fail self.old.calls) }
        ensures exact { ChangesWhole (with_package name.now version.now bytes.now)
            self.old self.new result }
        ensures count { self.new.calls ≡ counted self.old.calls }
    {
        let course = self.calls.begin_change();
        if course == Course::Fails {
            return Err(HostError::Failed);
        }
        let tried = add_package(
            &mut self.contents.packages,
            name.as_bytes(),
            version.as_bytes(),
            bytes,
        );
        settled(course, tried, &mut self.short)
    }

    fn reboot_wanted(&mut self, id: &str) -> Result<bool, HostError>
        ensures answer { Tells (exposed_host self.old) result (SaysReboot id.now) }
        ensures cause { CountsFault self.old self.new result }
        ensures fails { IsErr result ↔ IsTrue (is_to_fail self.old.calls) }
        ensures failed { IfErr result (λ e. e ≡ HostError.Failed) }
        ensures looks { self.new ≡ looked_at self.old }
    {
        self.calls.begin()?;
        Ok(find_wanting(&self.contents.wanting, id.as_bytes()))
    }
}
