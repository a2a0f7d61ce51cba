//! The machine that a folder stands for.
ghost use Rattle.std.specs.Prelude.{◌≡◌, Err, None, false, true};
ghost use Rattle.dsc_outside.specs.Causes.{HasCauseOf};
ghost use Rattle.host_layout.specs.Layout.{has_line_feed, is_plain_path};
ghost use Rattle.dsc_outside.specs.Host.{LeavesBuffer, host_count_after};
ghost use Rattle.dsc_outside.specs.declared.host.HostError.TheVariants as errors;

use crate::machine_folder::MachineFolder;
use dsc_outside::{Host, HostError, PathState};
use std::marker::Model;
use std::os::fd::AsFd;
use std::rt::Files;

/// A host that keeps what it holds in a folder, HOST:
///
/// - `root` is the root of its paths;
/// - `env` has a plain file for each variable, named by the upper-case hexadecimal digits of its name's bytes;
/// - `log` has a plain file for each entry, named by the digits of the SHA-256 of id, LF, message, which it holds;
/// - `packages` has a plain file with each package's bytes, named by the digits of the SHA-256 of name, LF, version;
/// - `reboot` is a text of the folded ids that want a reboot, one a line.
///
/// HOST/root may be the machine itself, bound there, with other file systems mounted below it: a mount is no link, and
/// other users may change what is there meanwhile. So each folder above a path is looked at, opened without following a
/// link, and compared, and what is in it is reached through its descriptor; where /proc is missing, calls fail. The folders
/// above the last path stay open: at the next call the path must lead to the last of them, and the system must have it at that
/// path, where no link is; or else each is compared again.
///
/// No link is followed. A path with a link above it fails in every call, since what stands there is not known; below a
/// file, or a pipe, there is nothing. HOST itself may be a link. A removal fails before anything is removed where
/// something is mounted below it or it reaches another file system. Nothing is changed in the folder of the node's
/// store, and no folder above that is removed. A log entry's id and a package's name that are not one line are a
/// failure, since their file would be that of another pair.
///
/// A file that is read is the plain file that was seen: what comes in its place between the look and the opening, by a link
/// too, there or above, is opened and not read. A file in the folders of the last path is looked at and opened by its whole path, and is
/// read where the system has what was opened at that path. Any other that was changed in the ten seconds before the host was begun,
/// or later, is looked at again while it is open. A pipe that comes there is waited for until somebody writes to it: what calls
/// the host has a limit of its own. A file that a call placed where no file was stays open until the next call, but for a question
/// about reboots: where that compares it, and finds it at its path, the file is read as it is open.
///
/// A removal takes away what the last look at that path found and nothing else, and a folder that was found empty only
/// while it is; what another user put there since then is a failure. So is anything but the written file in the place of a
/// file that was placed, in a folder in which others than root may change names, by its owner and its mode.
///
/// A file is written beside its target, in one file system with it, under a name of `.nimchout-staged-` and 16 random
/// digits, which other users of the folder cannot take first. Names that begin with `.nimchout-staged` are reserved: a call
/// on a path that has one fails, and a folder with nothing else in it is empty. Before the first file that a host places in
/// a folder it takes away what has such a name there, since a stop may have left it; what may not be taken away stays.
///
/// A file is placed whole or not at all: it is written, synced, given the mode of the file that it replaces, and its
/// owner and group where they may be set, and renamed. Where the call before was a look at its path that found nothing, it
/// replaces none: what comes there since then is replaced as what comes while it is written. Each change then syncs the
/// folders whose names it changed. Where that sync fails, the change was done, but the call failed. Access lists and
/// extended attributes are not kept.
///
/// A file or a folder that is missing means that what it would hold is not there; a change makes the folders that it
/// needs, HOST too. Every other failure counts, and so does a link, a folder or anything else in the place of one of
/// these files or folders. A folder that may not be read counts as one with something in it, and what is in it is not
/// known: such calls fail. A link is `Other`. Nothing is touched before the first call. A clause sees a host as the
/// number of its calls that failed.
#[derive(Drop)]
pub struct FolderHost<R: Files>
where
    R::File: AsFd,
{
    machine: MachineFolder<R>,
    faults: u64,
}

impl<R: Files> Model for FolderHost<R>
where
    R::File: AsFd,
{
    ghost use Rattle.std.specs.Prelude.{ℕ};

    ghost Value = { ℕ };

    ghost view = { λ h. h.faults };
}

impl<R: Files> FolderHost<R>
where
    R::File: AsFd,
{
    /// The host in the folder of that path. Where a store is named, the folder that it is in is the node's own. The host is
    /// begun at that moment, in seconds since 1970, or at 0 where the moment is not known.
    pub fn new(rt: R, folder: String, store: Option<String>, begun: u64) -> FolderHost<R>
        ensures { result ≡ 0 }
    {
        FolderHost {
            machine: MachineFolder::new(rt, folder, store, begun),
            faults: 0,
        }
    }

    // Counts the call where it failed, and hands its outcome on.
    fn counted<T>(&mut self, outcome: Result<T, HostError>) -> Result<T, HostError>
        ensures same { result ≡ outcome }
        ensures cause { HasCauseOf HostError.Failed self.old self.new outcome }
        ensures count { self.new ≡ host_count_after self.old outcome }
    {
        if matches!(outcome, Err(HostError::Failed)) {
            self.faults = self.faults.saturating_add(1);
        }
        outcome
    }
}

impl<R: Files> Host for FolderHost<R>
where
    R::File: AsFd,
{
    ghost shown = { λ h. None };

    ghost faults = { λ h. h };

    fn path_state(&mut self, path: &str) -> Result<PathState, HostError>
        ensures refused { is_plain_path path.now ≡ false → result ≡ Err errors.Failed }
        ensures cause { HasCauseOf HostError.Failed self.old self.new result }
        ensures count { self.new ≡ host_count_after self.old result }
    {
        let outcome = self.machine.path_state(path);
        self.counted(outcome)
    }

    fn file_equals(&mut self, path: &str, bytes: &[u8]) -> Result<bool, HostError>
        ensures refused { is_plain_path path.now ≡ false → result ≡ Err errors.Failed }
        ensures cause { HasCauseOf HostError.Failed self.old self.new result }
        ensures count { self.new ≡ host_count_after self.old result }
    {
        let outcome = self.machine.file_equals(path, bytes);
        self.counted(outcome)
    }

    fn put_file(&mut self, path: &str, bytes: &[u8]) -> Result<(), HostError>
        ensures refused { is_plain_path path.now ≡ false → result ≡ Err errors.Failed }
        ensures cause { HasCauseOf HostError.Failed self.old self.new result }
        ensures count { self.new ≡ host_count_after self.old result }
    {
        let outcome = self.machine.put_file(path, bytes);
        self.counted(outcome)
    }

    fn make_dir(&mut self, path: &str) -> Result<(), HostError>
        ensures refused { is_plain_path path.now ≡ false → result ≡ Err errors.Failed }
        ensures cause { HasCauseOf HostError.Failed self.old self.new result }
        ensures count { self.new ≡ host_count_after self.old result }
    {
        let outcome = self.machine.make_dir(path);
        self.counted(outcome)
    }

    fn remove(&mut self, path: &str) -> Result<(), HostError>
        ensures refused { is_plain_path path.now ≡ false → result ≡ Err errors.Failed }
        ensures cause { HasCauseOf HostError.Failed self.old self.new result }
        ensures count { self.new ≡ host_count_after self.old result }
    {
        let outcome = self.machine.remove(path);
        self.counted(outcome)
    }

    fn env_state(&mut self, name: &str, into: &mut Vec<u8>) -> Result<bool, HostError>
        ensures buffer { LeavesBuffer result into.old.items into.new.items }
        ensures cause { HasCauseOf HostError.Failed self.old self.new result }
        ensures count { self.new ≡ host_count_after self.old result }
    {
        let outcome = self.machine.env_state(name, into);
        self.counted(outcome)
    }

    fn env_put(&mut self, name: &str, value: &[u8]) -> Result<(), HostError>
        ensures cause { HasCauseOf HostError.Failed self.old self.new result }
        ensures count { self.new ≡ host_count_after self.old result }
    {
        let outcome = self.machine.env_put(name, value);
        self.counted(outcome)
    }

    fn env_remove(&mut self, name: &str) -> Result<(), HostError>
        ensures cause { HasCauseOf HostError.Failed self.old self.new result }
        ensures count { self.new ≡ host_count_after self.old result }
    {
        let outcome = self.machine.env_remove(name);
        self.counted(outcome)
    }

    fn log_has(&mut self, id: &str, message: &str) -> Result<bool, HostError>
        ensures refused { has_line_feed id.now ≡ true → result ≡ Err errors.Failed }
        ensures cause { HasCauseOf HostError.Failed self.old self.new result }
        ensures count { self.new ≡ host_count_after self.old result }
    {
        let outcome = self.machine.log_has(id, message);
        self.counted(outcome)
    }

    fn log_add(&mut self, id: &str, message: &str) -> Result<(), HostError>
        ensures refused { has_line_feed id.now ≡ true → result ≡ Err errors.Failed }
        ensures cause { HasCauseOf HostError.Failed self.old self.new result }
        ensures count { self.new ≡ host_count_after self.old result }
    {
        let outcome = self.machine.log_add(id, message);
        self.counted(outcome)
    }

    fn package_has(&mut self, name: &str, version: &str) -> Result<bool, HostError>
        ensures refused { has_line_feed name.now ≡ true → result ≡ Err errors.Failed }
        ensures cause { HasCauseOf HostError.Failed self.old self.new result }
        ensures count { self.new ≡ host_count_after self.old result }
    {
        let outcome = self.machine.package_has(name, version);
        self.counted(outcome)
    }

    fn package_put(&mut self, name: &str, version: &str, bytes: &[u8]) -> Result<(), HostError>
        ensures refused { has_line_feed name.now ≡ true → result ≡ Err errors.Failed }
        ensures cause { HasCauseOf HostError.Failed self.old self.new result }
        ensures count { self.new ≡ host_count_after self.old result }
    {
        let outcome = self.machine.package_put(name, version, bytes);
        self.counted(outcome)
    }

    fn reboot_wanted(&mut self, id: &str) -> Result<bool, HostError>
        ensures cause { HasCauseOf HostError.Failed self.old self.new result }
        ensures count { self.new ≡ host_count_after self.old result }
    {
        let outcome = self.machine.reboot_wanted(id);
        self.counted(outcome)
    }
}
