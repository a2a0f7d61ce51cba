//! What a machine that a folder stands for lists: variables, the log, packages, and who wants a reboot.
ghost use Rattle.std.specs.Prelude.{◌≡◌, Err, true};
ghost use Rattle.host_layout.specs.Layout.{has_line_feed};
ghost use Rattle.real_outside.specs.Folders.{has_line};
ghost use Rattle.dsc_outside.specs.Host.{LeavesBuffer};
ghost use Rattle.dsc_outside.specs.declared.host.HostError.TheVariants as errors;

use crate::held_folder::HeldFolder;
use crate::machine_folder::MachineFolder;
use crate::plain_files::{append_file, file_holds, is_plain_file, take_away};
use crate::spot::{Kind, Spot};
use dsc_outside::HostError;
use host_layout::{REBOOT, entry_path, join_lines, package_path, variable_path};
use std::os::fd::AsFd;
use std::rt::Files;

impl<R: Files> MachineFolder<R>
where
    R::File: AsFd,
{
    pub fn env_state(&mut self, name: &str, into: &mut Vec<u8>) -> Result<bool, HostError>
        ensures { LeavesBuffer result into.old.items into.new.items }
    {
        let place = variable_path(self.alloc(), name)?;
        match self.look_for(place.as_str())? {
            Some(spot) => {
                let path = self.place_in_host(place.as_str())?;
                append_file(
                    &self.rt,
                    self.last_folder()?,
                    &spot,
                    path.as_str(),
                    self.begun,
                    into,
                )
            }
            None => Ok(false),
        }
    }

    pub fn env_put(&mut self, name: &str, value: &[u8]) -> Result<(), HostError> {
        let place = variable_path(self.alloc(), name)?;
        self.place(place.as_str(), value, None)
    }

    pub fn env_remove(&mut self, name: &str) -> Result<(), HostError> {
        let place = variable_path(self.alloc(), name)?;
        match self.look_for(place.as_str())? {
            Some(spot) => take_away(&self.rt, self.last_folder()?, spot.place.as_str()),
            None => Ok(()),
        }
    }

    pub fn log_has(&mut self, id: &str, message: &str) -> Result<bool, HostError>
        ensures { has_line_feed id.now ≡ true → result ≡ Err errors.Failed }
    {
        let entry = join_lines(self.alloc(), id, message)?;
        let place = entry_path(self.alloc(), &entry)?;
        match self.look_for(place.as_str())? {
            Some(spot) => {
                let path = self.place_in_host(place.as_str())?;
                file_holds(
                    &self.rt,
                    self.last_folder()?,
                    &spot,
                    path.as_str(),
                    self.begun,
                    &entry,
                )
            }
            None => Ok(false),
        }
    }

    pub fn log_add(&mut self, id: &str, message: &str) -> Result<(), HostError>
        ensures { has_line_feed id.now ≡ true → result ≡ Err errors.Failed }
    {
        let entry = join_lines(self.alloc(), id, message)?;
        let place = entry_path(self.alloc(), &entry)?;
        self.place(place.as_str(), &entry, None)
    }

    pub fn package_has(&mut self, name: &str, version: &str) -> Result<bool, HostError>
        ensures { has_line_feed name.now ≡ true → result ≡ Err errors.Failed }
    {
        let place = package_path(self.alloc(), name, version)?;
        match self.look_for(place.as_str())? {
            Some(spot) => is_plain_file(&spot),
            None => Ok(false),
        }
    }

    pub fn package_put(&mut self, name: &str, version: &str, bytes: &[u8]) -> Result<(), HostError>
        ensures { has_line_feed name.now ≡ true → result ≡ Err errors.Failed }
    {
        let place = package_path(self.alloc(), name, version)?;
        self.place(place.as_str(), bytes, None)
    }

    pub fn reboot_wanted(&mut self, id: &str) -> Result<bool, HostError> {
        self.is_free = false;
        let outcome = self.has_reboot(id);
        if !matches!(outcome, Ok(false)) {
            self.written = None;
        }
        outcome
    }

    fn has_reboot(&self, id: &str) -> Result<bool, HostError> {
        let mut text = Vec::new(self.alloc());
        if let Some(host) = self.hold_host_of_reboots()? {
            let spot = host.look(&self.rt, self.alloc(), REBOOT)?;
            let path = self.place_in_host(REBOOT)?;
            append_file(&self.rt, &host, &spot, path.as_str(), self.begun, &mut text)?;
        }
        Ok(has_line(&text, id.as_bytes()))
    }

    // The host's folder, where something is there under the name of the text of reboots.
    fn hold_host_of_reboots(&self) -> Result<Option<HeldFolder>, HostError> {
        match Spot::look(&self.rt, self.place_in_host(REBOOT)?)?.kind() {
            Kind::Nothing => Ok(None),
            _ => self.hold_host(),
        }
    }

    // The host's folder, where it is there. It may be a link.
    fn hold_host(&self) -> Result<Option<HeldFolder>, HostError> {
        let spot = Spot::look(&self.rt, self.place_in_host(".")?)?;
        if spot.seen.is_none() {
            return Ok(None);
        }
        Ok(Some(HeldFolder::open(&self.rt, self.alloc(), &spot)?))
    }
}

// Answers whether one of the lines is the id.
fn has_line(text: &[u8], id: &[u8]) -> bool
    ensures { result ≡ has_line text.now id.now }
{
    text.split(|b| *b == b'\n').any(|line| line == id)
}
