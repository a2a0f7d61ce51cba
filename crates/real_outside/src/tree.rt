//! The paths of a machine that a folder stands for. No link under the root is followed.
ghost use Rattle.std.specs.Prelude.{◌≡◌, Err, false};
ghost use Rattle.host_layout.specs.Layout.{is_plain_path};
ghost use Rattle.dsc_outside.specs.declared.host.HostError.TheVariants as errors;

use crate::above::{Above, split_path};
use crate::comparing::{gives_at_once, gives_sized};
use crate::emptiness::is_inhabited;
use crate::identity::Identity;
use crate::last_look::LastLook;
use crate::machine_folder::MachineFolder;
use crate::plain_files::{file_holds, take_away};
use crate::removing::remove_folder;
use crate::spot::{Kind, Spot};
use dsc_outside::{HostError, PathState};
use host_layout::root_path;
use std::fs;
use std::fs::OpenFile;
use std::io::ErrorKind;
use std::os::fd::{AsFd, AsRawFd};
use std::rt::Files;

impl<R: Files> MachineFolder<R>
where
    R::File: AsFd,
{
    pub fn path_state(&mut self, path: &str) -> Result<PathState, HostError>
        ensures { is_plain_path path.now ≡ false → result ≡ Err errors.Failed }
    {
        let place = root_path(self.alloc(), path)?;
        self.last_look = None;
        self.is_free = false;
        self.written = None;
        if let Some(identity) = self.held_with_a_name(place.as_str())? {
            self.last_look = Some(LastLook::new(place, PathState::Folder, Some(identity)));
            return Ok(PathState::Folder);
        }
        let spot = match self.seen_in_last(place.as_str())? {
            Some(spot) => Some(spot),
            None => self.look_for(place.as_str())?,
        };
        self.is_free = matches!(&spot, Some(spot) if spot.seen.is_none());
        let (state, identity) = match &spot {
            Some(spot) => (self.state_of(spot)?, spot.identity()),
            None => (PathState::Nothing, None),
        };
        self.last_look = Some(LastLook::new(place, state, identity));
        Ok(state)
    }

    // What stands at that place, where that is no folder, and the folders above it are those above the last path: it is looked at by its
    // whole path, and the last of them must be where that leads.
    fn seen_in_last(&self, place: &str) -> Result<Option<Spot>, HostError> {
        match self.look_in_last(place)? {
            Some(spot) if spot.kind() != Kind::Folder => {
                let is_standing = self.stands_above(place)?;
                Ok(is_standing.then_some(spot))
            }
            _ => Ok(None),
        }
    }

    // Looks at that place by its whole path, where the folders above it are those above the last path by their names.
    fn look_in_last(&self, place: &str) -> Result<Option<Spot>, HostError> {
        let Some((folders, _)) = split_path(place) else {
            return Ok(None);
        };
        if !self.ancestors.are(folders) {
            return Ok(None);
        }
        Ok(Spot::look(&self.rt, self.place_in_host(place)?).ok())
    }

    // Answers whether the system has the last folder at the path that is above that place.
    fn stands_above(&self, place: &str) -> Result<bool, HostError> {
        match split_path(place) {
            Some((folders, _)) => self.stands(folders, self.ancestors.len()),
            None => Ok(false),
        }
    }

    // Which folder stands at that place, where it is one that is held, and has a name in it that it had before.
    fn held_with_a_name(&self, place: &str) -> Result<Option<Identity>, HostError> {
        let (count, end) = self.ancestors.shared(place);
        let (Some(folder), true) = (self.ancestors.held(count), end == place.len()) else {
            return Ok(None);
        };
        let Some(name) = self.name_known_in(count, folder.identity()) else {
            return Ok(None);
        };
        let mut known = self.host_place(place)?;
        known.push(place)?;
        known.push(name)?;
        let is_there = fs::symlink_metadata(&self.rt, known.as_str()).is_ok();
        if is_there && self.stands(place, count)? {
            Ok(Some(folder.identity()))
        } else {
            Ok(None)
        }
    }

    // A name that the last of that many folders had: that of the next one, or of the file that was placed last.
    fn name_known_in(&self, count: usize, folder: Identity) -> Option<&str> {
        match &self.placed {
            Some((identity, name)) if *identity == folder => Some(name.as_str()),
            _ => self.ancestors.name_below(count),
        }
    }

    fn state_of(&self, spot: &Spot) -> Result<PathState, HostError> {
        match spot.kind() {
            Kind::Nothing => Ok(PathState::Nothing),
            Kind::File => Ok(PathState::File),
            Kind::Link | Kind::Other => Ok(PathState::Other),
            Kind::Folder if is_inhabited(&self.rt, spot.place.as_str())? => Ok(PathState::Folder),
            Kind::Folder => Ok(PathState::EmptyFolder),
        }
    }

    pub fn file_equals(&mut self, path: &str, bytes: &[u8]) -> Result<bool, HostError>
        ensures { is_plain_path path.now ≡ false → result ≡ Err errors.Failed }
    {
        let place = root_path(self.alloc(), path)?;
        self.is_free = false;
        let written = self.written.take();
        if let Some(answer) = self.equals_in_last(place.as_str(), &written, bytes)? {
            return Ok(answer);
        }
        match self.look_for(place.as_str())? {
            Some(spot) if spot.kind() == Kind::File => {
                let path = self.place_in_host(place.as_str())?;
                file_holds(
                    &self.rt,
                    self.last_folder()?,
                    &spot,
                    path.as_str(),
                    self.begun,
                    bytes,
                )
            }
            _ => Ok(false),
        }
    }

    // The same of a file in the folders above the last path: what is found is opened by its whole path, and is the file that stands
    // there where the system has it at that path. There is no answer where that does not tell.
    fn equals_in_last(
        &self,
        place: &str,
        written: &Option<R::File>,
        bytes: &[u8],
    ) -> Result<Option<bool>, HostError> {
        let Some(spot) = self.look_in_last(place)? else {
            return Ok(None);
        };
        if self.has_written(place, &spot, written, bytes)? {
            return Ok(Some(true));
        }
        match spot.kind() {
            Kind::File => self.standing_equals(place, &spot, bytes),
            Kind::Nothing => {
                let is_standing = self.stands_above(place)?;
                Ok(is_standing.then_some(false))
            }
            _ => Ok(None),
        }
    }

    // Answers whether what was seen at that place is the file that was written last, which is still open, and has these bytes. A file
    // that is open has its number alone.
    fn has_written(
        &self,
        place: &str,
        spot: &Spot,
        written: &Option<R::File>,
        bytes: &[u8],
    ) -> Result<bool, HostError> {
        let Some(file) = written else {
            return Ok(false);
        };
        let found = file.metadata()?;
        let number = file.as_fd().as_raw_fd();
        Ok(
            spot.is(&found)
                && self.is_at(number, place)?
                && gives_at_once(number, found.len(), bytes),
        )
    }

    fn standing_equals(
        &self,
        place: &str,
        spot: &Spot,
        bytes: &[u8],
    ) -> Result<Option<bool>, HostError> {
        let Ok(mut file) = fs::open(&self.rt, spot.place.as_str()) else {
            return Ok(None);
        };
        let found = file.metadata()?;
        if !found.is_file() || !self.is_at(file.as_fd().as_raw_fd(), place)? {
            return Ok(None);
        }
        Ok(Some(gives_sized(&mut file, found.len(), bytes)?))
    }

    pub fn put_file(&mut self, path: &str, bytes: &[u8]) -> Result<(), HostError>
        ensures { is_plain_path path.now ≡ false → result ≡ Err errors.Failed }
    {
        let place = root_path(self.alloc(), path)?;
        let is_free = self.is_free && self.state_seen_at(place.as_str()).is_some();
        self.last_look = None;
        let own = self.own_folder()?;
        self.written = self.place_open(place.as_str(), bytes, own, is_free)?;
        Ok(())
    }

    // What the last look found, where it was at that place.
    fn state_seen_at(&self, place: &str) -> Option<PathState> {
        match &self.last_look {
            Some(look) => look.at(place),
            None => None,
        }
    }

    pub fn make_dir(&mut self, path: &str) -> Result<(), HostError>
        ensures { is_plain_path path.now ≡ false → result ≡ Err errors.Failed }
    {
        let place = root_path(self.alloc(), path)?;
        self.last_look = None;
        let own = self.own_folder()?;
        self.walk_to_change(place.as_str(), own)
    }

    pub fn remove(&mut self, path: &str) -> Result<(), HostError>
        ensures { is_plain_path path.now ≡ false → result ≡ Err errors.Failed }
    {
        let place = root_path(self.alloc(), path)?;
        let own = self.own_folder()?;
        let outcome = self.remove_at(place.as_str(), own);
        self.last_look = None;
        outcome
    }

    fn remove_at(&mut self, place: &str, own: Option<Identity>) -> Result<(), HostError> {
        let Some((folders, name)) = split_path(place) else {
            return Err(HostError::Failed);
        };
        let above = self.walk(folders)?;
        if self.ancestors.have(own) {
            return Err(HostError::Failed);
        }
        match above {
            Above::There => self.remove_name(place, name, own),
            Above::Missing => Ok(()),
            Above::Blocked => Err(HostError::Failed),
        }
    }

    // Where the last look was at this place, only what it found there is taken away, and a folder that it found empty only
    // while it is.
    fn remove_name(&self, place: &str, name: &str, own: Option<Identity>) -> Result<(), HostError> {
        let folder = self.last_folder()?;
        let spot = folder.look(&self.rt, self.alloc(), name)?;
        let looked = self.state_seen_at(place);
        if looked.is_some() && !self.is_as_found(&spot) {
            return Err(HostError::Failed);
        }
        match (spot.kind(), looked) {
            (Kind::Nothing, _) => Ok(()),
            (Kind::Folder, Some(PathState::EmptyFolder)) => self.remove_empty(name, &spot, own),
            (Kind::Folder, _) => remove_folder(&self.rt, self.alloc(), folder, name, &spot, own),
            (Kind::File | Kind::Link | Kind::Other, _) => {
                take_away(&self.rt, folder, spot.place.as_str())
            },
        }
    }

    // A folder in which nothing was but what a stop left there.
    fn remove_empty(
        &self,
        name: &str,
        spot: &Spot,
        own: Option<Identity>,
    ) -> Result<(), HostError> {
        let folder = self.last_folder()?;
        match fs::remove_dir(&self.rt, spot.place.as_str()) {
            Ok(()) => Ok(folder.sync(&self.rt)?),
            Err(e)
                if e.kind() == ErrorKind::DirectoryNotEmpty
                    && !is_inhabited(&self.rt, spot.place.as_str())? => {
                remove_folder(&self.rt, self.alloc(), folder, name, spot, own)
            }
            Err(e) => Err(HostError::from(e)),
        }
    }

    fn is_as_found(&self, spot: &Spot) -> bool {
        match &self.last_look {
            Some(look) => look.found(spot),
            None => true,
        }
    }
}
