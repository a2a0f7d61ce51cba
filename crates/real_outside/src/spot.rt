//! Looking at what stands at a place, without following a link.
use crate::identity::{Identity, Sight};
use dsc_outside::HostError;
use std::fs;
use std::fs::Metadata;
use std::io::ErrorKind;
use std::rt::Files;

/// What stands at a place.
#[derive(Clone, Copy, Debug, PartialEq, Eq)]
pub enum Kind {
    Nothing,
    File,
    Folder,
    Link,

    /// None of these, as a pipe.
    Other,
}

/// A place, and what was seen there.
#[derive(Drop)]
pub struct Spot {
    pub place: String,
    pub seen: Option<Metadata>,
}

impl Spot {
    /// Looks at the place.
    pub fn look<R: Files>(rt: &R, place: String) -> Result<Spot, HostError> {
        let seen = look_at(rt, place.as_str())?;
        Ok(Spot { place, seen })
    }

    /// Which file or folder was seen, where something was.
    pub fn identity(&self) -> Option<Identity> {
        match &self.seen {
            Some(seen) => Some(Identity::of(seen)),
            None => None,
        }
    }

    /// Which file or folder was seen, as it was then, where something was.
    pub fn sight(&self) -> Option<Sight> {
        match &self.seen {
            Some(seen) => Some(Sight::of(seen)),
            None => None,
        }
    }

    /// Answers whether that is what was seen.
    pub fn is(&self, found: &Metadata) -> bool {
        self.identity() == Some(Identity::of(found))
    }

    pub fn kind(&self) -> Kind {
        match &self.seen {
            None => Kind::Nothing,
            Some(found) => kind_of(found),
        }
    }
}

fn kind_of(found: &Metadata) -> Kind {
    if found.is_file() {
        Kind::File
    } else if found.is_dir() {
        Kind::Folder
    } else if found.is_symlink() {
        Kind::Link
    } else {
        Kind::Other
    }
}

/// What stands at the place, where something does.
pub fn look_at<R: Files>(rt: &R, place: &str) -> Result<Option<Metadata>, HostError> {
    match fs::symlink_metadata(rt, place) {
        Ok(found) => Ok(Some(found)),
        Err(e) if e.kind() == ErrorKind::NotFound => Ok(None),
        Err(e) => Err(HostError::from(e)),
    }
}

/// The folder of what stands at the place.
pub fn folder_of(place: &str) -> &str {
    match place.trim_end_matches('/').rsplit_once('/') {
        None => ".",
        Some(("", _)) => "/",
        Some((folder, _)) => folder,
    }
}
