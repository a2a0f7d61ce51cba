//! What the last look at a path found.
use crate::identity::Identity;
use crate::spot::Spot;
use dsc_outside::PathState;
use std::path::PathBuf;

/// A path below the host's folder, and what a look found there. A removal takes away that and nothing else: another user
/// of the folder above may have put something of somebody else in its place.
#[derive(Drop)]
pub struct LastLook {
    place: PathBuf,
    state: PathState,
    identity: Option<Identity>,
}

impl LastLook {
    pub fn new(place: PathBuf, state: PathState, identity: Option<Identity>) -> LastLook {
        LastLook {
            place,
            state,
            identity,
        }
    }

    /// What the look found at that place, where it was at that place.
    pub fn at(&self, place: &str) -> Option<PathState> {
        if self.place.as_str() == place {
            Some(self.state)
        } else {
            None
        }
    }

    /// Answers whether it found what is at the spot now.
    pub fn found(&self, spot: &Spot) -> bool {
        self.identity == spot.identity()
    }
}
