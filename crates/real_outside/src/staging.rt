//! The reserved names under which files are written, before they take their places.
use crate::held_folder::HeldFolder;
use crate::names_below::{Taken, last_error, take_below, take_folder_below};
use crate::reading::read_some;
use dsc_outside::HostError;
use host_layout::is_staging_name;
use std::alloc::Global;
use std::os::fd::OwnedFd;
use std::rt::Files;

const BUFFER_SIZE: usize = 4096;

/// What sets one staged file apart from each other one.
pub type Mark = [u8; 8];

/// How many random bytes the system is asked for at once, which is all that it gives at once.
const RANDOM_SIZE: usize = 256;

/// Marks of random bytes: nobody else knows one before its file is there, so nobody keeps its name.
#[derive(Drop)]
pub struct Marks {
    random: [u8; RANDOM_SIZE],
    used: usize,
}

impl Marks {
    pub fn new() -> Marks {
        Marks {
            random: [0; RANDOM_SIZE],
            used: RANDOM_SIZE,
        }
    }

    /// A mark that was not given before.
    pub fn next(&mut self) -> Result<Mark, HostError> {
        if self.used >= RANDOM_SIZE {
            if libc::getentropy(&mut self.random) != 0 {
                return Err(HostError::from(last_error()));
            }
            self.used = 0;
        }
        let begin = self.used;
        self.used = begin.saturating_add(size_of::<Mark>());
        match self.random.get(begin..self.used) {
            Some(bytes) => Mark::try_from(bytes).map_err(|_| HostError::Failed),
            None => Err(HostError::Failed),
        }
    }
}

/// Takes away what stops left in the folder: all that has a reserved name. What may not be taken away, as a folder of another
/// user with something in it, stays, and is in nobody's way.
pub fn clear_staged<R: Files>(rt: &R, alloc: Global, folder: &HeldFolder) -> Result<(), HostError> {
    let mut names = rt.open_dir(folder.inside(alloc)?.as_str())?;
    let mut buffer = [0; BUFFER_SIZE];
    for _ in 0..u64::MAX {
        let count = read_some(&mut names, &mut buffer)?;
        if count == 0 {
            return Ok(());
        }
        for name in buffer[..count].split(|b| *b == 0) {
            if is_staging_name(name) {
                take_staged(folder.descriptor(), name);
            }
        }
    }
    Err(HostError::Failed)
}

fn take_staged(folder: &OwnedFd, name: &[u8]) {
    if let Ok(Taken::IsFolder) = take_below(folder, name) {
        let _ = take_folder_below(folder, name);
    }
}
