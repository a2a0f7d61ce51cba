//! The folders above a path, held from one call to the next.
use crate::held_folder::HeldFolder;
use crate::identity::Identity;
use dsc_outside::Failed;
use std::alloc::{AllocError, Global};

/// How many folders stay held, from the host's folder on, so that a deep path does not use up the descriptors. Those further
/// down are walked to anew, each from the one above it.
const HELD: usize = 32;

/// The folders above a path, from one in the host's folder down, as they were found. Those that were below them in an earlier
/// path stay with them until another folder is found in their place.
#[derive(Drop)]
pub struct Ancestors {
    list: Vec<Ancestor>,

    // How many of them are above the path.
    depth: usize,

    // Where the system has the first of them, where that is known.
    base: Option<String>,
}

/// A folder above a path. Its identity is that of the folder that is held, where it is.
#[derive(Drop)]
pub struct Ancestor {
    name: String,
    identity: Identity,
    folder: Option<HeldFolder>,
}

impl Ancestor {
    /// Answers whether it is held and has that name, and that identity.
    pub fn is_held(&self, name: &str, identity: Identity) -> bool {
        self.folder.is_some() && self.name.as_str() == name && self.identity == identity
    }
}

impl Ancestors {
    pub fn new(alloc: Global) -> Ancestors {
        Ancestors {
            list: Vec::new(alloc),
            depth: 0,
            base: None,
        }
    }

    /// All of them, also those below the path.
    pub fn as_slice(&self) -> &[Ancestor] {
        self.list.as_slice()
    }

    /// How many are above the path.
    pub fn len(&self) -> usize {
        self.depth
    }

    /// Answers whether one of those above the path is this folder.
    pub fn have(&self, folder: Option<Identity>) -> bool {
        match folder {
            None => false,
            Some(identity) => self
                .list
                .iter()
                .take(self.depth)
                .any(|a| a.identity == identity),
        }
    }

    /// The last of those above the path, or none where there is none at all.
    pub fn last(&self) -> Result<Option<&HeldFolder>, Failed> {
        if self.depth == 0 {
            return Ok(None);
        }
        match self.held(self.depth) {
            Some(folder) => Ok(Some(folder)),
            None => Err(Failed),
        }
    }

    /// The last of that many from the first on, where it is held.
    pub fn held(&self, count: usize) -> Option<&HeldFolder> {
        match self.list.get(count.saturating_sub(1)) {
            Some(ancestor) => ancestor.folder.as_ref(),
            None => None,
        }
    }

    /// The name of the one below that many from the first on, where there is one.
    pub fn name_below(&self, count: usize) -> Option<&str> {
        match self.list.get(count) {
            Some(ancestor) => Some(ancestor.name.as_str()),
            None => None,
        }
    }

    /// How many of the folders, from the first on, have the names of these, and where the last of these names ends.
    pub fn shared(&self, folders: &str) -> (usize, usize) {
        let mut count = 0usize;
        let mut end = 0usize;
        for (name, ancestor) in folders.split('/').zip(self.list.as_slice()) {
            if ancestor.name.as_str() != name {
                return (count, end);
            }
            end = end
                .saturating_add(name.len())
                .saturating_add(usize::from(count > 0));
            count = count.saturating_add(1);
        }
        (count, end)
    }

    /// Answers whether these are the folders above the path.
    pub fn are(&self, folders: &str) -> bool {
        self.shared(folders) == (self.depth, folders.len())
    }

    /// Where the system has these folders, which share the first name, as long as they stand and none of them is a link.
    pub fn real_path_of(&self, alloc: Global, folders: &str) -> Result<Option<String>, AllocError> {
        let (Some(base), Some(first)) = (&self.base, self.list.first()) else {
            return Ok(None);
        };
        let Some(below) = folders.get(first.name.len()..) else {
            return Ok(None);
        };
        let mut path = String::from_str(alloc, base.as_str())?;
        path.push_str(below)?;
        Ok(Some(path))
    }

    /// Keeps the first of them above the path: that many.
    pub fn keep(&mut self, count: usize) {
        self.depth = count;
    }

    /// Adds the folder of that name in the last one. The first of all has the path at which the system has it.
    pub fn push(
        &mut self,
        alloc: Global,
        name: &str,
        folder: HeldFolder,
        base: Option<String>,
    ) -> Result<(), AllocError> {
        let name = String::from_str(alloc, name)?;
        self.list.truncate(self.depth);
        if self.depth == 0 {
            self.base = base;
        }
        if self.list.len() > HELD {
            if let Some(last) = self.list.last_mut() {
                last.folder = None;
            }
        }
        let identity = folder.identity();
        self.list.push(Ancestor {
            name,
            identity,
            folder: Some(folder),
        })?;
        self.depth = self.list.len();
        Ok(())
    }
}
