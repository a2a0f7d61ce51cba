//! Which file or folder it is, whatever its name, and when it was last changed.
use std::fs::Metadata;
use std::os::unix::fs::MetadataExt;

/// The device and the inode of a file or a folder. Of two that are there at the same time they differ.
#[derive(Clone, Copy, Debug, PartialEq, Eq)]
pub struct Identity {
    device: u64,
    inode: u64,
}

impl Identity {
    pub fn of(found: &Metadata) -> Identity {
        Identity {
            device: found.dev(),
            inode: found.ino(),
        }
    }

    /// Answers whether both are in one file system.
    pub fn is_beside(&self, other: Identity) -> bool {
        self.device == other.device
    }
}

/// Which file it is, and when it was last changed, by the clock of its file system, in seconds since 1970 and nanoseconds; a
/// moment before 1970 counts as one that never comes. A change of its bytes, its mode, its owner or its names sets the moment,
/// and no user can set it back.
#[derive(Clone, Copy, Debug, PartialEq, Eq)]
pub struct Sight {
    pub identity: Identity,
    pub seconds: u64,
    nanoseconds: i64,
}

impl Sight {
    pub fn of(found: &Metadata) -> Sight {
        Sight {
            identity: Identity::of(found),
            seconds: u64::try_from(found.ctime()).unwrap_or(u64::MAX),
            nanoseconds: found.ctime_nsec(),
        }
    }
}
