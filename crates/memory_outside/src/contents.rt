//! Contents of a host in memory.
ghost use Rattle.std.specs.Prelude.{◌≡◌};
ghost use Rattle.dsc_outside.specs.Host.{empty_host};
ghost use Rattle.memory_outside.specs.ReliableHost.{shown_by};

use crate::paths::PathEntry;
use crate::variable::Variable;
use dsc_outside::{LogEntry, Package};
use mof_values::Bytes;
use std::alloc::Global;

/// What a host in memory holds. Of several entries of one path, and of several variables of one name, the first
/// counts, and the others are as if they were not there.
#[derive(Debug, Drop)]
pub struct HostContents {
    /// What stands at the paths; a path with no entry has nothing. A folder has an entry of its own.
    pub paths: Vec<PathEntry>,

    pub variables: Vec<Variable>,

    /// The oldest first.
    pub log: Vec<LogEntry>,

    pub packages: Vec<Package>,

    /// The UTF-8 of the folded ids of the resources that want a reboot.
    pub wanting: Vec<Bytes>,
}

impl HostContents {
    /// What a machine holds that has nothing.
    pub fn empty(alloc: Global) -> HostContents
        ensures { shown_by result ≡ empty_host }
    {
        HostContents {
            paths: Vec::new(alloc),
            variables: Vec::new(alloc),
            log: Vec::new(alloc),
            packages: Vec::new(alloc),
            wanting: Vec::new(alloc),
        }
    }
}
