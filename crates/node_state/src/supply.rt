//! The memory that events need.
ghost use Rattle.std.specs.Prelude.{◌≡◌, ◌≤◌, vec_len, vec_capacity};
ghost use Rattle.node_state.specs.declared.limits.TheConstants.{MAX_REPORTS};

use crate::limits::MAX_REPORTS;
use crate::{Kept, SharedParts};
use mof_values::Memory;
use std::alloc::Global;

/// Capacity for the reports of a node.
#[derive(Debug, Drop)]
pub struct Room {
    pub(crate) reports: Vec<Kept>,

    ghost empty: { vec_len reports ≡ 0 },
    ghost wide: { MAX_REPORTS ≤ vec_capacity reports },
}

/// The memory that an event needs.
#[derive(Debug, Drop)]
pub enum Supply {
    Nothing,

    /// For an event that keeps a report.
    Room(Room),

    /// For Restore, Previous once more.
    Shared(SharedParts),
}

impl Room {
    /// Capacity for the reports that a node keeps.
    pub fn new(alloc: Global) -> Result<Room, Memory> {
        let reports = Vec::with_capacity(alloc, MAX_REPORTS)?;
        Ok(Room { reports })
    }
}
