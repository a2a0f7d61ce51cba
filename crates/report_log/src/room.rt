//! The memory of a report, which is reserved before the run.
ghost use Rattle.std.specs.Prelude.{◌≡◌, IfOk, map};
ghost use Rattle.report_log.specs.Room.{IsRoomFor};

use crate::limits::LISTED_LIMIT;
use crate::marks::Mark;
use crate::report::Missed;
use dsc_document::{Document, Resource};
use mof_values::Text;
use std::alloc::{AllocError, Global};

/// All the memory that the report of a run takes.
#[derive(Drop)]
pub struct ReportRoom {
    pub(crate) version: Text,
    pub(crate) ids: Vec<Text>,
    pub(crate) marks: Vec<Mark>,
    pub(crate) listed: Vec<Missed>,
}

/// Reserves the memory of a report on this document.
pub fn room_for(alloc: Global, document: &Document) -> Result<ReportRoom, AllocError>
    ensures { IfOk result (IsRoomFor document.now) }
{
    let resources = document.resources.as_slice();
    Ok(ReportRoom {
        version: document.version.copy()?,
        ids: ids_of(alloc, resources)?,
        marks: vec![in alloc; Mark::NotCalled; resources.len()]?,
        listed: Vec::with_capacity(alloc, LISTED_LIMIT)?,
    })
}

fn ids_of(alloc: Global, resources: &[Resource]) -> Result<Vec<Text>, AllocError>
    ensures { IfOk result (λ ids. ids.items ≡ map (λ resource. resource.id) resources.now) }
{
    let mut ids = Vec::new(alloc);
    for resource in resources {
        ids.push(resource.id.copy()?)?;
    }
    Ok(ids)
}
