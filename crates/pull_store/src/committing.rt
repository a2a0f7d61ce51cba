//! One change of a store.
ghost use Rattle.std.specs.Prelude.{◌≡◌, ◌≤◌, ◌<◌, length, None, IfOk, OnOk, vec_capacity, vec_len};
ghost use Rattle.gate_log.specs.Standing.{StandsAtAnyMoment};
ghost use Rattle.pull_store.specs.Rows.{row_of, refusal, after};
ghost use Rattle.pull_store.specs.Bodies.{body_of};
ghost use Rattle.pull_store.specs.Sound.{AreRows, IsInSize};
ghost use Rattle.pull_store.specs.Stands.{Stands, BeforeOrAfter};
ghost use Rattle.pull_store.specs.Steps.{agent_of, Makes};
ghost use Rattle.pull_store.specs.Store.{AddsCell, HasCapacity, IsKept, Written};
ghost use Rattle.pull_store.specs.declared.limits.TheConstants.{BODY_CAPACITY};

use crate::change::Change;
use crate::error::PullError;
use crate::kept_rows::KeptRows;
use crate::limits::BANK;
use crate::need::{need_of_row, need_of_rows};
use crate::row::Row;
use crate::rows::{around, row_after};
use crate::whole::Whole;
use dsc_outside::Disk;
use gate_log::{Log, add, rewrite};
use std::alloc::{AllocError, Global};

/// What an accepted change makes of its agent's row, and capacity for one more row.
pub fn prepare(alloc: Global, rows: &mut Vec<Row>, change: &Change) -> Result<Row, AllocError>
    requires { refusal change.now rows.old.items ≡ None }
    ensures rows { rows.new.items ≡ rows.old.items }
    ensures row { IfOk result (Makes change.now (row_of (agent_of change.now) rows.old.items)) }
    ensures capacity { OnOk result (vec_len rows.new < vec_capacity rows.new) }
{
    let row = row_after(alloc, rows, change)?;
    rows.reserve(1)?;
    Ok(row)
}

/// Adds the body of a change to the live bank, or writes the rows after it into the other one.
pub fn write<D: Disk>(
    log: &mut Log,
    disk: &mut D,
    rows: &[Row],
    buffer: &mut Vec<u8>,
    row: &Row,
    change: &Change,
) -> Result<(), PullError>
    requires kept { IsKept D.Disk disk.old (record { log = log.old; rows = rows.now }) }
    requires sound { AreRows rows.now }
    requires capacity { BODY_CAPACITY ≤ vec_capacity buffer.old }
    requires spelled { buffer.old.items ≡ body_of change.now }
    requires short { length buffer.old.items ≤ BODY_CAPACITY }
    requires in_size { IsInSize change.now }
    requires accepted { refusal change.now rows.now ≡ None }
    requires row { Makes change.now (row_of (agent_of change.now) rows.now) row.now }
    ensures answer { Written D.Disk log.old rows.now change.now disk.old disk.new result log.new }
    ensures kept { OnOk result (IsKept D.Disk disk.new (record { log = log.new; rows = after change.now rows.now })) }
    ensures any_moment { StandsAtAnyMoment D.Disk disk.old disk.new Stands (BeforeOrAfter rows.now change.now) }
    ensures cell { HasCapacity (record { log = log.old; rows = rows.now }) change.now → AddsCell D.Disk disk.old disk.new log.old change.now result log.new }
    ensures count { D.faults disk.old ≤ D.faults disk.new }
    ensures capacity { vec_capacity buffer.old ≤ vec_capacity buffer.new }
{
    if log.has_room(buffer.len() as u32) {
        add::<KeptRows, D>(log, disk, buffer)?;
        return Ok(());
    }
    let (front, rest) = around(rows, row.agent);
    let need = need_of_rows(buffer, front, &[])
        + need_of_row(buffer, row)
        + need_of_rows(buffer, rest, &[])
        + 1;
    if need > BANK {
        return Err(PullError::Full { need, room: BANK });
    }
    let mut whole = Whole::of(front, Some(row), rest, &[]);
    rewrite::<KeptRows, D, Whole<'_>>(log, disk, buffer, &mut whole)?;
    Ok(())
}
