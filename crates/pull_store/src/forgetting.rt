//! Agents leave a store.
ghost use Rattle.std.specs.Prelude.{◌≡◌, ◌≤◌, OnOk, filter, vec_capacity};
ghost use Rattle.std.specs.List.{list_any};
ghost use Rattle.gate_log.specs.Standing.{StandsAtAnyMoment};
ghost use Rattle.pull_store.specs.Rows.{is_of, rows_without};
ghost use Rattle.pull_store.specs.Sound.{AreRows};
ghost use Rattle.pull_store.specs.Stands.{Stands, BeforeOrWithout};
ghost use Rattle.pull_store.specs.Store.{IsKept, WrittenWithout};
ghost use Rattle.pull_store.specs.declared.limits.TheConstants.{BODY_CAPACITY};

use crate::error::PullError;
use crate::kept_rows::KeptRows;
use crate::limits::BANK;
use crate::need::need_of_rows;
use crate::row::Row;
use crate::whole::Whole;
use dsc_outside::Disk;
use gate_log::{Log, rewrite};

/// Whether a row is of one of these agents.
pub fn has_any_of(rows: &[Row], agents: &[u128]) -> bool
    ensures { result ≡ list_any (is_of agents.now) rows.now }
{
    rows.iter().any(|row| agents.contains(&row.agent))
}

/// Leaves out the rows of these agents.
pub fn leave_out(rows: &mut Vec<Row>, agents: &[u128])
    ensures { rows.new.items ≡ rows_without agents.now rows.old.items }
{
    rows.retain(|row| !agents.contains(&row.agent));
}

/// Writes the rows of all other agents into the other bank.
pub fn write_without<'r, D: Disk>(
    log: &mut Log,
    disk: &mut D,
    rows: &'r [Row],
    buffer: &mut Vec<u8>,
    agents: &'r [u128],
) -> Result<(), PullError>
    requires kept { IsKept D.Disk disk.old (record { log = log.old; rows = rows.now }) }
    requires sound { AreRows rows.now }
    requires capacity { BODY_CAPACITY ≤ vec_capacity buffer.old }
    ensures answer { WrittenWithout D.Disk log.old rows.now agents.now disk.old disk.new result log.new }
    ensures kept { OnOk result (IsKept D.Disk disk.new (record { log = log.new; rows = rows_without agents.now rows.now })) }
    ensures any_moment { StandsAtAnyMoment D.Disk disk.old disk.new Stands (BeforeOrWithout rows.now agents.now) }
    ensures count { D.faults disk.old ≤ D.faults disk.new }
    ensures capacity { vec_capacity buffer.old ≤ vec_capacity buffer.new }
{
    let need = need_of_rows(buffer, rows, agents) + 1;
    if need > BANK {
        return Err(PullError::Full { need, room: BANK });
    }
    let mut whole = Whole::of(rows, None, &[], agents);
    rewrite::<KeptRows, D, Whole<'r>>(log, disk, buffer, &mut whole)?;
    Ok(())
}
