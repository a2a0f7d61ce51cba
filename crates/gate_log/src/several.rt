//! Bodies that are written one after the other, as they are spelled.
ghost use Rattle.std.specs.Prelude.{◌≡◌, ◌+◌, ◌≤◌, ℕ, List, length, false, vec_capacity};
ghost use Rattle.gate_log.specs.Text.{AllFit, cells};
ghost use Rattle.gate_log.specs.Log.{IsLogOf, capacity_in};
ghost use Rattle.gate_log.specs.Calls.{StaysInBank};
ghost use Rattle.gate_log.specs.Several.{AddsBodies, AppendedAll, LeavesFront, LeavesOldOrThese, Rewritten, TakesBodies};

use crate::error::LogError;
use crate::log::Log;
use crate::spelling::Spelling;
use dsc_outside::Disk;

/// Adds bodies to the live bank. A rewrite that was begun is given up.
pub(crate) fn append_all<D: Disk, S: Spelling>(
    log: &mut Log,
    disk: &mut D,
    buffer: &mut Vec<u8>,
    bodies: &mut S,
) -> Result<(), LogError>
    requires ready { S.ready bodies.old }
    requires buffer { S.capacity ≤ vec_capacity buffer.old }
    requires size { AllFit log.old.shape.largest (S.rest bodies.old) }
    requires capacity { length (cells (S.rest bodies.old)) ≤ capacity_in log.old }
    requires unspent { log.old.spent ≡ false }
    requires of { (all : List (List ℕ)) × IsLogOf D.Disk disk.old log.old all }
    ensures answer { AppendedAll log.old (S.rest bodies.old) (D.faults disk.old) (D.faults disk.new)
        result log.new }
    ensures ok { AddsBodies D.Disk disk.old disk.new log.old log.new (S.rest bodies.old) result }
    ensures any_moment { LeavesFront D.Disk disk.old disk.new log.old (S.rest bodies.old) }
    ensures same_bank { StaysInBank D.Disk disk.old disk.new log.old }
    ensures count { D.faults disk.old ≤ D.faults disk.new }
    ensures buffer { vec_capacity buffer.old ≤ vec_capacity buffer.new }
{
    while bodies.spell_next(buffer) {
        log.append(disk, buffer)?;
    }
    Ok(())
}

/// Writes bodies into the other bank and makes that bank live.
pub(crate) fn rewrite_all<D: Disk, S: Spelling>(
    log: &mut Log,
    disk: &mut D,
    buffer: &mut Vec<u8>,
    bodies: &mut S,
) -> Result<(), LogError>
    requires ready { S.ready bodies.old }
    requires buffer { S.capacity ≤ vec_capacity buffer.old }
    requires size { AllFit log.old.shape.largest (S.rest bodies.old) }
    requires capacity { length (cells (S.rest bodies.old)) + 1 ≤ log.old.shape.bank }
    requires unspent { log.old.spent ≡ false }
    requires of { (all : List (List ℕ)) × IsLogOf D.Disk disk.old log.old all }
    ensures answer { Rewritten log.old (S.rest bodies.old) (D.faults disk.old) (D.faults disk.new)
        result log.new }
    ensures ok { TakesBodies D.Disk disk.old disk.new log.old log.new (S.rest bodies.old) result }
    ensures any_moment { LeavesOldOrThese D.Disk disk.old disk.new log.old (S.rest bodies.old) }
    ensures count { D.faults disk.old ≤ D.faults disk.new }
    ensures buffer { vec_capacity buffer.old ≤ vec_capacity buffer.new }
{
    log.begin_rewrite();
    while bodies.spell_next(buffer) {
        log.put(disk, buffer)?;
    }
    log.finish_rewrite(disk)
}
