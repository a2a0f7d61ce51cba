//! A change of a state that is kept as bodies: it is added to these, or the whole state after it takes their place.
ghost use Rattle.std.specs.Prelude.{◌≡◌, ◌+◌, ◌≤◌, [], ◌∷◌, ◌++◌, length, vec_capacity};
ghost use Rattle.gate_log.specs.Text.{AllFit, IsLive, after_gate, body_in, cells, need_of};
ghost use Rattle.gate_log.specs.Log.{AtAnyMoment, capacity_in};
ghost use Rattle.gate_log.specs.Kept.{Added, Counts, IsKeptAfter, IsKeptBy, LeadsAnew, LeavesEither, Replaced, WaitsAndCounts};
ghost use Rattle.gate_log.specs.Several.{TakesBodies};

use crate::error::LogError;
use crate::log::Log;
use crate::logged_state::LoggedState;
use crate::several::{append_all, rewrite_all};
use crate::spelling::Spelling;
use dsc_outside::{Disk, Failed};

/// Adds a change of one body to the live bank.
///
/// A crash at any moment leaves the state before the change or after it; after `Ok` it leaves the state after it. After an error the
/// log is spent.
pub fn add<K: LoggedState, D: Disk>(log: &mut Log, disk: &mut D, body: &[u8]) -> Result<(), Failed>
    requires size { length body.now ≤ K.shape.largest }
    requires capacity { need_of body.now ≤ capacity_in log.old }
    requires kept { (state : K.State) × IsKeptBy D.Disk disk.old K.shape K.leads log.old state }
    ensures answer { let more = body.now ∷ [] in
        Added log.old more (D.faults disk.old) (D.faults disk.new) result log.new }
    ensures kept { let to = Counts K.leads (body.now ∷ []) in
        IsKeptAfter D.Disk disk.old disk.new K.shape K.leads to log.old log.new result }
    ensures any_moment { let to = Counts K.leads (body.now ∷ []) in
        LeavesEither D.Disk disk.old disk.new K.shape K.leads to log.old }
    ensures same_bank { AtAnyMoment D.Disk disk.old disk.new (IsLive log.old.second) }
    ensures count { D.faults disk.old ≤ D.faults disk.new }
{
    match log.append(disk, body) {
        Ok(()) => Ok(()),
        Err(LogError::Disk) => Err(Failed),
        Err(LogError::NotAStore { at: _ } | LogError::Memory) => unreachable!(),
    }
}

/// Adds a change of one body to the live bank, as `add` does, but without a copy of a long one: see `Log::append_in_place`.
pub fn add_in_place<K: LoggedState, D: Disk>(
    log: &mut Log,
    disk: &mut D,
    head: &mut [u8],
    tail: &[u8],
) -> Result<(), Failed>
    requires whole { 4 ≤ length head.old }
    requires size { length head.old + length tail.now ≤ K.shape.largest + 4 }
    requires capacity { length head.old + length tail.now + 1 ≤ capacity_in log.old }
    requires kept { (state : K.State) × IsKeptBy D.Disk disk.old K.shape K.leads log.old state }
    ensures answer { let more = body_in head.old tail.now ∷ [] in
        Added log.old more (D.faults disk.old) (D.faults disk.new) result log.new }
    ensures kept { let to = Counts K.leads (body_in head.old tail.now ∷ []) in
        IsKeptAfter D.Disk disk.old disk.new K.shape K.leads to log.old log.new result }
    ensures any_moment { let to = Counts K.leads (body_in head.old tail.now ∷ []) in
        LeavesEither D.Disk disk.old disk.new K.shape K.leads to log.old }
    ensures same_bank { AtAnyMoment D.Disk disk.old disk.new (IsLive log.old.second) }
    ensures count { D.faults disk.old ≤ D.faults disk.new }
    ensures left { head.new ++ tail.now ≡ after_gate (body_in head.old tail.now) }
{
    match log.append_in_place(disk, head, tail) {
        Ok(()) => Ok(()),
        Err(LogError::Disk) => Err(Failed),
        Err(LogError::NotAStore { at: _ } | LogError::Memory) => unreachable!(),
    }
}

/// Adds a change of several bodies to the live bank, of which only the last one makes it count.
///
/// As `add`: a crash between two of them leaves the state before the change.
pub fn add_all<K: LoggedState, D: Disk, S: Spelling>(
    log: &mut Log,
    disk: &mut D,
    buffer: &mut Vec<u8>,
    change: &mut S,
) -> Result<(), Failed>
    requires ready { S.ready change.old }
    requires buffer { S.capacity ≤ vec_capacity buffer.old }
    requires size { AllFit K.shape.largest (S.rest change.old) }
    requires capacity { length (cells (S.rest change.old)) ≤ capacity_in log.old }
    requires kept { (state : K.State) × IsKeptBy D.Disk disk.old K.shape K.leads log.old state }
    ensures answer { let more = S.rest change.old in
        Added log.old more (D.faults disk.old) (D.faults disk.new) result log.new }
    ensures kept { let to = WaitsAndCounts K.leads (S.rest change.old) in
        IsKeptAfter D.Disk disk.old disk.new K.shape K.leads to log.old log.new result }
    ensures any_moment { let to = WaitsAndCounts K.leads (S.rest change.old) in
        LeavesEither D.Disk disk.old disk.new K.shape K.leads to log.old }
    ensures same_bank { AtAnyMoment D.Disk disk.old disk.new (IsLive log.old.second) }
    ensures count { D.faults disk.old ≤ D.faults disk.new }
    ensures buffer { vec_capacity buffer.old ≤ vec_capacity buffer.new }
{
    match append_all(log, disk, buffer, change) {
        Ok(()) => Ok(()),
        Err(LogError::Disk) => Err(Failed),
        Err(LogError::NotAStore { at: _ } | LogError::Memory) => unreachable!(),
    }
}

/// Writes a whole state into the other bank and makes that bank live, in place of all bodies that the log has.
///
/// A crash at any moment leaves the state before or that one; after `Ok` it leaves that one, by these bodies. After an error the log is spent.
pub fn rewrite<K: LoggedState, D: Disk, S: Spelling>(
    log: &mut Log,
    disk: &mut D,
    buffer: &mut Vec<u8>,
    whole: &mut S,
) -> Result<(), Failed>
    requires ready { S.ready whole.old }
    requires buffer { S.capacity ≤ vec_capacity buffer.old }
    requires size { AllFit K.shape.largest (S.rest whole.old) }
    requires capacity { length (cells (S.rest whole.old)) + 1 ≤ K.shape.bank }
    requires kept { (state : K.State) × IsKeptBy D.Disk disk.old K.shape K.leads log.old state }
    ensures answer { let bodies = S.rest whole.old in
        Replaced log.old bodies (D.faults disk.old) (D.faults disk.new) result log.new }
    ensures kept { let to = LeadsAnew K.leads (S.rest whole.old) in
        IsKeptAfter D.Disk disk.old disk.new K.shape K.leads to log.old log.new result }
    ensures any_moment { let to = LeadsAnew K.leads (S.rest whole.old) in
        LeavesEither D.Disk disk.old disk.new K.shape K.leads to log.old }
    ensures bodies { TakesBodies D.Disk disk.old disk.new log.old log.new (S.rest whole.old) result }
    ensures count { D.faults disk.old ≤ D.faults disk.new }
    ensures buffer { vec_capacity buffer.old ≤ vec_capacity buffer.new }
{
    match rewrite_all(log, disk, buffer, whole) {
        Ok(()) => Ok(()),
        Err(LogError::Disk) => Err(Failed),
        Err(LogError::NotAStore { at: _ } | LogError::Memory) => unreachable!(),
    }
}
