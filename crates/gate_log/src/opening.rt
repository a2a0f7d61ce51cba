//! A store is opened.
ghost use Rattle.std.specs.Prelude.{◌≡◌, ◌≢◌, ◌+◌, ◌≤◌, ◌<◌, ◌^◌, [], ◌∷◌, ◌++◌, length, take, get_or, IfOk, IfErr, OnOk, IfSome, IfNone, vec_capacity};
ghost use Rattle.dsc_terms.specs.Counts.{Rose};
ghost use Rattle.dsc_outside.specs.Causes.{HasCause};
ghost use Rattle.dsc_outside.specs.Disk.{Each, From, Only, AnyMoment, Still};
ghost use Rattle.gate_log.specs.Bytes.{Leaves, new_store};
ghost use Rattle.gate_log.specs.Text.{IsLive, magic};
ghost use Rattle.gate_log.specs.Kept.{IsOpenedBy, KeepsValues, ReadsTo, RefusesOnly, StandsBy, UnopenedBy};
ghost use Rattle.gate_log.specs.Log.{AtAnyMoment, Keeps};
ghost use Rattle.gate_log.specs.Replay.{FailsFirst, Opened, Unopened};
ghost use Rattle.gate_log.specs.Opening.{FailsInHead, Replayed, StillWhereRefused};
ghost use Rattle.gate_log.specs.Steps.{Unread};

use crate::error::LogError;
use crate::log::Log;
use crate::logged_state::LoggedState;
use crate::reading::read_cells;
use crate::replay::Replay;
use crate::shape::Shape;
use crate::through::{cut_through, length_of, read_from, settle};
use dsc_outside::{Disk, Failed};
use std::alloc::Global;

// "DSCSTOR"
const MAGIC: [u8; 7] = [0x44, 0x53, 0x43, 0x53, 0x54, 0x4F, 0x52];

// These, the selector of the first bank, and a closed gate.
const NEW: [u8; 9] = [0x44, 0x53, 0x43, 0x53, 0x54, 0x4F, 0x52, 0x31, 0x00];

// A new file.
fn make_new<D: Disk>(disk: &mut D) -> Result<(), Failed>
    ensures ok { OnOk result (Each (D.images disk.new) (λ c. c ≡ new_store)) }
    ensures shown { OnOk result (IfSome (D.shown disk.new) (λ held. 9 ≡ length held)) }
    ensures bytes { OnOk result (Leaves D.Disk disk.old disk.new (λ held. new_store)) }
    ensures any_moment { Each (D.images disk.old) (λ c. length c ≤ 9) → AnyMoment D.moment D.left_since disk.old disk.new (From (λ d c. length c ≤ 9) (D.images disk.old)) }
    ensures cause { HasCause (D.faults disk.old) (D.faults disk.new) result }
{
    disk.write_at(0, &NEW)?;
    cut_through(disk, 9)
}

// The place of the first byte that is none of the seven.
fn wrong_magic(head: &[u8]) -> Option<u64>
    requires { length head.now ≡ 7 }
    ensures none { IfNone result (head.now ≡ magic) }
    ensures some { IfSome result (λ at. (at < 7) × (take at head.now ≡ take at magic) × (get_or head.now at 0 ≢ get_or magic at 0)) }
{
    for at in 0..7 {
        if head[at] != MAGIC[at] {
            return Some(at as u64);
        }
    }
    None
}

// Which bank the store makes live.
fn read_head<D: Disk>(disk: &mut D, shape: Shape) -> Result<bool, LogError>
    requires long { IfSome (D.shown disk.old) (λ held. 9 < length held) }
    ensures still { Still D.shown D.images D.moment D.left_since disk.old disk.new }
    ensures head { IfOk result (λ second. IfSome (D.shown disk.old) (IsLive second)) }
    ensures cause { IfErr result (Unread (Rose (D.faults disk.old) (D.faults disk.new)) (D.shown disk.old) (FailsInHead shape)) }
    ensures count { D.faults disk.old ≤ D.faults disk.new }
{
    let mut head = [0; 7];
    let n = read_from(disk, 0, &mut head)?;
    if n < 7 {
        return Err(LogError::NotAStore { at: n as u64 });
    }
    if let Some(at) = wrong_magic(&head) {
        return Err(LogError::NotAStore { at });
    }
    let mut selector = [0; 1];
    let n = read_from(disk, 7, &mut selector)?;
    if n < 1 {
        return Err(LogError::NotAStore { at: 7 });
    }
    Ok(selector[0] == 0x32)
}

// The bodies of a store are handed on, and its end is cut after the closed gate.
fn replay_old<D: Disk, R: Replay>(
    disk: &mut D,
    shape: Shape,
    end: u64,
    buffer: &mut Vec<u8>,
    replay: &mut R,
) -> Result<(bool, u64), LogError>
    requires only { Only (D.shown disk.old) (D.images disk.old) }
    requires end { IfSome (D.shown disk.old) (λ held. end ≡ length held) }
    requires long { 9 < end }
    requires small { shape.largest < 2 ^ 32 }
    requires some { 1 ≤ shape.bank }
    requires bank { shape.bank ≤ 2 ^ 62 }
    requires capacity { shape.largest ≤ vec_capacity buffer.old }
    requires first { R.took replay.old [] }
    ensures ok { IfOk result (λ r. Replayed D.Disk disk.old disk.new shape (R.took replay.new) r.0 r.1) }
    ensures shown { IfOk result (λ r. IfSome (D.shown disk.new) (λ held. r.1 + 1 ≡ length held)) }
    ensures bytes { IfOk result (λ r. Leaves D.Disk disk.old disk.new (take (r.1 + 1))) }
    ensures within { IfOk result (λ r. r.1 + 1 < 2 ^ 64) }
    ensures capacity { vec_capacity buffer.old ≤ vec_capacity buffer.new }
    ensures any_moment { AnyMoment D.moment D.left_since disk.old disk.new (From (Keeps shape) (D.images disk.old)) }
    ensures still { IfErr result (StillWhereRefused D.Disk disk.old disk.new) }
    ensures cause { IfErr result (Unread (Rose (D.faults disk.old) (D.faults disk.new)) (D.shown disk.old) (FailsFirst shape (R.took replay.new) (R.refused replay.new))) }
    ensures count { D.faults disk.old ≤ D.faults disk.new }
{
    let second = read_head(disk, shape)?;
    let closed = read_cells(disk, shape, second, end, buffer, replay)?;
    cut_through(disk, closed + 1)?;
    Ok((second, closed))
}

/// Opens the store of a disk, and hands its bodies on one after the other, each as soon as it is read; a file of at most nine
/// bytes becomes a new store.
///
/// After `Ok` the log is of the disk, with the bodies that the disk read as, and all of them were taken. `NotAStore` names the
/// first failure in the order of the file: the byte at which the grammar fails, or the first byte of a body that was refused.
/// Then the file is as it was. A crash at any moment leaves what an image gave before.
///
/// The memory is the capacity for one cell, touched up to the longest body that is read, and what the replay takes.
pub fn replay_log<D: Disk, R: Replay>(
    alloc: Global,
    disk: &mut D,
    shape: Shape,
    replay: &mut R,
) -> Result<Log, LogError>
    requires some { 1 ≤ shape.bank }
    requires bank { shape.bank ≤ 2 ^ 62 }
    requires first { R.took replay.old [] }
    ensures ok { IfOk result (Opened D.Disk disk.old disk.new shape (R.took replay.new)) }
    ensures refused { let took = R.took replay.new in
        IfErr result (Unopened D.Disk disk.old disk.new shape took (R.refused replay.new)) }
    ensures any_moment { AtAnyMoment D.Disk disk.old disk.new
        (From (Keeps shape) (D.images disk.old)) }
    ensures count { D.faults disk.old ≤ D.faults disk.new }
{
    let mut buffer = Vec::with_capacity(alloc, shape.largest as usize + 6)?;
    settle(disk)?;
    let end = length_of(disk)?;
    if end <= 9 {
        make_new(disk)?;
        return Ok(Log::of(shape, false, 8, buffer));
    }
    let (second, closed) = replay_old(disk, shape, end, &mut buffer, replay)?;
    Ok(Log::of(shape, second, closed, buffer))
}

/// Opens the store of a disk, of a state that is kept as bodies, as `replay_log` does.
///
/// After `Ok` the store is of the disk, with the state that the disk read as; `NotAStore` comes where it stands for none. A crash at
/// any moment leaves an image that stands for what one stood for before.
pub fn open_kept<K: LoggedState, D: Disk, R: Replay>(
    alloc: Global,
    disk: &mut D,
    shape: Shape,
    replay: &mut R,
) -> Result<Log, LogError>
    requires shape { K.shape ≡ shape }
    requires some { 1 ≤ shape.bank }
    requires bank { shape.bank ≤ 2 ^ 62 }
    requires first { R.took replay.old [] }
    ensures opened { IfOk result (λ log. (state : K.State)
        → ReadsTo K.leads (R.took replay.new) state
        → IsOpenedBy D.Disk disk.old disk.new K.shape K.leads log state) }
    ensures cause { IfErr result (λ error. (state : K.State)
        → ReadsTo K.leads (R.took replay.new) state → RefusesOnly K.leads (R.refused replay.new)
        → UnopenedBy D.Disk disk.old disk.new K.shape K.leads error) }
    ensures any_moment { AtAnyMoment D.Disk disk.old disk.new
        (From (KeepsValues (StandsBy K.shape K.leads)) (D.images disk.old)) }
    ensures count { D.faults disk.old ≤ D.faults disk.new }
{
    replay_log(alloc, disk, shape, replay)
}
