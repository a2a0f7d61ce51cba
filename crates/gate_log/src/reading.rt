//! The cells of a bank, read one by one and handed on.
ghost use Rattle.std.specs.Prelude.{◌≡◌, ◌+◌, ◌≤◌, ◌<◌, ◌^◌, ◌∷◌, ◌++◌, [], ℕ, List, length, drop, take, IfOk, IfErr, IfSome, OnOk, option_map, vec_capacity};
ghost use Rattle.std.specs.Int.{w32, to_be_bytes};
ghost use Rattle.dsc_terms.specs.Counts.{Rose};
ghost use Rattle.dsc_outside.specs.Causes.{HasCause};
ghost use Rattle.dsc_outside.specs.Disk.{Still};
ghost use Rattle.gate_log.specs.Opening.{FailsInOrder, HandedOn, Untaken};
ghost use Rattle.gate_log.specs.Steps.{StandsAt, Unread};
ghost use Rattle.gate_log.specs.Text.{FailsFrom, begin};

use crate::error::LogError;
use crate::replay::{Replay, TakeError};
use crate::shape::{Shape, begin};
use crate::through::read_from;
use dsc_outside::{Disk, Failed};

/// Makes the buffer at least so long, within its capacity.
pub(crate) fn lengthen(buffer: &mut Vec<u8>, size: usize)
    requires { size ≤ vec_capacity buffer.old }
    ensures size { size ≤ length buffer.new.items }
    ensures capacity { vec_capacity buffer.old ≤ vec_capacity buffer.new }
{
    if buffer.len() < size {
        let Ok(()) = buffer.resize(size, 0) else {
            unreachable!()
        };
    }
}

// The length in the head of a cell.
fn length_in(head: &[u8]) -> u32
    requires { length head.now ≡ 5 }
    ensures { to_be_bytes w32 result ≡ drop 1 head.now }
{
    u32::from_be_bytes([head[1], head[2], head[3], head[4]])
}

// Reads that many bytes, or as many as there are, into the front of the buffer.
fn read_front<D: Disk>(
    disk: &mut D,
    at: u64,
    size: usize,
    buffer: &mut [u8],
) -> Result<usize, Failed>
    requires capacity { size ≤ length buffer.old }
    ensures size { IfOk result (λ n. n ≤ size) }
    ensures bytes { IfOk result (λ n. IfSome (D.shown disk.old) (λ held. take n (take size buffer.new) ≡ take size (drop at held))) }
    ensures capacity { length buffer.new ≡ length buffer.old }
    ensures still { Still D.shown D.images D.moment D.left_since disk.old disk.new }
    ensures cause { HasCause (D.faults disk.old) (D.faults disk.new) result }
{
    read_from(disk, at, &mut buffer[..size])
}

// Reads the body of the cell at this place into the buffer, and gives its length, or None at a closed gate. A cell ends, with
// one gate after it, within the limit.
fn read_cell<D: Disk>(
    disk: &mut D,
    largest: u32,
    at: u64,
    end: u64,
    limit: u64,
    buffer: &mut Vec<u8>,
) -> Result<Option<usize>, LogError>
    requires inside { at < limit }
    requires end { IfSome (D.shown disk.old) (λ held. end ≡ length held) }
    requires capacity { largest ≤ vec_capacity buffer.old }
    ensures still { Still D.shown D.images D.moment D.left_since disk.old disk.new }
    ensures cell { IfOk result (λ cell. IfSome (D.shown disk.old) (λ held. StandsAt largest at held (option_map (λ n. take n buffer.new.items) cell))) }
    ensures read { IfOk result (λ cell. IfSome cell (λ n. n ≤ length buffer.new.items)) }
    ensures within { IfOk result (λ cell. IfSome cell (λ n. at + 5 + n ≤ end)) }
    ensures fits { IfOk result (λ cell. IfSome cell (λ n. at + 5 + n < limit)) }
    ensures before { IfOk result (λ cell. at < end) }
    ensures capacity { vec_capacity buffer.old ≤ vec_capacity buffer.new }
    ensures cause { IfErr result (Unread (Rose (D.faults disk.old) (D.faults disk.new)) (D.shown disk.old) (FailsFrom largest limit at)) }
    ensures count { D.faults disk.old ≤ D.faults disk.new }
{
    let mut head = [0; 5];
    let n = read_from(disk, at, &mut head)?;
    if n == 0 || end <= at {
        return Err(LogError::NotAStore { at: end });
    }
    if head[0] != 0xA5 {
        return Ok(None);
    }
    if n < 5 || end < at || end - at < 5 {
        return Err(LogError::NotAStore { at: end });
    }
    let size = length_in(&head);
    if size > largest || limit - at < 6 || (size as u64) > limit - at - 6 {
        return Err(LogError::NotAStore { at: at + 1 });
    }
    if (size as u64) > end - at - 5 {
        return Err(LogError::NotAStore { at: end });
    }
    let size = size as usize;
    lengthen(buffer, size);
    let got = read_front(disk, at + 5, size, buffer)?;
    if got < size {
        return Err(LogError::NotAStore { at: end });
    }
    Ok(Some(size))
}

// Hands the body of the cell at this place on.
fn hand_on<R: Replay>(replay: &mut R, at: u64, body: &[u8]) -> Result<(), LogError>
    requires fits { at + 5 < 2 ^ 64 }
    requires so_far { (bodies : List (List ℕ)) × R.took replay.old bodies }
    ensures taken { (bodies : List (List ℕ)) → R.took replay.old bodies → OnOk result (R.took replay.new (bodies ++ body.now ∷ [])) }
    ensures refused { (bodies : List (List ℕ)) → R.took replay.old bodies → IfErr result (Untaken (R.refused replay.new bodies body.now) at) }
{
    match replay.take(body) {
        Ok(()) => Ok(()),
        Err(TakeError::Refused) => Err(LogError::NotAStore { at: at + 5 }),
        Err(TakeError::Memory) => Err(LogError::Memory),
    }
}

/// Hands all bodies of a bank on, by way of the buffer, and gives the place of its closed gate.
pub(crate) fn read_cells<D: Disk, R: Replay>(
    disk: &mut D,
    shape: Shape,
    second: bool,
    end: u64,
    buffer: &mut Vec<u8>,
    replay: &mut R,
) -> Result<u64, LogError>
    requires some { 1 ≤ shape.bank }
    requires bank { shape.bank ≤ 2 ^ 62 }
    requires end { IfSome (D.shown disk.old) (λ held. end ≡ length held) }
    requires capacity { shape.largest ≤ vec_capacity buffer.old }
    requires first { R.took replay.old [] }
    ensures still { Still D.shown D.images D.moment D.left_since disk.old disk.new }
    ensures cells { IfOk result (HandedOn shape second (D.shown disk.old) (R.took replay.new)) }
    ensures before { IfOk result (λ at. at < end) }
    ensures capacity { vec_capacity buffer.old ≤ vec_capacity buffer.new }
    ensures cause { IfErr result (Unread (Rose (D.faults disk.old) (D.faults disk.new)) (D.shown disk.old) (FailsInOrder shape second (R.took replay.new) (R.refused replay.new))) }
    ensures count { D.faults disk.old ≤ D.faults disk.new }
{
    let mut at = begin(shape, second);
    let limit = at + shape.bank;
    while let Some(size) = read_cell(disk, shape.largest, at, end, limit, buffer)? {
        hand_on(replay, at, &buffer[..size])?;
        at += size as u64 + 5;
    }
    Ok(at)
}
