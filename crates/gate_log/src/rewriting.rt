//! The other bank is written, and made live.
ghost use Rattle.std.specs.Prelude.{◌≡◌, [], ◌∷◌, ◌++◌, ◌+◌, ◌≤◌, ◌<◌, ◌^◌, max, not, replicate, take, length, IfSome, OnOk};
ghost use Rattle.dsc_outside.specs.Causes.{HasCause};
ghost use Rattle.gate_log.specs.Bytes.{Leaves, ReadsAfter, selector_of, with_put, with_switch, with_zeros};
ghost use Rattle.gate_log.specs.Text.{after_gate, need_of};
ghost use Rattle.gate_log.specs.Steps.{KeepsBytes, KeepsLive, KeepsTexts, LeavesEitherBank, LeavesLive, LeavesTexts, PutsCell, SwitchesBanks};

use crate::appending::fill;
use crate::through::{write_on, write_through};
use dsc_outside::{Disk, Failed};
use std::cmp::{max, min};

// How many zeros are written at once, at most.
const ZEROS: usize = 65_536;

/// How long the buffer is made for that many bytes, and for zeros in front of them, within its capacity.
pub(crate) fn with_zeros(size: usize, capacity: usize) -> usize
    requires { size ≤ capacity }
    ensures size { size ≤ result }
    ensures capacity { result ≤ capacity }
{
    max(size, min(capacity, ZEROS))
}

// Writes zeros from the disk's end up to a place, by way of the buffer.
fn fill_up<D: Disk>(disk: &mut D, buffer: &mut [u8], long: u64, to: u64) -> Result<(), Failed>
    requires long { IfSome (D.shown disk.old) (λ held. long ≡ length held) }
    requires buffer { 0 < length buffer.old }
    ensures size { length buffer.new ≡ length buffer.old }
    ensures long { OnOk result (IfSome (D.shown disk.new) (λ held. max long to ≡ length held)) }
    ensures bytes { OnOk result (ReadsAfter D.Disk disk.old disk.new (with_zeros to)) }
    ensures holds { KeepsBytes D.Disk disk.old disk.new result }
    ensures ok { KeepsTexts D.Disk disk.old disk.new long result }
    ensures any_moment { LeavesTexts D.Disk disk.old disk.new long }
    ensures cause { HasCause (D.faults disk.old) (D.faults disk.new) result }
{
    let capacity = zero_front(buffer);
    let mut end = long;
    while end < to {
        let size = piece(to - end, capacity);
        write_on(disk, end, &buffer[..size])?;
        end += size as u64;
    }
    Ok(())
}

// Makes the front of the buffer zeros, and gives how many these are.
fn zero_front(buffer: &mut [u8]) -> usize
    requires { 0 < length buffer.old }
    ensures size { length buffer.new ≡ length buffer.old }
    ensures zeros { take result buffer.new ≡ replicate result 0 }
    ensures some { 0 < result }
    ensures capacity { result ≤ length buffer.new }
{
    let capacity = min(buffer.len(), ZEROS);
    buffer[..capacity].fill(0);
    capacity
}

// How much of the rest is written at once.
fn piece(rest: u64, capacity: usize) -> usize
    requires rest { 0 < rest }
    requires capacity { 0 < capacity }
    ensures some { 0 < result }
    ensures rest { result ≤ rest }
    ensures capacity { result ≤ capacity }
{
    if (capacity as u64) < rest {
        capacity
    } else {
        rest as usize
    }
}

/// Puts the cell of a body after those that were put, with a closed gate after it.
pub(crate) fn put_cell<D: Disk>(
    disk: &mut D,
    buffer: &mut [u8],
    long: u64,
    at: u64,
    body: &[u8],
) -> Result<(), Failed>
    requires long { IfSome (D.shown disk.old) (λ held. long ≡ length held) }
    requires size { length body.now < 2 ^ 32 }
    requires buffer { length body.now + 6 ≤ length buffer.old }
    ensures long { let end = max (max long at) (at + 6 + length body.now) in
        OnOk result (IfSome (D.shown disk.new) (λ held. end ≡ length held)) }
    ensures holds { PutsCell D.Disk disk.old disk.new at body.now result }
    ensures bytes { OnOk result (ReadsAfter D.Disk disk.old disk.new (with_put at body.now)) }
    ensures ok { KeepsLive D.Disk disk.old disk.new long at (1 + need_of body.now) result }
    ensures any_moment { LeavesLive D.Disk disk.old disk.new long at (1 + need_of body.now) }
    ensures cause { HasCause (D.faults disk.old) (D.faults disk.new) result }
{
    fill_up(disk, buffer, long, at)?;
    let size = fill_cell(buffer, body);
    write_on(disk, at, &buffer[..size])
}

// Writes an open gate, the length, the body and a closed gate into the buffer, and gives how many bytes these are.
fn fill_cell(buffer: &mut [u8], body: &[u8]) -> usize
    requires size { length body.now < 2 ^ 32 }
    requires capacity { length body.now + 6 ≤ length buffer.old }
    ensures size { result ≡ length body.now + 6 }
    ensures cell { take result buffer.new ≡ 165 ∷ (after_gate body.now ++ 0 ∷ []) }
{
    buffer[0] = 0xA5;
    fill(&mut buffer[1..], body) + 1
}

/// Writes the closed gate and, once it is on the disk, the selector.
pub(crate) fn finish_cells<D: Disk>(
    disk: &mut D,
    buffer: &mut [u8],
    long: u64,
    at: u64,
    second: bool,
) -> Result<(), Failed>
    requires long { IfSome (D.shown disk.old) (λ held. long ≡ length held) }
    requires buffer { 0 < length buffer.old }
    requires place { 8 ≤ at }
    ensures long { OnOk result (IfSome (D.shown disk.new) (λ held. max long (at + 1) ≡ length held)) }
    ensures ok { SwitchesBanks D.Disk disk.old disk.new long at second result }
    ensures bytes { OnOk result (Leaves D.Disk disk.old disk.new (with_switch at (not second))) }
    ensures any_moment { LeavesEitherBank D.Disk disk.old disk.new long at second }
    ensures cause { HasCause (D.faults disk.old) (D.faults disk.new) result }
{
    fill_up(disk, buffer, long, at)?;
    write_through(disk, at, &[0])?;
    write_through(disk, 7, &[selector(!second)])
}

// The selector that makes a bank live.
fn selector(second: bool) -> u8
    ensures { result ≡ selector_of second }
{
    if second { 0x32 } else { 0x31 }
}
