//! A cell is written after the closed gate of the live bank.
ghost use Rattle.std.specs.Prelude.{◌≡◌, [], ◌∷◌, ◌++◌, ℕ, ◌+◌, ◌≤◌, ◌<◌, ◌^◌, min, option_map, take, Bool, List, length, IfSome, OnOk};
ghost use Rattle.dsc_outside.specs.Causes.{HasCause};
ghost use Rattle.dsc_outside.specs.Disk.{Only, written};
ghost use Rattle.gate_log.specs.declared.appending.TheConstants.{AT_ONCE};
ghost use Rattle.gate_log.specs.declared.shape.Shape.{Shape};
ghost use Rattle.gate_log.specs.Bytes.{Leaves, with_cell};
ghost use Rattle.gate_log.specs.Text.{after_gate, body_in, need_of};
ghost use Rattle.gate_log.specs.Steps.{AppendsCell, AreTexts, LeavesCell, LeavesSpelled, Reaches, StayTexts, WritesCell};

use crate::through::{write_on, write_through};
use dsc_outside::{Disk, Failed};

/// A body of at most 65,536 bytes is written at once, with its length and the closed gate after it.
pub(crate) const AT_ONCE: usize = 4 + 65_536 + 1;

/// Writes the length, the body and a closed gate into the buffer, and gives how many bytes these are.
pub(crate) fn fill(buffer: &mut [u8], body: &[u8]) -> usize
    requires capacity { length body.now + 5 ≤ length buffer.old }
    requires size { length body.now < 2 ^ 32 }
    ensures size { result ≡ length body.now + 5 }
    ensures cell { take result buffer.new ≡ after_gate body.now ++ 0 ∷ [] }
{
    join(buffer, &(body.len() as u32).to_be_bytes(), body)
}

// Writes the two pieces of a cell and a closed gate into the buffer, and gives how many bytes these are.
fn join(buffer: &mut [u8], head: &[u8], tail: &[u8]) -> usize
    requires capacity { length head.now + length tail.now + 1 ≤ length buffer.old }
    ensures size { result ≡ length head.now + length tail.now + 1 }
    ensures cell { take result buffer.new ≡ (head.now ++ tail.now) ++ 0 ∷ [] }
{
    let middle = head.len();
    let end = middle + tail.len();
    buffer[..middle].copy_from_slice(head);
    buffer[middle..end].copy_from_slice(tail);
    buffer[end] = 0;
    end + 1
}

/// Adds the cell of a body after the closed gate at this place, by way of the buffer.
pub(crate) fn append_cell<D: Disk>(
    disk: &mut D,
    closed: u64,
    buffer: &mut [u8],
    body: &[u8],
) -> Result<(), Failed>
    requires fits { closed + 1 < 2 ^ 64 }
    requires size { length body.now < 2 ^ 32 }
    requires buffer { length body.now + 5 ≤ length buffer.old }
    requires capacity { IfSome (D.shown disk.old) (λ held. closed + 1 ≤ length held) }
    ensures ok { AppendsCell D.Disk disk.old disk.new closed body.now result }
    ensures any_moment { LeavesCell D.Disk disk.old disk.new closed body.now }
    ensures long { Reaches D.Disk disk.old disk.new (closed + 1 + need_of body.now) result }
    ensures bytes { OnOk result (Leaves D.Disk disk.old disk.new (with_cell closed body.now)) }
    ensures cause { HasCause (D.faults disk.old) (D.faults disk.new) result }
{
    let size = fill(buffer, body);
    write_cell(disk, closed, &buffer[..size])
}

/// Writes the length of the body into the first four bytes of `head`, and adds its cell after the closed gate at this place. The
/// body is what stands in `head` after these bytes, and then `tail`. A short one is written at once by way of the buffer, a long
/// one from where it lies.
pub(crate) fn append_cell_in_place<D: Disk>(
    disk: &mut D,
    closed: u64,
    buffer: &mut [u8],
    head: &mut [u8],
    tail: &[u8],
) -> Result<(), Failed>
    requires fits { closed + 2 + length head.old + length tail.now < 2 ^ 64 }
    requires whole { 4 ≤ length head.old }
    requires size { length head.old + length tail.now < 2 ^ 32 + 4 }
    requires buffer { min (length head.old + length tail.now + 1) AT_ONCE ≤ length buffer.old }
    requires capacity { IfSome (D.shown disk.old) (λ held. closed + 1 ≤ length held) }
    ensures ok { let body = body_in head.old tail.now in
        AppendsCell D.Disk disk.old disk.new closed body result }
    ensures any_moment { let body = body_in head.old tail.now in
        LeavesCell D.Disk disk.old disk.new closed body }
    ensures long { let body = body_in head.old tail.now in
        Reaches D.Disk disk.old disk.new (closed + 1 + need_of body) result }
    ensures bytes { let body = body_in head.old tail.now in
        OnOk result (Leaves D.Disk disk.old disk.new (with_cell closed body)) }
    ensures cause { HasCause (D.faults disk.old) (D.faults disk.new) result }
    ensures left { head.new ++ tail.now ≡ after_gate (body_in head.old tail.now) }
{
    number(head, tail.len());
    if head.len() + tail.len() < AT_ONCE {
        let size = join(buffer, head, tail);
        return write_cell(disk, closed, &buffer[..size]);
    }
    stage_cell(disk, closed, head, tail)?;
    write_through(disk, closed, &[0xA5])
}

// The length of a body whose second piece has that many bytes is written before its first.
fn number(head: &mut [u8], more: usize)
    requires whole { 4 ≤ length head.old }
    requires size { length head.old + more < 2 ^ 32 + 4 }
    ensures { (tail : List ℕ) → more ≡ length tail
        → head.new ++ tail ≡ after_gate (body_in head.old tail) }
{
    let length = (head.len() - 4 + more) as u32;
    head[..4].copy_from_slice(&length.to_be_bytes());
}

// The two pieces of a cell and a closed gate are written after the closed gate, and are on the disk.
fn stage_cell<D: Disk>(disk: &mut D, closed: u64, head: &[u8], tail: &[u8]) -> Result<(), Failed>
    requires fits { closed + 2 + length head.now + length tail.now < 2 ^ 64 }
    requires capacity { IfSome (D.shown disk.old) (λ held. closed + 1 ≤ length held) }
    ensures written { let cell = (head.now ++ tail.now) ++ 0 ∷ [] in
        OnOk result (D.shown disk.new ≡ option_map (written (closed + 1) cell) (D.shown disk.old)) }
    ensures only { OnOk result (Only (D.shown disk.new) (D.images disk.new)) }
    ensures any_moment { (shape : Shape) (second : Bool) (bodies : List (List ℕ))
        → AreTexts D.Disk disk.old shape second closed bodies
        → StayTexts D.Disk disk.old disk.new shape second closed bodies }
    ensures cause { HasCause (D.faults disk.old) (D.faults disk.new) result }
{
    let middle = closed + 1 + head.len() as u64;
    write_on(disk, closed + 1, head)?;
    write_on(disk, middle, tail)?;
    write_through(disk, middle + tail.len() as u64, &[0])
}

// The cell is written after the closed gate, and its own gate is opened once it is on the disk.
fn write_cell<D: Disk>(disk: &mut D, closed: u64, cell: &[u8]) -> Result<(), Failed>
    requires fits { closed + 1 < 2 ^ 64 }
    requires capacity { IfSome (D.shown disk.old) (λ held. closed + 1 ≤ length held) }
    ensures ok { WritesCell D.Disk disk.old disk.new closed cell.now result }
    ensures any_moment { LeavesSpelled D.Disk disk.old disk.new closed cell.now }
    ensures long { Reaches D.Disk disk.old disk.new (closed + 1 + length cell.now) result }
    ensures bytes { OnOk result (Leaves D.Disk disk.old disk.new (written closed (165 ∷ cell.now))) }
    ensures cause { HasCause (D.faults disk.old) (D.faults disk.new) result }
{
    write_through(disk, closed + 1, cell)?;
    write_through(disk, closed, &[0xA5])
}
