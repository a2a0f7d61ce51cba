//! An event is added to the live bank: a Format where the bank is empty, the Blobs that it lacks, and the event.
ghost use Rattle.std.specs.Prelude.{◌≡◌, ◌+◌, ◌<◌, ◌≤◌, ◌^◌, ◌↔◌, ◌++◌, ℕ, List, IsTrue, OnOk, false, length, vec_capacity};
ghost use Rattle.gate_log.specs.Text.{AllFit, cells, need_of};
ghost use Rattle.gate_log.specs.Log.{Appended, IsLogOf, capacity_in};
ghost use Rattle.gate_log.specs.Calls.{AddsBody, LeavesWithOrWithout, StaysInBank};
ghost use Rattle.gate_log.specs.Kept.{Added};
ghost use Rattle.gate_log.specs.Several.{AddsBodies, AppendedAll, LeavesFront};
ghost use Rattle.store_fields.specs.Writing.{Writes};
ghost use Rattle.node_state.specs.Table.{IsWithin};
ghost use Rattle.node_store.specs.Bodies.{BringsText, IsEventInRange};
ghost use Rattle.node_store.specs.Digests.{blob_body};
ghost use Rattle.node_store.specs.Growing.{added_bodies, after_length, blob_head, bodies_of_format, bytes_in, event_body, need_to_add};
ghost use Rattle.node_store.specs.declared.limits.TheConstants.{MAX_BODY};

use crate::blob::Blob;
use crate::digests::look_at_digests;
use crate::spelling::put_event_after_length;
use dsc_outside::{Disk, Failed};
use gate_log::{CELL_HEAD, Log, LogError};
use mof_values::Memory;
use node_state::Event;
use store_fields::{put_byte, put_bytes, put_digest};

/// Adds to the live bank a Format, where it is empty, the bodies of these Blobs, and that of the event; `text` is the canonical text of
/// the meta-configuration that the event brings, if it brings one.
pub fn add<D: Disk>(
    log: &mut Log,
    disk: &mut D,
    buffer: &mut Vec<u8>,
    empty: bool,
    blobs: &[Blob],
    event: &Event,
    text: &[u8],
) -> Result<(), Failed>
    requires within { IsWithin event.now }
    requires text { BringsText event.now text.now }
    requires buffer { MAX_BODY ≤ vec_capacity buffer.old }
    requires size { AllFit log.old.shape.largest (added_bodies empty (bytes_in blobs.now) event.now) }
    requires capacity { length (cells (added_bodies empty (bytes_in blobs.now) event.now)) ≤ capacity_in log.old }
    requires unspent { log.old.spent ≡ false }
    requires of { (bodies : List (List ℕ)) × IsLogOf D.Disk disk.old log.old bodies }
    ensures answer { Added log.old (added_bodies empty (bytes_in blobs.now) event.now) (D.faults disk.old) (D.faults disk.new) result log.new }
    ensures ok { (bodies : List (List ℕ)) → IsLogOf D.Disk disk.old log.old bodies → OnOk result (IsLogOf D.Disk disk.new log.new (bodies ++ added_bodies empty (bytes_in blobs.now) event.now)) }
    ensures any_moment { LeavesFront D.Disk disk.old disk.new log.old (added_bodies empty (bytes_in blobs.now) event.now) }
    ensures same_bank { StaysInBank D.Disk disk.old disk.new log.old }
    ensures count { D.faults disk.old ≤ D.faults disk.new }
    ensures buffer { MAX_BODY ≤ vec_capacity buffer.new }
{
    match append_all(log, disk, buffer, empty, blobs, event, text) {
        Ok(()) => Ok(()),
        Err(LogError::Disk) => Err(Failed),
        Err(LogError::NotAStore { at: _ } | LogError::Memory) => unreachable!(),
    }
}

fn append_all<D: Disk>(
    log: &mut Log,
    disk: &mut D,
    buffer: &mut Vec<u8>,
    empty: bool,
    blobs: &[Blob],
    event: &Event,
    text: &[u8],
) -> Result<(), LogError>
    requires within { IsWithin event.now }
    requires text { BringsText event.now text.now }
    requires buffer { MAX_BODY ≤ vec_capacity buffer.old }
    requires size { AllFit log.old.shape.largest (added_bodies empty (bytes_in blobs.now) event.now) }
    requires capacity { length (cells (added_bodies empty (bytes_in blobs.now) event.now)) ≤ capacity_in log.old }
    requires unspent { log.old.spent ≡ false }
    requires of { (bodies : List (List ℕ)) × IsLogOf D.Disk disk.old log.old bodies }
    ensures answer { AppendedAll log.old (added_bodies empty (bytes_in blobs.now) event.now) (D.faults disk.old) (D.faults disk.new) result log.new }
    ensures ok { AddsBodies D.Disk disk.old disk.new log.old log.new (added_bodies empty (bytes_in blobs.now) event.now) result }
    ensures any_moment { LeavesFront D.Disk disk.old disk.new log.old (added_bodies empty (bytes_in blobs.now) event.now) }
    ensures same_bank { StaysInBank D.Disk disk.old disk.new log.old }
    ensures count { D.faults disk.old ≤ D.faults disk.new }
    ensures buffer { MAX_BODY ≤ vec_capacity buffer.new }
{
    append_format(log, disk, empty)?;
    let mut left = blobs;
    while let [blob, rest @ ..] = left {
        append_blob(log, disk, buffer, blob)?;
        left = rest;
    }
    spell(buffer, event, text);
    log.append_in_place(disk, buffer, &[])
}

// Adds the body of a Format to an empty bank.
fn append_format<D: Disk>(log: &mut Log, disk: &mut D, empty: bool) -> Result<(), LogError>
    requires size { AllFit log.old.shape.largest (bodies_of_format empty) }
    requires capacity { length (cells (bodies_of_format empty)) ≤ capacity_in log.old }
    requires unspent { log.old.spent ≡ false }
    requires of { (bodies : List (List ℕ)) × IsLogOf D.Disk disk.old log.old bodies }
    ensures answer { AppendedAll log.old (bodies_of_format empty) (D.faults disk.old) (D.faults disk.new) result log.new }
    ensures ok { AddsBodies D.Disk disk.old disk.new log.old log.new (bodies_of_format empty) result }
    ensures any_moment { LeavesFront D.Disk disk.old disk.new log.old (bodies_of_format empty) }
    ensures same_bank { StaysInBank D.Disk disk.old disk.new log.old }
    ensures count { D.faults disk.old ≤ D.faults disk.new }
{
    if empty {
        log.append(disk, &[15, 2])
    } else {
        Ok(())
    }
}

// Adds the body of a Blob.
fn append_blob<D: Disk>(
    log: &mut Log,
    disk: &mut D,
    buffer: &mut Vec<u8>,
    blob: &Blob,
) -> Result<(), LogError>
    requires buffer { MAX_BODY ≤ vec_capacity buffer.old }
    requires size { length (blob_body blob.now.bytes) ≤ log.old.shape.largest }
    requires capacity { need_of (blob_body blob.now.bytes) ≤ capacity_in log.old }
    requires unspent { log.old.spent ≡ false }
    requires of { (bodies : List (List ℕ)) × IsLogOf D.Disk disk.old log.old bodies }
    ensures answer { Appended log.old (blob_body blob.now.bytes) (D.faults disk.old) (D.faults disk.new) result log.new }
    ensures ok { AddsBody D.Disk disk.old disk.new log.old log.new (blob_body blob.now.bytes) result }
    ensures any_moment { LeavesWithOrWithout D.Disk disk.old disk.new log.old (blob_body blob.now.bytes) }
    ensures same_bank { StaysInBank D.Disk disk.old disk.new log.old }
    ensures count { D.faults disk.old ≤ D.faults disk.new }
    ensures buffer { MAX_BODY ≤ vec_capacity buffer.new }
{
    spell_blob_head(buffer, blob);
    log.append_in_place(disk, buffer, blob.bytes.as_slice())
}

// Leaves in the buffer four bytes, which the log fills, and the kind and the digest of a Blob.
fn spell_blob_head(buffer: &mut Vec<u8>, blob: &Blob)
    requires { MAX_BODY ≤ vec_capacity buffer.old }
    ensures head { buffer.new.items ≡ after_length (blob_head blob.now.bytes) }
    ensures buffer { MAX_BODY ≤ vec_capacity buffer.new }
{
    buffer.clear();
    match put_blob_head(buffer, blob) {
        Ok(()) => {}
        Err(_) => unreachable!(),
    }
}

fn put_blob_head(into: &mut Vec<u8>, blob: &Blob) -> Result<(), Memory>
    ensures writes { Writes (after_length (blob_head blob.now.bytes)) into.old into.new result }
{
    put_bytes(into, &[0; 4])?;
    put_byte(into, 16)?;
    put_digest(into, &blob.digest)
}

/// Leaves in the buffer four bytes, which the log fills, and the body of the event, that of a Stage by digests.
#[tactic(auto, using(crate::proofs::AddedByDigests::event_small))]
pub fn spell(buffer: &mut Vec<u8>, event: &Event, text: &[u8])
    requires within { IsWithin event.now }
    requires text { BringsText event.now text.now }
    requires capacity { MAX_BODY ≤ vec_capacity buffer.old }
    ensures body { buffer.new.items ≡ after_length (event_body event.now) }
    ensures range { IsEventInRange event.now }
    ensures small { need_of (event_body event.now) ≤ MAX_BODY }
    ensures capacity { MAX_BODY ≤ vec_capacity buffer.new }
{
    look_at_digests(event);
    buffer.clear();
    match put_event_after_length(buffer, event, text) {
        Ok(()) => {}
        Err(_) => unreachable!(),
    }
}

/// Whether the live bank has room for a Format, where it is empty, the bodies of these Blobs and one more of that many bytes.
pub fn has_room(log: &Log, empty: bool, blobs: &[Blob], last: usize) -> bool
    requires { need_to_add empty (bytes_in blobs.now) last < 2 ^ 32 }
    ensures { IsTrue result ↔ (need_to_add empty (bytes_in blobs.now) last ≤ capacity_in log.now) }
{
    let (mut need, mut left) = (need_of_format(empty) + last, blobs);
    while let [blob, rest @ ..] = left {
        need += BLOB_HEAD + blob.bytes.as_slice().len();
        left = rest;
    }
    log.has_room(need as u32)
}

// The bytes of a Format's cell.
fn need_of_format(empty: bool) -> usize
    ensures { result ≡ length (cells (bodies_of_format empty)) }
{
    if empty { CELL_HEAD as usize + 2 } else { 0 }
}

// The bytes of a Blob's cell before its own: the gate, the length, the kind and the digest.
const BLOB_HEAD: usize = 38;
