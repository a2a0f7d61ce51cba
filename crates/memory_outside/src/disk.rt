//! A disk in memory.
ghost use Rattle.std.specs.Prelude.{◌≡◌, ◌≤◌, ◌-◌, List, ℕ, length, min, take, drop, IfOk, is_ok, OnErr, OnOk, None, Some};
ghost use Rattle.dsc_outside.specs.Causes.{HasCause};
ghost use Rattle.dsc_outside.specs.Disk.{written, Torn, Cut, Follows, Makes, Only, ReadsFrom, TimePasses, Within};
ghost use Rattle.dsc_outside.specs.Images.{IsImage};
ghost use Rattle.memory_outside.specs.MemoryDisk.{Looks, TakesCall, exposed_bytes, held_by, images_of, left_at, left_by, moment_of, new_disk, part_left, part_of_stop, state_of, stop_of};
ghost use Rattle.memory_outside.specs.StoppedDisk.{met};
ghost use Rattle.memory_outside.specs.declared.disk_calls.DiskCall.{DiskCall};
ghost use Rattle.memory_outside.specs.declared.disk_calls.DiskCall.TheVariants as calls;

use crate::calls::Calls;
use crate::disk_calls::{
    DiskCall, DiskPart, DiskStop, RecordedCall, left_by_call, record_call, recorded_outcome, settle,
};
use crate::disk_parts::{fill_ranges, replay, until_sync};
use crate::shared_stop::Turn;
use crate::stop::{Done, Stop};
use dsc_outside::{Disk, Failed};
use mof_values::{Bytes, Memory};
use std::alloc::{AllocError, Global};
use std::marker::Model;

/// A disk of given bytes that keeps a record of all its calls.
///
/// A call fails exactly where its number is in a list, where a stop has come, or where memory runs out for what the
/// disk keeps of it. A call that fails does nothing, but the one that the stop comes in: what it began counts among the
/// changes of which the stop leaves a part.
#[derive(Drop)]
pub struct MemoryDisk {
    first: Vec<u8>,
    bytes: Vec<u8>,
    recorded: Vec<RecordedCall>,
    calls: Calls,
    stop_part: DiskPart,
    left: DiskPart,
    short: bool,
}

impl Model for MemoryDisk {
    ghost use Rattle.std.specs.Prelude.{◌≡◌};
    ghost use Rattle.memory_outside.specs.MemoryDisk.{DiskInMemory, held_by, state_after};
    ghost use Rattle.dsc_outside.specs.Images.{settled};

    ghost Value = { DiskInMemory };

    ghost view = { λ d. record { first = d.first.items; calls = d.recorded.items; count = d.calls; stop_part = d.stop_part; left = d.left; short = d.short } };

    ghost invariant = { λ d. d.bytes.items ≡ (state_after d.recorded.items (settled d.first.items)).held };
}

impl MemoryDisk {
    /// A disk of these bytes, all of them synced, whose calls of these numbers, counted from 0, are to fail.
    pub fn new(bytes: Vec<u8>, failing: Vec<u64>) -> Result<MemoryDisk, Memory>
        ensures { IfOk result (λ disk. disk ≡ new_disk bytes.items failing.items None) }
    {
        MemoryDisk::of(bytes, failing, None)
    }

    /// The same, with a stop.
    pub fn of(
        bytes: Vec<u8>,
        failing: Vec<u64>,
        stop: Option<DiskStop>,
    ) -> Result<MemoryDisk, Memory>
        ensures { IfOk result (λ disk. disk ≡ new_disk bytes.items failing.items stop) }
    {
        let alloc = *bytes.allocator();
        let first = bytes.to_vec(alloc)?;
        Ok(MemoryDisk {
            first,
            bytes,
            recorded: Vec::new(alloc),
            calls: Calls::stopping(failing, counted_stop(stop)),
            stop_part: part_of(stop),
            left: DiskPart::Whole,
            short: false,
        })
    }

    /// What a read gives.
    pub fn bytes(&self) -> &[u8]
        ensures { result.now ≡ held_by self.now }
    {
        &self.bytes
    }

    /// The calls, the oldest first, but those that ran out of memory.
    pub fn calls(&self) -> &[RecordedCall]
        ensures { result.now ≡ self.now.calls }
    {
        &self.recorded
    }

    /// Answers whether a call ran out of memory for what the disk keeps of it.
    pub fn short(&self) -> bool
        ensures { result ≡ self.now.short }
    {
        self.short
    }

    /// What the next start finds: what the stop left, or what is held where none has come. The next start's disk is
    /// made of it.
    pub fn after_stop(self) -> Result<Vec<u8>, Memory>
        ensures bytes { IfOk result (λ bytes. bytes.items ≡ left_by self) }
        ensures image { IfOk result (λ bytes. IsImage (state_of self) bytes.items) }
    {
        let part = self.left;
        Ok(self.into_part(part)?)
    }

    /// What that part of the changes since the last sync that succeeded leaves.
    pub(crate) fn into_part(self, part: DiskPart) -> Result<Vec<u8>, AllocError>
        ensures { IfOk result (λ bytes. bytes.items ≡ part_left part (state_of self)) }
    {
        let mut first = self.first;
        let mut bytes = self.bytes;
        match part {
            DiskPart::Nothing => {
                replay(&mut first, until_sync(&self.recorded))?;
                Ok(first)
            }
            DiskPart::Whole => Ok(bytes),
            DiskPart::Filled(byte) => {
                fill_ranges(&mut bytes, &self.recorded, byte);
                Ok(bytes)
            }
        }
    }

    /// Sets the stop that the next call meets.
    pub(crate) fn meet(&mut self, turn: Turn)
        ensures { self.new ≡ met turn self.old }
    {
        self.calls.meet(turn, Done::All);
    }

    // Counts a call, records it and does it, unless it is to fail.
    fn take_call(&mut self, asked: Result<DiskCall, AllocError>) -> Result<(), Failed>
        ensures exact { (call : DiskCall) → IfOk asked (λ c. c ≡ call)
            → TakesCall call self.old result self.new }
        ensures cause { HasCause self.old.count.faults self.new.count.faults result }
    {
        let outcome = recorded_outcome(self.calls.begin_change());
        let tried = record_call(&mut self.bytes, &mut self.recorded, asked, outcome);
        self.left = left_by_call(outcome, self.left, self.stop_part);
        settle(outcome, tried, &mut self.short, &mut self.calls)
    }

    // The same for a call that is no change.
    fn look(&mut self, call: DiskCall) -> Result<(), Failed>
        requires { Looks call }
        ensures shown { held_by self.new ≡ held_by self.old }
        ensures crash { Within (images_of self.old) (images_of self.new) }
        ensures time { TimePasses moment_of left_at images_of self.old self.new }
        ensures cause { HasCause self.old.count.faults self.new.count.faults result }
        ensures exact { TakesCall call self.old result self.new }
    {
        self.take_call(Ok(call))
    }
}

fn counted_stop(stop: Option<DiskStop>) -> Option<Stop>
    ensures { result ≡ stop_of stop }
{
    match stop {
        None => None,
        Some(stop) => Some(Stop {
            call: stop.call,
            done: Done::All,
        }),
    }
}

fn part_of(stop: Option<DiskStop>) -> DiskPart
    ensures { result ≡ part_of_stop stop }
{
    match stop {
        None => DiskPart::Whole,
        Some(stop) => stop.part,
    }
}

// Copies the bytes from that place on until the slice is full, and answers how many.
fn copy_from(bytes: &[u8], at: u64, into: &mut [u8]) -> usize
    ensures most { result ≡ min (length into.new) (length bytes.now - at) }
    ensures front { take result into.new ≡ take (length into.new) (drop at bytes.now) }
    ensures after { drop result into.new ≡ drop result into.old }
{
    let from = (at as usize).min(bytes.len());
    let count = into.len().min(bytes.len() - from);
    into[..count].copy_from_slice(&bytes[from..from + count]);
    count
}

fn copy_of(alloc: Global, at: u64, bytes: &[u8]) -> Result<DiskCall, AllocError>
    ensures { IfOk result (λ call. call ≡ calls.WriteAt at bytes.now) }
{
    Ok(DiskCall::WriteAt {
        at,
        bytes: Bytes::of(bytes.to_vec(alloc)?),
    })
}

impl Disk for MemoryDisk {
    ghost use Rattle.memory_outside.specs.HonestDisk.{moment_counts, moment_is_only, disk_is_honest};

    ghost shown = { exposed_bytes };

    ghost images = { images_of };

    ghost moment = { moment_of };

    ghost left_since = { left_at };

    ghost faults = { λ d. d.count.faults };

    ghost counts_now = { moment_counts };

    ghost only_now = { moment_is_only };

    ghost honest = { disk_is_honest };

    fn length(&mut self) -> Result<u64, Failed>
        ensures length { IfOk result (λ n. n ≡ length (held_by self.old)) }
        ensures shown { exposed_bytes self.new ≡ exposed_bytes self.old }
        ensures crash { Within (images_of self.old) (images_of self.new) }
        ensures time { TimePasses moment_of left_at images_of self.old self.new }
        ensures cause { HasCause self.old.count.faults self.new.count.faults result }

        // Exactly when it fails, and what it keeps.
        ensures exact { TakesCall calls.Length self.old result self.new }
    {
        self.look(DiskCall::Length)?;
        Ok(self.bytes.len() as u64)
    }

    fn read_at(&mut self, at: u64, into: &mut [u8]) -> Result<usize, Failed>
        ensures size { IfOk result (λ n. n ≤ length into.new) }
        ensures bytes { ReadsFrom at (exposed_bytes self.old) result into.new }
        ensures shown { exposed_bytes self.new ≡ exposed_bytes self.old }
        ensures crash { Within (images_of self.old) (images_of self.new) }
        ensures time { TimePasses moment_of left_at images_of self.old self.new }
        ensures cause { HasCause self.old.count.faults self.new.count.faults result }

        // Exactly when it fails, and what it gives and keeps.
        ensures exact { TakesCall (calls.ReadAt at (length into.old)) self.old result self.new }
        ensures most { IfOk result (λ n.
            n ≡ min (length into.new) (length (held_by self.old) - at)) }
        ensures after { IfOk result (λ n. drop n into.new ≡ drop n into.old) }
        ensures nothing { OnErr result (into.new ≡ into.old) }
    {
        self.look(DiskCall::ReadAt {
            at,
            room: into.len(),
        })?;
        Ok(copy_from(&self.bytes, at, into))
    }

    fn write_at(&mut self, at: u64, bytes: &[u8]) -> Result<(), Failed>
        requires { at ≤ length (held_by self.old) }
        ensures written { Makes (written at bytes.now)
            (exposed_bytes self.old) (exposed_bytes self.new) result }
        ensures crash { Follows (Torn at (length bytes.now))
            (images_of self.old) (images_of self.new) }
        ensures time { TimePasses moment_of left_at images_of self.old self.new }
        ensures cause { HasCause self.old.count.faults self.new.count.faults result }

        // Exactly when it fails, and what it keeps.
        ensures exact { TakesCall (calls.WriteAt at bytes.now) self.old result self.new }
    {
        let asked = copy_of(*self.bytes.allocator(), at, bytes);
        self.take_call(asked)
    }

    fn cut(&mut self, to: u64) -> Result<(), Failed>
        ensures cut { Makes (take to) (exposed_bytes self.old) (exposed_bytes self.new) result }
        ensures crash { Follows (Cut to) (images_of self.old) (images_of self.new) }
        ensures time { TimePasses moment_of left_at images_of self.old self.new }
        ensures cause { HasCause self.old.count.faults self.new.count.faults result }

        // Exactly when it fails, and what it keeps.
        ensures exact { TakesCall (calls.Cut to) self.old result self.new }
    {
        self.take_call(Ok(DiskCall::Cut { to }))
    }

    fn sync(&mut self) -> Result<(), Failed>
        ensures only { OnOk result (Only (exposed_bytes self.old) (images_of self.new)) }
        ensures shown { exposed_bytes self.new ≡ exposed_bytes self.old }
        ensures crash { Within (images_of self.old) (images_of self.new) }
        ensures time { TimePasses moment_of left_at images_of self.old self.new }
        ensures cause { HasCause self.old.count.faults self.new.count.faults result }

        // Exactly when it fails, and what it keeps.
        ensures exact { TakesCall calls.Sync self.old result self.new }
    {
        self.look(DiskCall::Sync)
    }
}
