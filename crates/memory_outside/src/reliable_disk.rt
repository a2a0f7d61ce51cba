//! A disk in memory that fails for memory alone.
ghost use Rattle.std.specs.Prelude.{◌≡◌, ◌≤◌, ◌-◌, length, min, take, drop, false, IfOk, OnErr, OnOk};
ghost use Rattle.dsc_outside.specs.Causes.{HasCause};
ghost use Rattle.dsc_outside.specs.Disk.{written, Torn, Cut, Follows, Makes, Only, ReadsFrom, TimePasses, Within};
ghost use Rattle.memory_outside.specs.MemoryDisk.{exposed_bytes, held_by, images_of, left_at, moment_of};
ghost use Rattle.memory_outside.specs.ReliableDisk.{DoesCall, IsReliable, fresh_disk};
ghost use Rattle.memory_outside.specs.declared.disk_calls.DiskCall.TheVariants as calls;

use crate::disk::MemoryDisk;
use crate::disk_calls::DiskPart;
use dsc_outside::{Disk, Failed};
use mof_values::Memory;
use std::marker::Model;

/// A disk of given bytes none of whose calls is to fail: one fails where memory runs out for what the disk keeps of it,
/// which the disk then says. Where it does not say so, its count of faults is 0.
#[derive(Drop)]
pub struct ReliableDisk {
    disk: MemoryDisk,
}

impl Model for ReliableDisk {
    ghost use Rattle.memory_outside.specs.MemoryDisk.{DiskInMemory};
    ghost use Rattle.memory_outside.specs.ReliableDisk.{IsReliable};

    ghost Value = { DiskInMemory };

    ghost view = { λ d. d.disk };

    ghost invariant = { λ d. IsReliable d.disk };
}

impl ReliableDisk {
    /// A disk of these bytes, all of them synced.
    pub fn new(bytes: Vec<u8>) -> Result<ReliableDisk, Memory>
        ensures { IfOk result (λ disk. disk ≡ fresh_disk bytes.items) }
    {
        let alloc = *bytes.allocator();
        Ok(ReliableDisk {
            disk: MemoryDisk::new(bytes, Vec::new(alloc))?,
        })
    }

    /// What a read gives.
    pub fn bytes(&self) -> &[u8]
        ensures { result.now ≡ held_by self.now }
    {
        self.disk.bytes()
    }

    /// Answers whether a call ran out of memory for what the disk keeps of it. Where none did, none failed.
    pub fn short(&self) -> bool
        ensures short { result ≡ self.now.short }
        ensures lasted { result ≡ false → self.now.count.faults ≡ 0 }
    {
        self.disk.short()
    }

    /// The disk for the next start: it holds what a read gives here, all of it synced, and keeps no call.
    pub fn left(self) -> Result<ReliableDisk, Memory>
        ensures disk { IfOk result (λ next. next ≡ fresh_disk (held_by self)) }
        ensures image { IfOk result (λ next. images_of self (held_by next)) }
        ensures only { IfOk result (λ next. Only (exposed_bytes next) (images_of next)) }
    {
        ReliableDisk::new(self.disk.into_part(DiskPart::Whole)?)
    }

    pub(crate) fn into_disk(self) -> MemoryDisk
        ensures disk { result ≡ self }
        ensures reliable { IsReliable result }
    {
        self.disk
    }
}

impl Disk for ReliableDisk {
    ghost use Rattle.memory_outside.specs.HonestDisk.{moment_counts, moment_is_only, disk_is_honest};

    ghost shown = { exposed_bytes };

    ghost images = { images_of };

    ghost moment = { moment_of };

    ghost left_since = { left_at };

    ghost faults = { λ d. d.count.faults };

    ghost counts_now = { moment_counts };

    ghost only_now = { moment_is_only };

    ghost honest = { disk_is_honest };

    fn length(&mut self) -> Result<u64, Failed>
        ensures length { IfOk result (λ n. n ≡ length (held_by self.old)) }
        ensures shown { exposed_bytes self.new ≡ exposed_bytes self.old }
        ensures crash { Within (images_of self.old) (images_of self.new) }
        ensures time { TimePasses moment_of left_at images_of self.old self.new }
        ensures cause { HasCause self.old.count.faults self.new.count.faults result }
        ensures exact { DoesCall calls.Length self.old result self.new }
    {
        self.disk.length()
    }

    fn read_at(&mut self, at: u64, into: &mut [u8]) -> Result<usize, Failed>
        ensures size { IfOk result (λ n. n ≤ length into.new) }
        ensures bytes { ReadsFrom at (exposed_bytes self.old) result into.new }
        ensures shown { exposed_bytes self.new ≡ exposed_bytes self.old }
        ensures crash { Within (images_of self.old) (images_of self.new) }
        ensures time { TimePasses moment_of left_at images_of self.old self.new }
        ensures cause { HasCause self.old.count.faults self.new.count.faults result }
        ensures exact { DoesCall (calls.ReadAt at (length into.old)) self.old result self.new }
        ensures most { IfOk result (λ n.
            n ≡ min (length into.new) (length (held_by self.old) - at)) }
        ensures after { IfOk result (λ n. drop n into.new ≡ drop n into.old) }
        ensures nothing { OnErr result (into.new ≡ into.old) }
    {
        self.disk.read_at(at, into)
    }

    fn write_at(&mut self, at: u64, bytes: &[u8]) -> Result<(), Failed>
        requires { at ≤ length (held_by self.old) }
        ensures written { Makes (written at bytes.now)
            (exposed_bytes self.old) (exposed_bytes self.new) result }
        ensures crash { Follows (Torn at (length bytes.now))
            (images_of self.old) (images_of self.new) }
        ensures time { TimePasses moment_of left_at images_of self.old self.new }
        ensures cause { HasCause self.old.count.faults self.new.count.faults result }
        ensures exact { DoesCall (calls.WriteAt at bytes.now) self.old result self.new }
    {
        self.disk.write_at(at, bytes)
    }

    fn cut(&mut self, to: u64) -> Result<(), Failed>
        ensures cut { Makes (take to) (exposed_bytes self.old) (exposed_bytes self.new) result }
        ensures crash { Follows (Cut to) (images_of self.old) (images_of self.new) }
        ensures time { TimePasses moment_of left_at images_of self.old self.new }
        ensures cause { HasCause self.old.count.faults self.new.count.faults result }
        ensures exact { DoesCall (calls.Cut to) self.old result self.new }
    {
        self.disk.cut(to)
    }

    fn sync(&mut self) -> Result<(), Failed>
        ensures only { OnOk result (Only (exposed_bytes self.old) (images_of self.new)) }
        ensures shown { exposed_bytes self.new ≡ exposed_bytes self.old }
        ensures crash { Within (images_of self.old) (images_of self.new) }
        ensures time { TimePasses moment_of left_at images_of self.old self.new }
        ensures cause { HasCause self.old.count.faults self.new.count.faults result }
        ensures exact { DoesCall calls.Sync self.old result self.new }
    {
        self.disk.sync()
    }
}
