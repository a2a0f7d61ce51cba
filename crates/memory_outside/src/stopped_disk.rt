//! A disk in memory that stops in a call of several things together.
ghost use Rattle.std.specs.Prelude.{◌≡◌, ◌≤◌, ◌-◌, length, min, take, drop, false, IfOk, OnErr, OnOk};
ghost use Rattle.dsc_outside.specs.Causes.{HasCause};
ghost use Rattle.dsc_outside.specs.Disk.{written, Torn, Cut, Follows, Makes, Only, ReadsFrom, TimePasses, Within};
ghost use Rattle.memory_outside.specs.MemoryDisk.{exposed_bytes, held_by, images_of, left_at, moment_of};
ghost use Rattle.memory_outside.specs.ReliableDisk.{fresh_disk};
ghost use Rattle.memory_outside.specs.SharedStop.{has_come};
ghost use Rattle.memory_outside.specs.SharedStop as stops;
ghost use Rattle.memory_outside.specs.StoppedDisk.{MeetsCall, left_of, met, part_if};
ghost use Rattle.memory_outside.specs.declared.shared_stop.Turn.TheVariants as turns;
ghost use Rattle.memory_outside.specs.declared.disk_calls.DiskCall.TheVariants as calls;

use crate::disk::MemoryDisk;
use crate::disk_calls::DiskPart;
use crate::reliable_disk::ReliableDisk;
use crate::shared_stop::SharedStop;
use crate::stopped_host::StoppedHost;
use dsc_outside::{Disk, Failed};
use mof_values::Memory;
use std::cell::Cell;
use std::marker::Model;
use std::rc::Rc;

/// A disk that stops in a call whose number is counted together with others' calls.
///
/// Before the stop a call fails where memory runs out for what the disk keeps of it, and in no other case; the one that
/// the stop comes in fails, and each after it fails and does nothing. Where the stop has reached no call and memory
/// lasted, the count of faults is 0.
#[derive(Drop)]
pub struct StoppedDisk {
    disk: MemoryDisk,
    stop: SharedStop,
}

impl Model for StoppedDisk {
    ghost use Rattle.memory_outside.specs.StoppedDisk.{DiskToStop, StopsAlone};

    ghost Value = { DiskToStop };

    ghost view = { λ d. record { disk = d.disk; turn = d.stop } };

    ghost invariant = { λ d. StopsAlone d.disk d.stop };
}

impl StoppedDisk {
    /// The disk, with a stop in the call of that number, counted from 1 and from the first call in the cell. Takes no
    /// memory.
    pub fn new(disk: ReliableDisk, calls: Rc<Cell<u64>>, at: u64) -> StoppedDisk
        ensures { result ≡ record { disk = disk; turn = turns.Before } }
    {
        StoppedDisk {
            disk: disk.into_disk(),
            stop: SharedStop::new(calls, at),
        }
    }

    /// What a read gives.
    pub fn bytes(&self) -> &[u8]
        ensures { result.now ≡ held_by self.now.disk }
    {
        self.disk.bytes()
    }

    /// Answers whether the stop has reached a call of the disk.
    pub fn stopped(&self) -> bool
        ensures stopped { result ≡ has_come self.now.turn }
        ensures lasted { result ≡ false → self.now.disk.short ≡ false
            → self.now.disk.count.faults ≡ 0 }
    {
        self.stop.has_come()
    }

    /// Answers whether a call ran out of memory for what the disk keeps of it.
    pub fn short(&self) -> bool
        ensures { result ≡ self.now.disk.short }
    {
        self.disk.short()
    }

    /// The disk for the next start, where the host is the one that stops together with it. Where the stop has reached a
    /// call of the disk or of the host, it holds that part of the changes since the last sync that succeeded, and
    /// otherwise what a read gives here; all of it is synced, and it keeps no call.
    pub fn left(self, host: &StoppedHost, part: DiskPart) -> Result<ReliableDisk, Memory>
        ensures disk { IfOk result (λ next. next ≡ fresh_disk (left_of self host.now part)) }
        ensures image { IfOk result (λ next. images_of self.disk (held_by next)) }
        ensures only { IfOk result (λ next. Only (exposed_bytes next) (images_of next)) }
    {
        let stopped = self.stopped() || host.stopped();
        ReliableDisk::new(self.disk.into_part(part_left(stopped, part))?)
    }
}

// The part of the changes that is left: where the stop has come, this one, and otherwise all of them.
fn part_left(stopped: bool, part: DiskPart) -> DiskPart
    ensures { result ≡ part_if stopped part }
{
    if stopped { part } else { DiskPart::Whole }
}

// Counts a call that begins, so that the disk meets the stop in it where it comes.
fn meet_call(disk: &mut MemoryDisk, stop: &mut SharedStop)
    ensures order { stops.Follows stop.old stop.new }
    ensures met { disk.new ≡ met stop.new disk.old }
{
    disk.meet(stop.begin_call());
}

impl Disk for StoppedDisk {
    ghost use Rattle.memory_outside.specs.HonestDisk.{moment_counts, moment_is_only, disk_is_honest};

    ghost shown = { λ d. exposed_bytes d.disk };

    ghost images = { λ d. images_of d.disk };

    ghost moment = { λ d. moment_of d.disk };

    ghost left_since = { λ d. left_at d.disk };

    ghost faults = { λ d. d.disk.count.faults };

    ghost counts_now = { λ d. moment_counts d.disk };

    ghost only_now = { λ d. moment_is_only d.disk };

    ghost honest = { λ d. disk_is_honest d.disk };

    fn length(&mut self) -> Result<u64, Failed>
        ensures length { IfOk result (λ n. n ≡ length (held_by self.old.disk)) }
        ensures shown { exposed_bytes self.new.disk ≡ exposed_bytes self.old.disk }
        ensures crash { Within (images_of self.old.disk) (images_of self.new.disk) }
        ensures time { TimePasses moment_of left_at images_of self.old.disk self.new.disk }
        ensures cause { HasCause self.old.disk.count.faults self.new.disk.count.faults result }
        ensures exact { MeetsCall calls.Length self.old result self.new }
    {
        meet_call(&mut self.disk, &mut self.stop);
        self.disk.length()
    }

    fn read_at(&mut self, at: u64, into: &mut [u8]) -> Result<usize, Failed>
        ensures size { IfOk result (λ n. n ≤ length into.new) }
        ensures bytes { ReadsFrom at (exposed_bytes self.old.disk) result into.new }
        ensures shown { exposed_bytes self.new.disk ≡ exposed_bytes self.old.disk }
        ensures crash { Within (images_of self.old.disk) (images_of self.new.disk) }
        ensures time { TimePasses moment_of left_at images_of self.old.disk self.new.disk }
        ensures cause { HasCause self.old.disk.count.faults self.new.disk.count.faults result }
        ensures exact { MeetsCall (calls.ReadAt at (length into.old)) self.old result self.new }
        ensures most { IfOk result (λ n.
            n ≡ min (length into.new) (length (held_by self.old.disk) - at)) }
        ensures after { IfOk result (λ n. drop n into.new ≡ drop n into.old) }
        ensures nothing { OnErr result (into.new ≡ into.old) }
    {
        meet_call(&mut self.disk, &mut self.stop);
        self.disk.read_at(at, into)
    }

    fn write_at(&mut self, at: u64, bytes: &[u8]) -> Result<(), Failed>
        requires { at ≤ length (held_by self.old.disk) }
        ensures written { Makes (written at bytes.now)
            (exposed_bytes self.old.disk) (exposed_bytes self.new.disk) result }
        ensures crash { Follows (Torn at (length bytes.now))
            (images_of self.old.disk) (images_of self.new.disk) }
        ensures time { TimePasses moment_of left_at images_of self.old.disk self.new.disk }
        ensures cause { HasCause self.old.disk.count.faults self.new.disk.count.faults result }
        ensures exact { MeetsCall (calls.WriteAt at bytes.now) self.old result self.new }
    {
        meet_call(&mut self.disk, &mut self.stop);
        self.disk.write_at(at, bytes)
    }

    fn cut(&mut self, to: u64) -> Result<(), Failed>
        ensures cut { Makes (take to) (exposed_bytes self.old.disk) (exposed_bytes self.new.disk)
            result }
        ensures crash { Follows (Cut to) (images_of self.old.disk) (images_of self.new.disk) }
        ensures time { TimePasses moment_of left_at images_of self.old.disk self.new.disk }
        ensures cause { HasCause self.old.disk.count.faults self.new.disk.count.faults result }
        ensures exact { MeetsCall (calls.Cut to) self.old result self.new }
    {
        meet_call(&mut self.disk, &mut self.stop);
        self.disk.cut(to)
    }

    fn sync(&mut self) -> Result<(), Failed>
        ensures only { OnOk result (Only (exposed_bytes self.old.disk) (images_of self.new.disk)) }
        ensures shown { exposed_bytes self.new.disk ≡ exposed_bytes self.old.disk }
        ensures crash { Within (images_of self.old.disk) (images_of self.new.disk) }
        ensures time { TimePasses moment_of left_at images_of self.old.disk self.new.disk }
        ensures cause { HasCause self.old.disk.count.faults self.new.disk.count.faults result }
        ensures exact { MeetsCall calls.Sync self.old result self.new }
    {
        meet_call(&mut self.disk, &mut self.stop);
        self.disk.sync()
    }
}
