//! A host in memory that stops in a call of several things together.
ghost use Rattle.std.specs.Prelude.{◌≡◌, ◌↔◌, IfErr, IsErr, IsErrOf, IsTrue, false};
ghost use Rattle.dsc_outside.specs.Changes.{AddsEntry, PutsPackage, MakesFolder, PutsFile, PutsVariable, RemovesPath, RemovesVariable, with_entry, with_file, with_folder, with_package, with_variable, without_path, without_variable};
ghost use Rattle.dsc_outside.specs.Host.{IsState, LeavesBuffer, SaysEntry, SaysFile, SaysPackage, SaysReboot, Tells, TellsVariable};
ghost use Rattle.memory_outside.specs.MemoryHost.{CountsFault, IsContents, exposed_host, first_half};
ghost use Rattle.memory_outside.specs.ReliableHost.{exposed_contents, unfailing};
ghost use Rattle.memory_outside.specs.SharedStop.{Follows, has_come};
ghost use Rattle.memory_outside.specs.StoppedHost.{MeetsLook, MeetsPart, MeetsTaking, MeetsWhole, met};
ghost use Rattle.memory_outside.specs.declared.shared_stop.Turn.TheVariants as turns;

use crate::host::MemoryHost;
use crate::reliable::ReliableHost;
use crate::shared_stop::SharedStop;
use crate::stop::Done;
use dsc_outside::{Host, HostError, PathState};
use std::cell::Cell;
use std::marker::Model;
use std::rc::Rc;

/// A host that stops in a call whose number is counted together with others' calls.
///
/// Before the stop no call fails, though one may run out of memory; the one that the stop comes in fails, and leaves the
/// stated part of a change; each after it fails and does nothing. Where the stop has reached no call, the count of
/// faults is 0.
#[derive(Drop)]
pub struct StoppedHost {
    host: MemoryHost,
    done: Done,
    stop: SharedStop,
}

impl Model for StoppedHost {
    ghost use Rattle.memory_outside.specs.StoppedHost.{HostToStop, StopsAlone};

    ghost Value = { HostToStop };

    ghost view = { λ h. record { host = h.host; done = h.done; turn = h.stop } };

    ghost invariant = { λ h. StopsAlone h.host h.stop };
}

impl StoppedHost {
    /// The host, with a stop in the call of that number, counted from 1 and from the first call in the cell, which
    /// leaves that part of a change. Takes no memory.
    pub fn new(host: ReliableHost, calls: Rc<Cell<u64>>, at: u64, done: Done) -> StoppedHost
        ensures { result ≡ record { host = unfailing host; done = done; turn = turns.Before } }
    {
        let contents = host.into_contents();
        let alloc = *contents.paths.allocator();
        StoppedHost {
            host: MemoryHost::of(contents, Vec::new(alloc), None),
            done,
            stop: SharedStop::new(calls, at),
        }
    }

    /// Answers whether the stop has reached a call of the host.
    pub fn stopped(&self) -> bool
        ensures stopped { result ≡ has_come self.now.turn }
        ensures unfailed { result ≡ false → self.now.host.calls.faults ≡ 0 }
    {
        self.stop.has_come()
    }

    /// Returns whether the call that the stop came in ran out of memory for the part that it was to leave. Every other
    /// call that runs out of memory answers `Memory`.
    pub fn short(&self) -> bool
        ensures { result ≡ self.now.host.short }
    {
        self.host.short()
    }

    /// The host as the stop left it, or as it is where the stop has reached no call.
    pub fn left(self) -> ReliableHost
        ensures contents { IsContents result self.host }
        ensures shown { exposed_contents result ≡ exposed_host self.host }
    {
        ReliableHost::of(self.host.into_contents())
    }
}

// Counts a call that begins, so that the host meets the stop in it where it comes.
fn meet_call(host: &mut MemoryHost, stop: &mut SharedStop, done: Done)
    ensures order { Follows stop.old stop.new }
    ensures met { host.new ≡ met stop.new done host.old }
    ensures shown { exposed_host host.new ≡ exposed_host host.old }
    ensures faults { host.new.calls.faults ≡ host.old.calls.faults }
{
    host.meet(stop.begin_call(), done);
}

impl Host for StoppedHost {
    ghost shown = { λ h. exposed_host h.host };

    ghost faults = { λ h. h.host.calls.faults };

    fn path_state(&mut self, path: &str) -> Result<PathState, HostError>
        ensures answer { Tells (exposed_host self.old.host) result (IsState path.now) }
        ensures shown { exposed_host self.new.host ≡ exposed_host self.old.host }
        ensures cause { CountsFault self.old.host self.new.host result }
        ensures fails { IsErr result ↔ IsTrue (has_come self.new.turn) }
        ensures failed { IfErr result (λ e. e ≡ HostError.Failed) }
        ensures looks { MeetsLook self.old self.new }
    {
        meet_call(&mut self.host, &mut self.stop, self.done);
        self.host.path_state(path)
    }

    fn file_equals(&mut self, path: &str, bytes: &[u8]) -> Result<bool, HostError>
        ensures answer { Tells (exposed_host self.old.host) result (SaysFile path.now bytes.now) }
        ensures shown { exposed_host self.new.host ≡ exposed_host self.old.host }
        ensures cause { CountsFault self.old.host self.new.host result }
        ensures fails { IsErr result ↔ IsTrue (has_come self.new.turn) }
        ensures failed { IfErr result (λ e. e ≡ HostError.Failed) }
        ensures looks { MeetsLook self.old self.new }
    {
        meet_call(&mut self.host, &mut self.stop, self.done);
        self.host.file_equals(path, bytes)
    }

    fn put_file(&mut self, path: &str, bytes: &[u8]) -> Result<(), HostError>
        ensures change { PutsFile path.now bytes.now
            (exposed_host self.old.host) (exposed_host self.new.host) result }
        ensures cause { CountsFault self.old.host self.new.host result }
        ensures exact { MeetsPart (with_file path.now bytes.now)
            (with_file path.now (first_half bytes.now)) self.old result self.new }
    {
        meet_call(&mut self.host, &mut self.stop, self.done);
        self.host.put_file(path, bytes)
    }

    fn make_dir(&mut self, path: &str) -> Result<(), HostError>
        ensures change { MakesFolder path.now
            (exposed_host self.old.host) (exposed_host self.new.host) result }
        ensures cause { CountsFault self.old.host self.new.host result }
        ensures exact { MeetsWhole (with_folder path.now) self.old result self.new }
    {
        meet_call(&mut self.host, &mut self.stop, self.done);
        self.host.make_dir(path)
    }

    fn remove(&mut self, path: &str) -> Result<(), HostError>
        ensures change { RemovesPath path.now
            (exposed_host self.old.host) (exposed_host self.new.host) result }
        ensures cause { CountsFault self.old.host self.new.host result }
        ensures exact { MeetsTaking (without_path path.now) self.old result self.new }
    {
        meet_call(&mut self.host, &mut self.stop, self.done);
        self.host.remove(path)
    }

    fn env_state(&mut self, name: &str, into: &mut Vec<u8>) -> Result<bool, HostError>
        ensures answer { TellsVariable (exposed_host self.old.host) name.now result
            into.old.items into.new.items }
        ensures buffer { LeavesBuffer result into.old.items into.new.items }
        ensures shown { exposed_host self.new.host ≡ exposed_host self.old.host }
        ensures cause { CountsFault self.old.host self.new.host result }
        ensures fails { IsErrOf result HostError.Failed ↔ IsTrue (has_come self.new.turn) }
        ensures looks { MeetsLook self.old self.new }
    {
        meet_call(&mut self.host, &mut self.stop, self.done);
        self.host.env_state(name, into)
    }

    fn env_put(&mut self, name: &str, value: &[u8]) -> Result<(), HostError>
        ensures change { PutsVariable name.now value.now
            (exposed_host self.old.host) (exposed_host self.new.host) result }
        ensures cause { CountsFault self.old.host self.new.host result }
        ensures exact { MeetsWhole (with_variable name.now value.now) self.old result self.new }
    {
        meet_call(&mut self.host, &mut self.stop, self.done);
        self.host.env_put(name, value)
    }

    fn env_remove(&mut self, name: &str) -> Result<(), HostError>
        ensures change { RemovesVariable name.now
            (exposed_host self.old.host) (exposed_host self.new.host) result }
        ensures cause { CountsFault self.old.host self.new.host result }
        ensures exact { MeetsTaking (without_variable name.now) self.old result self.new }
    {
        meet_call(&mut self.host, &mut self.stop, self.done);
        self.host.env_remove(name)
    }

    fn log_has(&mut self, id: &str, message: &str) -> Result<bool, HostError>
        ensures answer { Tells (exposed_host self.old.host) result (SaysEntry id.now message.now) }
        ensures shown { exposed_host self.new.host ≡ exposed_host self.old.host }
        ensures cause { CountsFault self.old.host self.new.host result }
        ensures fails { IsErr result ↔ IsTrue (has_come self.new.turn) }
        ensures failed { IfErr result (λ e. e ≡ HostError.Failed) }
        ensures looks { MeetsLook self.old self.new }
    {
        meet_call(&mut self.host, &mut self.stop, self.done);
        self.host.log_has(id, message)
    }

    fn log_add(&mut self, id: &str, message: &str) -> Result<(), HostError>
        ensures change { AddsEntry id.now message.now
            (exposed_host self.old.host) (exposed_host self.new.host) result }
        ensures cause { CountsFault self.old.host self.new.host result }
        ensures exact { MeetsWhole (with_entry id.now message.now) self.old result self.new }
    {
        meet_call(&mut self.host, &mut self.stop, self.done);
        self.host.log_add(id, message)
    }

    fn package_has(&mut self, name: &str, version: &str) -> Result<bool, HostError>
        ensures answer { Tells (exposed_host self.old.host) result
            (SaysPackage name.now version.now) }
        ensures shown { exposed_host self.new.host ≡ exposed_host self.old.host }
        ensures cause { CountsFault self.old.host self.new.host result }
        ensures fails { IsErr result ↔ IsTrue (has_come self.new.turn) }
        ensures failed { IfErr result (λ e. e ≡ HostError.Failed) }
        ensures looks { MeetsLook self.old self.new }
    {
        meet_call(&mut self.host, &mut self.stop, self.done);
        self.host.package_has(name, version)
    }

    fn package_put(&mut self, name: &str, version: &str, bytes: &[u8]) -> Result<(), HostError>
        ensures change { PutsPackage name.now version.now bytes.now
            (exposed_host self.old.host) (exposed_host self.new.host) result }
        ensures cause { CountsFault self.old.host self.new.host result }
        ensures exact { MeetsWhole (with_package name.now version.now bytes.now)
            self.old result self.new }
    {
        meet_call(&mut self.host, &mut self.stop, self.done);
        self.host.package_put(name, version, bytes)
    }

    fn reboot_wanted(&mut self, id: &str) -> Result<bool, HostError>
        ensures answer { Tells (exposed_host self.old.host) result (SaysReboot id.now) }
        ensures shown { exposed_host self.new.host ≡ exposed_host self.old.host }
        ensures cause { CountsFault self.old.host self.new.host result }
        ensures fails { IsErr result ↔ IsTrue (has_come self.new.turn) }
        ensures failed { IfErr result (λ e. e ≡ HostError.Failed) }
        ensures looks { MeetsLook self.old self.new }
    {
        meet_call(&mut self.host, &mut self.stop, self.done);
        self.host.reboot_wanted(id)
    }
}
