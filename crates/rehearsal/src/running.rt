//! A run of the program in a rehearsal, and what it leaves.
ghost use Rattle.std.specs.Prelude.{◌≡◌, ◌+◌, ◌<◌, IfOk, map, string_bytes};
ghost use Rattle.gate_log.specs.Standing.{AllStand, Any};
ghost use Rattle.memory_outside.specs.MemoryDisk.{held_by};
ghost use Rattle.memory_outside.specs.MemoryHost.{shown_of};
ghost use Rattle.memory_outside.specs.ReliableHost.{shown_by, unfailing};
ghost use Rattle.memory_outside.specs.StoppedDisk.{left_of};
ghost use Rattle.memory_outside.specs.declared.shared_stop.Turn.TheVariants as turns;
ghost use Rattle.node_store.specs.Stands.{Stands};
ghost use Rattle.rehearsal.specs.Living.{HasRun, IsBetween, IsReadyServer, left_world, world_of};
ghost use Rattle.rehearsal.specs.Objects.{disk_ghosts, stopped_ghosts};
ghost use Rattle.rehearsal.specs.Playing.{disk_part, host_part};
ghost use Rattle.rehearsal.specs.World.{HasLasted};
ghost use Rattle.rehearsal.specs.declared.limits.TheConstants.{MAX_SCRIPT};

use crate::lasting::lasted;
use crate::server::{Server, link_to, server_of};
use crate::starter::Starter;
use crate::step::{StopAt, StopPart};
use crate::words::Word;
use crate::world::LiveWorld;
use memory_outside::{
    DiskPart, Done, FixedClock, ReliableDisk, ReliableHost, ReliableSource, StoppedDisk,
    StoppedHost,
};
use mof_values::Memory;
use pull_outside::ReliableShelf;
use pull_serving::ServerLink;
use resource_kinds::Kinds;
use std::alloc::Global;
use std::cell::Cell;
use std::rc::Rc;

/// What a start is asked, in memory of its own.
#[derive(Drop)]
pub struct Asked {
    pub words: Vec<String>,
    pub input: Vec<u8>,
}

/// What a start left of its objects, the name that it answered, and its number.
#[derive(Drop)]
pub struct Ran {
    pub name: &'static str,
    pub disk: ReliableDisk,
    pub host: ReliableHost,
    pub link: ServerLink<ReliableDisk, ReliableShelf>,
    pub number: u32,
}

/// The objects of a world, of which the node's are to stop.
#[derive(Drop)]
pub struct StoppingWorld {
    pub disk: StoppedDisk,
    pub host: StoppedHost,
    pub server: Server,
    pub starts: u32,
}

/// The same of a start that is to stop.
#[derive(Drop)]
pub struct RanToStop {
    pub name: &'static str,
    pub disk: StoppedDisk,
    pub host: StoppedHost,
    pub link: ServerLink<ReliableDisk, ReliableShelf>,
    pub number: u32,
}

/// A copy of these words and this input.
pub fn asked_of(alloc: Global, words: &[Word<'_>], input: &[u8]) -> Result<Asked, Memory>
    ensures words { IfOk result (λ asked. map string_bytes asked.words.items ≡ words.now) }
    ensures input { IfOk result (λ asked. asked.input.items ≡ input.now) }
{
    let words = strings_of(alloc, words)?;
    let input = input.to_vec(alloc)?;
    Ok(Asked { words, input })
}

/// The program runs once.
pub fn run<S: Starter>(alloc: Global, live: LiveWorld, asked: Asked) -> Ran
    requires between { IsBetween live }
    requires few { live.starts < MAX_SCRIPT }
    ensures ran { HasRun S.does (map string_bytes asked.words.items) asked.input.items
        live.disk live.host live.server result.number
        result.name.now result.disk result.host result.link }
    ensures number { result.number ≡ live.starts + 1 }
    ensures stands { AllStand disk_ghosts result.disk Stands Any }
{
    let number = live.starts + 1;
    let mut input = ReliableSource::of(asked.input);
    let mut disk = live.disk;
    let mut kinds = Kinds::new(alloc, live.host);
    let mut link = link_to(alloc, live.server);
    let mut clock = FixedClock::at(u64::from(number));
    let name = S::start(
        alloc,
        &asked.words,
        &mut input,
        &mut disk,
        &mut kinds,
        &mut link,
        &mut clock,
    );
    Ran {
        name,
        disk,
        host: kinds.into_host(),
        link,
        number,
    }
}

/// The program runs once, and stops where it reaches the call of the stop.
pub fn run_to_stop<S: Starter>(alloc: Global, live: StoppingWorld, asked: Asked) -> RanToStop
    requires stands { AllStand stopped_ghosts live.disk Stands Any }
    requires ready { IsReadyServer live.server }
    requires few { live.starts < MAX_SCRIPT }
    ensures ran { HasRun S.does_to_stop (map string_bytes asked.words.items) asked.input.items
        live.disk live.host live.server result.number
        result.name.now result.disk result.host result.link }
    ensures number { result.number ≡ live.starts + 1 }
    ensures stands { AllStand stopped_ghosts result.disk Stands Any }
{
    let number = live.starts + 1;
    let mut input = ReliableSource::of(asked.input);
    let mut disk = live.disk;
    let mut kinds = Kinds::new(alloc, live.host);
    let mut link = link_to(alloc, live.server);
    let mut clock = FixedClock::at(u64::from(number));
    let name = S::start_to_stop(
        alloc,
        &asked.words,
        &mut input,
        &mut disk,
        &mut kinds,
        &mut link,
        &mut clock,
    );
    RanToStop {
        name,
        disk,
        host: kinds.into_host(),
        link,
        number,
    }
}

/// The disk and the machine are to stop together.
pub fn stopping(alloc: Global, live: LiveWorld, stop: StopAt) -> Result<StoppingWorld, Memory>
    requires { IsBetween live }
    ensures disk { IfOk result (λ new.
        new.disk ≡ record { disk = live.disk; turn = turns.Before }) }
    ensures host { IfOk result (λ new. new.host ≡ record {
      host = unfailing live.host;
      done = host_part stop.part;
      turn = turns.Before;
    }) }
    ensures stands { IfOk result (λ new. AllStand stopped_ghosts new.disk Stands Any) }
    ensures server { IfOk result (λ new. new.server ≡ live.server) }
    ensures starts { IfOk result (λ new. new.starts ≡ live.starts) }
{
    let calls = Rc::new(alloc, Cell::new(0))?;
    let more = calls.clone()?;
    let at = u64::from(stop.call);
    Ok(StoppingWorld {
        disk: StoppedDisk::new(live.disk, more, at),
        host: StoppedHost::new(live.host, calls, at, host_part(stop.part)),
        server: live.server,
        starts: live.starts,
    })
}

/// What a start left.
pub fn left_by(ran: Ran) -> Result<LiveWorld, Memory>
    requires { AllStand disk_ghosts ran.disk Stands Any }
    ensures left { IfOk result (λ live. world_of live ≡
        left_world (held_by ran.disk) (shown_by ran.host) ran.link ran.number) }
    ensures disk { IfOk result (λ live. HasLasted ran.disk) }
    ensures server { IfOk result (λ live. HasLasted ran.link.disk) }
    ensures between { IfOk result IsBetween }
{
    lasted(&ran.disk)?;
    let server = server_of(ran.link)?;
    let disk = ran.disk.left()?;
    Ok(LiveWorld {
        disk,
        host: ran.host,
        server,
        starts: ran.number,
    })
}

/// What a start left that was to stop.
pub fn left_by_stop(ran: RanToStop, part: StopPart) -> Result<LiveWorld, Memory>
    requires { AllStand stopped_ghosts ran.disk Stands Any }
    ensures left { IfOk result (λ live. world_of live ≡
        left_world (left_of ran.disk ran.host (disk_part part)) (shown_of ran.host.host)
        ran.link ran.number) }
    ensures server { IfOk result (λ live. HasLasted ran.link.disk) }
    ensures between { IfOk result IsBetween }
{
    let server = server_of(ran.link)?;
    let disk = ran.disk.left(&ran.host, disk_part(part))?;
    Ok(LiveWorld {
        disk,
        host: ran.host.left(),
        server,
        starts: ran.number,
    })
}

fn disk_part(part: StopPart) -> DiskPart
    ensures { result ≡ disk_part part }
{
    match part {
        StopPart::Old => DiskPart::Nothing,
        StopPart::New => DiskPart::Whole,
        StopPart::Filled => DiskPart::Filled(0x57),
    }
}

fn host_part(part: StopPart) -> Done
    ensures { result ≡ host_part part }
{
    match part {
        StopPart::Old => Done::Nothing,
        StopPart::New => Done::All,
        StopPart::Filled => Done::Half,
    }
}

fn strings_of(alloc: Global, words: &[Word<'_>]) -> Result<Vec<String>, Memory>
    ensures { IfOk result (λ all. map string_bytes all.items ≡ words.now) }
{
    let mut all = Vec::new(alloc);
    for word in words {
        all.push(String::from_str(alloc, word.as_str())?)?;
    }
    Ok(all)
}
