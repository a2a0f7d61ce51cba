//! Small stores, and changes of them.
ghost use Rattle.std.specs.Prelude.{◌≡◌, IfOk};
ghost use Rattle.gate_log.specs.declared.shape.Shape.{Shape};
ghost use Rattle.gate_log.specs.Log.{IsReady};

use dsc_outside::{Disk, Memory};
use gate_log::{Bodies, Log, LogError, Shape, replay_log};
use std::alloc::Global;

/// What was made, or the store's error where it was out of memory.
pub fn with_memory<T: Drop>(made: Result<T, Memory>) -> Result<T, LogError> {
    match made {
        Ok(value) => Ok(value),
        Err(_) => Err(LogError::Memory),
    }
}

/// Two banks of 64 bytes, and bodies of at most 32.
pub fn small() -> Shape
    ensures { result ≡ record { bank = 64; largest = 32 } }
{
    Shape {
        bank: 64,
        largest: 32,
    }
}

/// Opens a small store, whatever its bodies are.
pub fn open<D: Disk>(alloc: Global, disk: &mut D) -> Result<Log, LogError>
    ensures shape { IfOk result (λ log. log.shape ≡ record { bank = 64; largest = 32 }) }
    ensures of { IfOk result (IsReady D.Disk disk.new) }
{
    replay_log(alloc, disk, small(), &mut Bodies::new(alloc))
}

/// The bodies of a small store.
pub fn bodies_of<D: Disk>(alloc: Global, disk: &mut D) -> Result<Bodies, LogError> {
    let mut bodies = Bodies::new(alloc);
    replay_log(alloc, disk, small(), &mut bodies)?;
    Ok(bodies)
}

/// Appends a body where it fits.
pub fn add<D: Disk>(log: &mut Log, disk: &mut D, body: &[u8]) -> Result<(), LogError>
    requires shape { log.old.shape ≡ record { bank = 64; largest = 32 } }
    requires of { IsReady D.Disk disk.old log.old }
    ensures shape { log.new.shape ≡ record { bank = 64; largest = 32 } }
    ensures of { IsReady D.Disk disk.new log.new }
{
    if log.is_spent() || body.len() > 32 || !log.has_room(body.len() as u32) {
        return Ok(());
    }
    log.append(disk, body)
}

/// Rewrites a store to one body.
#[tactic(auto, using(crate::proofs::Begun::begun_of, crate::proofs::Begun::begun_put))]
pub fn rewrite<D: Disk>(log: &mut Log, disk: &mut D, body: &[u8]) -> Result<(), LogError>
    requires shape { log.old.shape ≡ record { bank = 64; largest = 32 } }
    requires of { IsReady D.Disk disk.old log.old }
    ensures shape { log.new.shape ≡ record { bank = 64; largest = 32 } }
    ensures of { IsReady D.Disk disk.new log.new }
{
    if log.is_spent() || body.len() > 32 {
        return Ok(());
    }
    log.begin_rewrite();
    log.put(disk, body)?;
    log.finish_rewrite(disk)
}

/// Begins a rewrite of a store, and puts a body.
#[tactic(auto, using(crate::proofs::Begun::begun_of, crate::proofs::Begun::begun_put))]
pub fn begin_with<D: Disk>(log: &mut Log, disk: &mut D, body: &[u8]) -> Result<(), LogError>
    requires shape { log.old.shape ≡ record { bank = 64; largest = 32 } }
    requires of { IsReady D.Disk disk.old log.old }
    ensures shape { log.new.shape ≡ record { bank = 64; largest = 32 } }
    ensures of { IsReady D.Disk disk.new log.new }
{
    if log.is_spent() || body.len() > 32 {
        return Ok(());
    }
    log.begin_rewrite();
    log.put(disk, body)
}

/// Appends two bodies of twenty bytes, `a` and `b`.
pub fn add_two<D: Disk>(alloc: Global, disk: &mut D) -> Result<Log, LogError>
    ensures shape { IfOk result (λ log. log.shape ≡ record { bank = 64; largest = 32 }) }
    ensures of { IfOk result (IsReady D.Disk disk.new) }
{
    let mut log = open(alloc, disk)?;
    let body = vec![in alloc; b'a'; 20]?;
    add(&mut log, disk, &body)?;
    let body = vec![in alloc; b'b'; 20]?;
    add(&mut log, disk, &body)?;
    Ok(log)
}

/// Whether the bodies are each twenty times these bytes, in order.
pub fn holds(bodies: &[Vec<u8>], bytes: &[u8]) -> bool {
    let mut at = 0;
    for body in bodies {
        if at >= bytes.len() || body.len() != 20 || body[0] != bytes[at] || body[19] != bytes[at] {
            return false;
        }
        at += 1;
    }
    at == bytes.len()
}
