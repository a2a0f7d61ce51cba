//! Many Stages.
ghost use Rattle.std.specs.Prelude.{IfOk};
ghost use Rattle.node_state.specs.Table.{IsWithin};
ghost use Rattle.node_store.specs.Store.{IsReady};

use dsc_outside::Disk;
use mof_values::{Bytes, Memory, Text};
use node_state::{Event, stored};
use node_store::{NodeStore, StoreError};
use partial_merge::{Part, part_of};
use std::alloc::{AllocError, Global};
use std::time::Clock;

// The agent of a new node.
const AGENT: u128 = 16;

// A document of that many bytes, at least 52: a header, and a comment that begins with its number, so that no two are equal.
fn document(alloc: Global, number: u32, size: u32) -> Result<Vec<u8>, AllocError> {
    let mut bytes = b"instance of OMI_ConfigurationDocument{};/*".to_vec(alloc)?;
    for byte in &number.to_be_bytes() {
        bytes.push(b'a'.saturating_add(byte >> 4))?;
        bytes.push(b'a'.saturating_add(byte & 15))?;
    }
    bytes.resize((size as usize).saturating_sub(2), b'x')?;
    bytes.extend_from_slice(b"*/")?;
    Ok(bytes)
}

// One part without a name.
fn parts(alloc: Global, number: u32, size: u32) -> Result<Vec<Part>, AllocError> {
    let text = Bytes::of(document(alloc, number, size)?);
    let part = part_of(alloc, Text::of(Vec::new(alloc)), text)?;
    let mut parts = Vec::new(alloc);
    parts.push(part)?;
    Ok(parts)
}

// The event that stages the document of that number and so many bytes.
fn stage_of(alloc: Global, number: u32, size: u32) -> Result<Event, StoreError>
    ensures { IfOk result IsWithin }
{
    let parts = match parts(alloc, number, size) {
        Ok(parts) => parts,
        Err(AllocError) => return Err(StoreError::Memory),
    };
    match stored(alloc, parts) {
        Ok(Some(staged)) => Ok(Event::Stage(staged)),
        Ok(None) => Err(StoreError::NotAStore { at: 0 }),
        Err(Memory) => Err(StoreError::Memory),
    }
}

/// Commits that many of them, each of another document, and gives the microseconds that the fastest commit took.
pub fn stage_all<D: Disk, R: Clock>(
    rt: &R,
    alloc: Global,
    store: &mut NodeStore,
    disk: &mut D,
    count: u32,
    size: u32,
) -> Result<u128, StoreError>
    requires { IsReady D.Disk disk.old store.old }
    ensures { IsReady D.Disk disk.new store.new }
{
    with_agent(store, disk)?;
    let mut least = u128::MAX;
    for number in 0..count {
        let event = stage_of(alloc, number, size)?;
        let begin = micros_of(rt);
        store.commit(disk, event)?;
        least = least.min(micros_of(rt).saturating_sub(begin));
    }
    Ok(least)
}

// The microseconds of the clock, or 0 where it failed.
fn micros_of<R: Clock>(rt: &R) -> u128 {
    match rt.monotonic() {
        Ok(time) => time.as_micros(),
        Err(_) => 0,
    }
}

// Gives a new node its agent.
fn with_agent<D: Disk>(store: &mut NodeStore, disk: &mut D) -> Result<(), StoreError>
    requires { IsReady D.Disk disk.old store.old }
    ensures { IsReady D.Disk disk.new store.new }
{
    if store.state().agent.is_some() {
        return Ok(());
    }
    store.commit(disk, Event::Init(AGENT))
}
