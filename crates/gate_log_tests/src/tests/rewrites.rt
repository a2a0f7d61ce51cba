//! Rewrites: their bytes, and those that are given up.
use super::stores::{add, add_two, begin_with, bodies_of, holds, open, rewrite, with_memory};
use gate_log::LogError;
use memory_outside::MemoryDisk;
use std::alloc::Global;
use std::test::Fail;

// A file of two banks of 64 bytes: a cell of twenty `c` in the second, which is live. The first has those of twenty `a` and twenty `b`.
const SECOND: &[u8] =
    b"DSCSTOR2\xA5\0\0\0\x14aaaaaaaaaaaaaaaaaaaa\xA5\0\0\0\x14bbbbbbbbbbbbbbbbbbbb\0\0\0\0\0\0\0\0\0\0\0\0\0\0\xA5\0\0\0\x14cccccccccccccccccccc\0";

// The same after a rewrite back into the first bank: twenty `d`, and what else was there.
const FIRST: &[u8] =
    b"DSCSTOR1\xA5\0\0\0\x14dddddddddddddddddddd\0\0\0\0\x14bbbbbbbbbbbbbbbbbbbb\0\0\0\0\0\0\0\0\0\0\0\0\0\0\xA5\0\0\0\x14cccccccccccccccccccc\0";

// The first as the next opening leaves it.
const CUT: &[u8] = b"DSCSTOR1\xA5\0\0\0\x14dddddddddddddddddddd\0";

// Whether the disk of these bytes has these bodies, and then reads as the other bytes.
fn opens_as(alloc: Global, bytes: &[u8], bodies: &[u8], after: &[u8]) -> Result<bool, LogError> {
    let mut disk = with_memory(MemoryDisk::new(bytes.to_vec(alloc)?, Vec::new(alloc)))?;
    let are_found = holds(bodies_of(alloc, &mut disk)?.as_slice(), bodies);
    Ok(are_found && disk.bytes() == after)
}

fn is_rewritten_twice(alloc: Global) -> Result<bool, LogError> {
    let mut disk = with_memory(MemoryDisk::new(Vec::new(alloc), Vec::new(alloc)))?;
    let mut log = add_two(alloc, &mut disk)?;
    rewrite(&mut log, &mut disk, &[b'c'; 20])?;
    let is_second = disk.bytes() == SECOND;
    rewrite(&mut log, &mut disk, &[b'd'; 20])?;
    let is_first = disk.bytes() == FIRST;
    Ok(
        is_second
            && is_first
            && opens_as(alloc, SECOND, b"c", SECOND)?
            && opens_as(alloc, FIRST, b"d", CUT)?,
    )
}

#[test]
fn a_rewrite_goes_into_the_second_bank_and_back_into_the_first(
    rt: HostRuntime,
) -> Result<(), Fail> {
    assert!(rt; is_rewritten_twice(rt.alloc())?);
    Ok(())
}

// Whether a rewrite with a body of thirty `x` is given up by another one: of its bytes those stay that no other was written over.
fn after_another(alloc: Global) -> Result<bool, LogError> {
    let mut disk = with_memory(MemoryDisk::new(Vec::new(alloc), Vec::new(alloc)))?;
    let mut log = add_two(alloc, &mut disk)?;
    begin_with(&mut log, &mut disk, &[b'x'; 30])?;
    rewrite(&mut log, &mut disk, &[b'c'; 20])?;
    let bytes = disk.bytes();
    let is_second = bytes.get(..98) == Some(SECOND);
    let is_rest = bytes.get(98..) == Some(b"xxxxxxxxx\0");
    Ok(is_second && is_rest && opens_as(alloc, bytes, b"c", SECOND)?)
}

#[test]
fn a_rewrite_is_given_up_by_another_one(rt: HostRuntime) -> Result<(), Fail> {
    assert!(rt; after_another(rt.alloc())?);
    Ok(())
}

// Whether an append to a store of one body `c` gives up a rewrite: nothing can be put any more, and the store is that of its bank.
fn after_append(alloc: Global) -> Result<bool, LogError> {
    let mut disk = with_memory(MemoryDisk::new(CUT.to_vec(alloc)?, Vec::new(alloc)))?;
    let mut log = open(alloc, &mut disk)?;
    begin_with(&mut log, &mut disk, &[b'x'; 20])?;
    add(&mut log, &mut disk, &[b'e'; 20])?;
    let can_put = log.has_room_to_put(0);
    let bytes = with_memory(disk.after_stop())?;
    let is_first = bytes.get(7) == Some(&0x31) && bytes.len() == 98;
    let mut disk = with_memory(MemoryDisk::new(bytes, Vec::new(alloc)))?;
    Ok(is_first && !can_put && holds(bodies_of(alloc, &mut disk)?.as_slice(), b"de"))
}

#[test]
fn a_rewrite_is_given_up_by_an_append(rt: HostRuntime) -> Result<(), Fail> {
    assert!(rt; after_append(rt.alloc())?);
    Ok(())
}
