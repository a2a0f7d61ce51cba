//! A registration for which the first bank has no capacity.
use crate::{GapDisk, HEAD, call_over, push_cell, report};
use memory_outside::MemoryDisk;
use pull_store::PullError;
use std::alloc::{AllocError, Global};
use std::test::Fail;

// How many reports of 131,072 bytes stand in the bank, and the bytes of the last report, with which it has capacity for 20 more.
const COUNT: u64 = 2_559;

const LAST: usize = 33_741;

// The bodies of the registrations of the agents A and B.
const AGENT: &[u8] = b"\x01\0\0\0\0\0\0\0\0\0\0\0\0\0\0\0A\0\0\0\x01x\0\0\0";

const ADDED: &[u8] = b"\x01\0\0\0\0\0\0\0\0\0\0\0\0\0\0\0B\0\0\0\x01y\0\0\0";

// The bytes of the disk but for those of the reports before the last one.
fn kept(alloc: Global) -> Result<Vec<u8>, AllocError> {
    let mut bytes = HEAD.to_vec(alloc)?;
    push_cell(&mut bytes, AGENT)?;
    push_cell(&mut bytes, &report(alloc, LAST)?)?;
    bytes.push(0)?;
    Ok(bytes)
}

// A disk of which the first bank has the registration of A, and its report so often that another body has no capacity.
fn full(alloc: Global, kept: MemoryDisk) -> Result<GapDisk, AllocError> {
    let mut filling = Vec::new(alloc);
    push_cell(&mut filling, &report(alloc, 131_072)?)?;
    Ok(GapDisk {
        kept,
        begin: 38,
        length: (filling.len() as u64).saturating_mul(COUNT),
        filling,
    })
}

// The same bytes after a rewrite: zeros from the closed gate up to the second bank, and there the rows.
fn rewritten(alloc: Global) -> Result<Vec<u8>, AllocError> {
    let mut bytes = kept(alloc)?;
    bytes.extend_from_slice(&[0; 20])?;
    push_cell(&mut bytes, AGENT)?;
    push_cell(&mut bytes, &report(alloc, LAST)?)?;
    push_cell(&mut bytes, ADDED)?;
    bytes.push(0)?;
    if let Some(selector) = bytes.get_mut(7) {
        *selector = b'2';
    }
    Ok(bytes)
}

// Whether a call leaves two rows and these bytes of the disk.
fn leaves(alloc: Global, bytes: Vec<u8>, word: &str, wanted: &[u8]) -> Result<bool, PullError> {
    let kept = MemoryDisk::new(bytes, Vec::new(alloc))?;
    let left = call_over(alloc, full(alloc, kept)?, word)?;
    Ok(left.answer == Ok(()) && left.kept.rows == 2 && left.bytes.as_slice() == wanted)
}

#[test]
fn the_rows_are_written_into_the_second_bank(rt: HostRuntime) -> Result<(), Fail> {
    let wanted = rewritten(rt.alloc())?;
    assert!(rt; leaves(rt.alloc(), kept(rt.alloc())?, "RBy", &wanted)?);
    assert!(rt; leaves(rt.alloc(), rewritten(rt.alloc())?, "", &wanted)?);
    Ok(())
}
