//! The calls of the disk that an append makes.
use super::stores::with_memory;
use gate_log::{Bodies, LogError, Shape, replay_log};
use memory_outside::{CallOutcome, DiskCall, MemoryDisk, RecordedCall};
use mof_values::Bytes;
use std::alloc::{AllocError, Global};
use std::test::Fail;

const LARGE: Shape = Shape {
    bank: 1_048_576,
    largest: 196_608,
};

// The bytes of a body, and of them those that lie in front of the others.
const SHORT: &[(usize, usize)] = &[
    (0, 0),
    (1, 0),
    (1, 1),
    (8, 8),
    (700, 650),
    (65_536, 0),
    (65_536, 10),
    (65_536, 65_536),
];

const LONG: &[(usize, usize)] = &[(65_537, 0), (65_537, 65_537), (196_608, 100)];

// The calls of an append to a new store: the cell and a closed gate, a sync, the open gate, a sync.
fn four_calls(alloc: Global, body: &[u8]) -> Result<Vec<RecordedCall>, LogError> {
    let length = u32::try_from(body.len()).unwrap_or(u32::MAX);
    let mut cell = length.to_be_bytes().to_vec(alloc)?;
    cell.extend_from_slice(body)?;
    cell.push(0)?;
    let mut calls = Vec::new(alloc);
    push_write(&mut calls, 9, cell)?;
    push_write(&mut calls, 8, vec![in alloc; 0xA5u8]?)?;
    Ok(calls)
}

// Adds a write that was done, and a sync after it.
fn push_write(calls: &mut Vec<RecordedCall>, at: u64, bytes: Vec<u8>) -> Result<(), AllocError> {
    calls.push(done(DiskCall::WriteAt {
        at,
        bytes: Bytes::of(bytes),
    }))?;
    calls.push(done(DiskCall::Sync))?;
    Ok(())
}

fn done(call: DiskCall) -> RecordedCall {
    RecordedCall {
        call,
        outcome: CallOutcome::Done,
    }
}

// Whether the calls write all of the cell in front of the first sync, and make one more write.
fn are_more(calls: &[RecordedCall]) -> bool {
    let written = calls.len().saturating_sub(3);
    let are_writes = calls.iter().take(written).all(|recorded| matches!(
        recorded.call,
        DiskCall::WriteAt { .. }
    ));
    let syncs = calls
        .iter()
        .filter(|recorded| recorded.call == DiskCall::Sync)
        .count();
    written > 0 && are_writes && syncs == 2
}

// The calls from that one on.
fn calls_from(disk: &MemoryDisk, first: usize) -> &[RecordedCall] {
    disk.calls().get(first..).unwrap_or(&[])
}

// Whether an append of that many bytes makes the four calls.
fn is_appended(alloc: Global, size: usize) -> Result<bool, LogError> {
    let body = vec![in alloc; 7u8; size]?;
    let mut disk = with_memory(MemoryDisk::new(Vec::new(alloc), Vec::new(alloc)))?;
    let mut log = replay_log(alloc, &mut disk, LARGE, &mut Bodies::new(alloc))?;
    let opening = disk.calls().len();
    if size > 196_608 || !log.has_room(size as u32) {
        return Ok(false);
    }
    log.append(&mut disk, &body)?;
    Ok(calls_from(&disk, opening) == four_calls(alloc, &body)?.as_slice())
}

// A disk with a new store to which a body was appended in place, the first bytes of it from another place than the others, and
// how many calls the opening made.
fn appended_in_place(
    alloc: Global,
    size: usize,
    first: usize,
) -> Result<(MemoryDisk, usize), LogError> {
    let mut disk = with_memory(MemoryDisk::new(Vec::new(alloc), Vec::new(alloc)))?;
    let mut log = replay_log(alloc, &mut disk, LARGE, &mut Bodies::new(alloc))?;
    let opening = disk.calls().len();
    if size > 196_608 || first > size || !log.has_room(size as u32) {
        return Ok((disk, opening));
    }
    let mut head = vec![in alloc; 7u8; first + 4]?;
    let tail = vec![in alloc; 7u8; size - first]?;
    log.append_in_place(&mut disk, &mut head, &tail)?;
    Ok((disk, opening))
}

fn is_appended_in_place(alloc: Global, size: usize, first: usize) -> Result<bool, LogError> {
    let (disk, opening) = appended_in_place(alloc, size, first)?;
    let body = vec![in alloc; 7u8; size]?;
    Ok(calls_from(&disk, opening) == four_calls(alloc, &body)?.as_slice())
}

#[test]
fn a_body_of_up_to_65536_bytes_is_appended_in_four_calls(rt: HostRuntime) -> Result<(), Fail> {
    for (size, first) in SHORT {
        assert!(rt; is_appended(rt.alloc(), *size)?, "{size}");
        assert!(rt;
            is_appended_in_place(rt.alloc(), *size, *first)?,
            "{size} {first}"
        );
    }
    Ok(())
}

#[test]
fn a_longer_body_is_whole_before_the_first_sync(rt: HostRuntime) -> Result<(), Fail> {
    for (size, first) in LONG {
        assert!(rt; is_appended(rt.alloc(), *size)?, "{size}");
        let (disk, opening) = appended_in_place(rt.alloc(), *size, *first)?;
        assert!(rt; are_more(calls_from(&disk, opening)), "{size} {first}");
    }
    Ok(())
}
