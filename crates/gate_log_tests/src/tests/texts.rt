//! Bodies of many sizes, and the texts of errors.
use super::stores::with_memory;
use gate_log::{Bodies, LogError, Shape, replay_log};
use memory_outside::MemoryDisk;
use std::alloc::Global;
use std::fmt::Write;
use std::test::Fail;

const SIZES: &[usize] = &[0, 1, 2, 7, 63, 64, 65, 4_096, 65_535, 196_608];

const LARGE: Shape = Shape {
    bank: 335_544_320,
    largest: 196_608,
};

// Whether a body of that size is appended to a new store, and found again.
fn comes_back(alloc: Global, size: usize) -> Result<bool, LogError> {
    let body = vec![in alloc; 7u8; size]?;
    let mut disk = with_memory(MemoryDisk::new(Vec::new(alloc), Vec::new(alloc)))?;
    let mut log = replay_log(alloc, &mut disk, LARGE, &mut Bodies::new(alloc))?;
    if size > 196_608 || !log.has_room(size as u32) {
        return Ok(false);
    }
    log.append(&mut disk, &body)?;
    is_found(alloc, disk, &body)
}

// The same, where the body lies in two pieces, the first of them after four bytes.
fn comes_back_in_place(alloc: Global, size: usize) -> Result<bool, LogError> {
    if size > 196_608 {
        return Ok(false);
    }
    let first = size / 2;
    let mut head = vec![in alloc; 7u8; first + 4]?;
    let tail = vec![in alloc; 8u8; size - first]?;
    let mut disk = with_memory(MemoryDisk::new(Vec::new(alloc), Vec::new(alloc)))?;
    let mut log = replay_log(alloc, &mut disk, LARGE, &mut Bodies::new(alloc))?;
    if !log.has_room(size as u32) {
        return Ok(false);
    }
    log.append_in_place(&mut disk, &mut head, &tail)?;
    let mut body = vec![in alloc; 7u8; first]?;
    body.extend_from_slice(&tail)?;
    is_found(alloc, disk, &body)
}

// Whether the next opening finds this body first.
fn is_found(alloc: Global, disk: MemoryDisk, body: &[u8]) -> Result<bool, LogError> {
    let mut disk = with_memory(MemoryDisk::new(with_memory(disk.after_stop())?, Vec::new(alloc)))?;
    let mut bodies = Bodies::new(alloc);
    replay_log(alloc, &mut disk, LARGE, &mut bodies)?;
    match bodies.as_slice().first() {
        Some(found) => Ok(found.as_slice() == body),
        None => Ok(false),
    }
}

#[test]
fn a_body_of_each_size_comes_back(rt: HostRuntime) -> Result<(), Fail> {
    for size in SIZES {
        assert!(rt; comes_back(rt.alloc(), *size)?, "{size}");
        assert!(rt; comes_back_in_place(rt.alloc(), *size)?, "{size} in place");
    }
    Ok(())
}

const TEXTS: &[(LogError, &str)] = &[
    (LogError::Disk, "the disk failed"),
    (
        LogError::NotAStore { at: 59 },
        "no store: byte 59 is wrong or missing",
    ),
    (LogError::Memory, "out of memory"),
];

#[test]
fn an_error_is_printed(rt: HostRuntime) -> Result<(), Fail> {
    for (error, text) in TEXTS {
        let mut line = String::new(rt.alloc());
        write!(line, "{error}")?;
        assert!(rt; line.as_str() == *text);
    }
    Ok(())
}
