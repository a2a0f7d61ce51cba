//! That ample memory is enough, and the texts of errors.
use crate::{file_with, put, register};
use dsc_outside::Disk;
use memory_outside::MemoryDisk;
use pull_store::{PullError, open_pull};
use std::alloc::{AllocError, Global};
use std::fmt::Write;
use std::test::Fail;

// The bytes of each of the three texts, how many names there are, and the bytes of each.
const REGISTRATIONS: &[(usize, u8, usize)] = &[
    (0, 0, 0),
    (1, 1, 1),
    (2, 2, 2),
    (7, 3, 63),
    (63, 15, 64),
    (64, 16, 65),
    (65, 16, 1),
    (127, 16, 254),
    (128, 16, 255),
    (4_096, 1, 255),
    (43_000, 0, 0),
];

const REPORTS: &[usize] = &[
    0, 1, 2, 7, 63, 64, 65, 127, 128, 4_095, 4_096, 65_535, 65_536, 131_071, 131_072,
];

// The message of such a registration.
fn message(alloc: Global, text: usize, count: u8, name: usize) -> Result<Vec<u8>, AllocError> {
    let mut message = b"{\"AgentInformation\":{\"LCMVersion\":".to_vec(alloc)?;
    push_text(&mut message, text)?;
    message.extend_from_slice(b",\"NodeName\":")?;
    push_text(&mut message, text)?;
    message.extend_from_slice(b",\"IPAddress\":")?;
    push_text(&mut message, text)?;
    message.extend_from_slice(b"},\"ConfigurationNames\":[")?;
    push_names(&mut message, count, name)?;
    message.extend_from_slice(b"]}")?;
    Ok(message)
}

fn push_text(message: &mut Vec<u8>, size: usize) -> Result<(), AllocError> {
    message.push(b'"')?;
    let end = message.len().saturating_add(size);
    message.resize(end, b't')?;
    Ok(message.push(b'"')?)
}

fn push_names(message: &mut Vec<u8>, count: u8, name: usize) -> Result<(), AllocError> {
    for place in 0..count {
        if place > 0 {
            message.push(b',')?;
        }
        push_text(message, name)?;
    }
    Ok(())
}

// Registers an agent by this message, and puts a report of it.
fn keep<D: Disk>(
    alloc: Global,
    disk: &mut D,
    message: &[u8],
    body: &[u8],
) -> Result<(), PullError> {
    let mut store = open_pull(alloc, disk)?;
    register(alloc, &mut store, disk, 65, message)?;
    put(alloc, &mut store, disk, 65, 49, body)
}

// The bytes of a new disk after such a registration and a report of that many bytes.
fn written(
    alloc: Global,
    text: usize,
    count: u8,
    name: usize,
    size: usize,
) -> Result<Vec<u8>, PullError> {
    let message = message(alloc, text, count, name)?;
    let body = vec![in alloc; b'r'; size]?;
    let mut disk = MemoryDisk::new(Vec::new(alloc), Vec::new(alloc))?;
    keep(alloc, &mut disk, &message, &body)?;
    Ok(disk.after_stop()?)
}

// Whether these are the bytes of a file with both.
fn are_kept(
    alloc: Global,
    text: usize,
    count: u8,
    name: usize,
    size: usize,
) -> Result<bool, PullError> {
    let file = file_with(alloc, &[text, text, text], count, name, size)?;
    Ok(written(alloc, text, count, name, size)? == file)
}

#[test]
fn ample_memory_is_enough_for_each_size(rt: HostRuntime) -> Result<(), Fail> {
    for (text, count, name) in REGISTRATIONS {
        let answer = are_kept(rt.alloc(), *text, *count, *name, 1);
        assert_eq!(rt; answer, Ok(true), "{text} {count} {name}");
    }
    for size in REPORTS {
        assert_eq!(rt; are_kept(rt.alloc(), 1, 1, 1, *size), Ok(true), "{size}");
    }
    Ok(())
}

const TEXTS: &[(PullError, &str)] = &[
    (PullError::Spent, "the store is spent"),
    (PullError::Agents, "too many agents"),
    (PullError::NoAgent, "no such agent"),
    (
        PullError::Full {
            need: 335_544_321,
            room: 335_544_320,
        },
        "no room: 335544321 bytes needed of 335544320",
    ),
    (PullError::Disk, "the disk failed"),
    (
        PullError::NotAStore { at: 47 },
        "no store: byte 47 is wrong or missing",
    ),
    (PullError::Memory, "out of memory"),
];

#[test]
fn an_error_is_printed(rt: HostRuntime) -> Result<(), Fail> {
    for (error, text) in TEXTS {
        let mut line = String::new(rt.alloc());
        write!(line, "{error}")?;
        assert!(rt; line.as_str() == *text);
    }
    Ok(())
}
