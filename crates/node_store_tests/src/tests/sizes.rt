//! That ample memory is enough, and the texts of errors.
use crate::{COMMITS, bodies_of, commit_to, kept_in, push_name, run, shown, staged};
use memory_outside::MemoryDisk;
use node_state::Why;
use node_store::{StoreError, open_store};
use std::alloc::{AllocError, Global};
use std::fmt::Write;
use std::test::Fail;

// How many parts are staged, the bytes of the name and of the document of each.
const LISTS: &[(u8, usize, usize)] = &[
    (1, 0, 44),
    (1, 1, 45),
    (1, 63, 63),
    (1, 64, 64),
    (1, 65, 65),
    (1, 127, 127),
    (1, 128, 128),
    (1, 254, 129),
    (1, 255, 1_000),
    (2, 2, 4_096),
    (3, 3, 100),
    (8, 255, 44),
    (8, 4, 700),
    (1, 5, 20_000),
];

// How many resources a report lists, the bytes of the id of each and of the version.
const REPORTS: &[(u8, usize, usize)] = &[
    (0, 0, 0),
    (0, 0, 1),
    (1, 0, 2),
    (1, 1, 63),
    (2, 255, 64),
    (3, 256, 8),
    (31, 3, 9),
    (64, 1, 10),
    (64, 256, 64),
];

// Notes a run in which resources were skipped.
fn noted(alloc: Global, count: u8, id: usize, version: usize) -> Result<Vec<u8>, AllocError> {
    let mut body = b"\x06\0\0\0\0\0\0\0\x01\x01\x01".to_vec(alloc)?;
    body.extend_from_slice(&[0; 16])?;
    push_name(&mut body, 0, version)?;
    body.extend_from_slice(&[1, 0, 0, 1, 0, 0, 0, 1, 0, count])?;
    for place in 0..count {
        push_name(&mut body, place, id)?;
        body.push(1)?;
    }
    body.push(0)?;
    Ok(body)
}

// Whether a new store takes the body after the events of these words, and the next opening finds it.
fn is_taken(alloc: Global, words: &str, body: Vec<u8>, wanted: &str) -> Result<bool, StoreError> {
    let mut bodies = bodies_of(alloc, words, "")?;
    bodies.push(body)?;
    let disk = MemoryDisk::new(Vec::new(alloc), Vec::new(alloc))?;
    let left = commit_to(alloc, disk, &bodies)?;
    let found = kept_in(alloc, left.bytes)?;
    Ok(left.answer == Ok(()) && left.line == found && found.as_str().starts_with(wanted))
}

#[test]
fn ample_memory_is_enough_for_each_size(rt: HostRuntime) -> Result<(), Fail> {
    for (count, name, size) in LISTS {
        let body = staged(rt.alloc(), *count, *name, *size)?;
        let answer = is_taken(rt.alloc(), "init", body, "agent pending ");
        assert_eq!(rt; answer, Ok(true), "{count} {name} {size}");
    }
    for (count, id, version) in REPORTS {
        let body = noted(rt.alloc(), *count, *id, *version)?;
        let answer = is_taken(rt.alloc(), "init A", body, "agent pending A r1 job 2");
        assert_eq!(rt; answer, Ok(true), "{count} {id} {version}");
    }
    Ok(())
}

// Whether the memory for a report is reserved, once and again, and the node stays what it is.
fn is_reserved(alloc: Global, words: &str) -> Result<bool, StoreError> {
    let before = run(alloc, words, "")?;
    let mut disk = MemoryDisk::new(before.bytes, Vec::new(alloc))?;
    let mut store = open_store(alloc, &mut disk)?;
    let is_reserved = store.reserve().is_ok() && store.reserve().is_ok();
    Ok(is_reserved && shown(alloc, store.state())? == before.line)
}

#[test]
fn ample_memory_is_reserved(rt: HostRuntime) -> Result<(), Fail> {
    for (words, _, _) in COMMITS {
        assert!(rt; is_reserved(rt.alloc(), words)?, "{words}");
    }
    Ok(())
}

// Eighteen reports, of which the newest sixteen stay.
const EIGHTEEN: &str =
    "init A note note note note note note note note note note note note note note note note note note";

#[test]
fn the_newest_sixteen_reports_stay(rt: HostRuntime) -> Result<(), Fail> {
    let left = run(rt.alloc(), EIGHTEEN, "")?;
    let wanted = "agent pending A r3 r4 r5 r6 r7 r8 r9 r10 r11 r12 r13 r14 r15 r16 r17 r18 job 19";
    assert_eq!(rt; left.line.as_str(), wanted);
    assert_eq!(rt; kept_in(rt.alloc(), left.bytes)?.as_str(), wanted);
    Ok(())
}

const TEXTS: &[(StoreError, &str)] = &[
    (StoreError::Spent, "the store must be opened again"),
    (
        StoreError::NotAllowed(Why::NoAgent),
        "the node does not allow the event",
    ),
    (StoreError::Disk, "the disk failed"),
    (
        StoreError::NotAStore { at: 35 },
        "no store of a node: byte 35 is wrong or missing",
    ),
    (StoreError::Memory, "out of memory"),
];

#[test]
fn an_error_is_printed(rt: HostRuntime) -> Result<(), Fail> {
    for (error, text) in TEXTS {
        let mut line = String::new(rt.alloc());
        write!(line, "{error}")?;
        assert!(rt; line.as_str() == *text);
    }
    Ok(())
}
