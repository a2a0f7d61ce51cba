//! Stops and failures in each call of a commit.
use crate::{COMMITS, added_of, commit_to, file_of, kept_in, last_of, line_of, run};
use memory_outside::{DiskPart, DiskStop, MemoryDisk};
use node_store::StoreError;
use std::alloc::Global;
use std::test::Fail;

const PARTS: &[DiskPart] = &[
    DiskPart::Nothing,
    DiskPart::Whole,
    DiskPart::Filled(0x00),
    DiskPart::Filled(0x57),
    DiskPart::Filled(0xA5),
];

// Whether a commit that failed spent the store, with the node as it was, and left the node before it or after it on the disk.
fn is_either(
    alloc: Global,
    disk: MemoryDisk,
    body: &[Vec<u8>],
    before: &str,
    after: &str,
) -> Result<bool, StoreError> {
    let left = commit_to(alloc, disk, body)?;
    let is_spent = left.answer == Err(StoreError::Spent) && left.line.as_str() == before;
    let found = kept_in(alloc, left.bytes)?;
    Ok(is_spent && (found.as_str() == before || found.as_str() == after))
}

// Whether this is so where that call fails, and where the disk stops in it with each of these parts.
fn are_either(
    alloc: Global,
    bytes: &[u8],
    call: u64,
    parts: &[DiskPart],
    body: &[Vec<u8>],
    before: &str,
    after: &str,
) -> Result<bool, StoreError> {
    let disk = MemoryDisk::new(bytes.to_vec(alloc)?, vec![in alloc; call]?)?;
    if !is_either(alloc, disk, body, before, after)? {
        return Ok(false);
    }
    for part in parts {
        let stop = Some(DiskStop { call, part: *part });
        let disk = MemoryDisk::of(bytes.to_vec(alloc)?, Vec::new(alloc), stop)?;
        if !is_either(alloc, disk, body, before, after)? {
            return Ok(false);
        }
    }
    Ok(true)
}

// How many calls an opening of a disk with these bytes and commits of these bodies make.
fn count_of_calls(alloc: Global, bytes: &[u8], bodies: &[Vec<u8>]) -> Result<u64, StoreError> {
    let disk = MemoryDisk::new(bytes.to_vec(alloc)?, Vec::new(alloc))?;
    let left = commit_to(alloc, disk, bodies)?;
    Ok(left.calls)
}

// How many calls a commit makes, where one that fails or stops in any of these leaves the node before or after it.
fn calls_if_safe(
    alloc: Global,
    bytes: &[u8],
    body: &[Vec<u8>],
    stops: &Stops<'_>,
    before: &str,
    after: &str,
) -> Result<Option<u64>, StoreError> {
    let first = count_of_calls(alloc, bytes, &[])?;
    let end = count_of_calls(alloc, bytes, body)?;
    for place in stops.places {
        let call = first.saturating_add(*place);
        if call < end && !are_either(alloc, bytes, call, stops.parts, body, before, after)? {
            return Ok(None);
        }
    }
    Ok(end.checked_sub(first))
}

/// Which stops there are: in these calls of a commit, counted from 0, of each of which these parts are left.
#[derive(Clone, Copy)]
pub struct Stops<'a> {
    pub places: &'a [u64],
    pub parts: &'a [DiskPart],
}

/// How many calls a commit of the event of a word to a store of these bytes, which the events of the words before it led to, makes,
/// where it is safe.
pub fn calls_of(
    alloc: Global,
    bytes: &[u8],
    words: &str,
    word: &str,
    stops: &Stops<'_>,
) -> Result<Option<u64>, StoreError> {
    let before = line_of(alloc, words, "")?;
    let after = line_of(alloc, words, word)?;
    let body = last_of(alloc, words, word)?;
    calls_if_safe(alloc, bytes, &body, stops, &before, &after)
}

// The calls of a commit that adds at most three bodies.
const EACH: &[u64] = &[0, 1, 2, 3, 4, 5, 6, 7, 8, 9, 10, 11];

fn calls_after(alloc: Global, words: &str, word: &str) -> Result<Option<u64>, StoreError> {
    let bytes = run(alloc, words, "")?.bytes;
    let stops = Stops {
        places: EACH,
        parts: PARTS,
    };
    calls_of(alloc, &bytes, words, word, &stops)
}

#[test]
fn a_commit_makes_four_calls_a_body_that_leave_the_node_before_or_after(
    rt: HostRuntime,
) -> Result<(), Fail> {
    for (words, word, bodies) in COMMITS {
        assert_eq!(rt;
            calls_after(rt.alloc(), words, word)?,
            bodies.checked_mul(4),
            "{words} {word}"
        );
    }
    Ok(())
}

// Whether a commit that stops in that call leaves the node before it, and one more then leaves what a commit without a stop does.
fn goes_on(
    alloc: Global,
    bytes: &[u8],
    body: &[Vec<u8>],
    stop: DiskStop,
    wanted: &[u8],
) -> Result<bool, StoreError> {
    let disk = MemoryDisk::of(bytes.to_vec(alloc)?, Vec::new(alloc), Some(stop))?;
    let stopped = commit_to(alloc, disk, body)?;
    let found = kept_in(alloc, stopped.bytes.to_vec(alloc)?)?;
    let is_before = stopped.answer == Err(StoreError::Spent) && found == stopped.line;
    let left = commit_to(
        alloc,
        MemoryDisk::new(stopped.bytes, Vec::new(alloc))?,
        body,
    )?;
    Ok(is_before && left.answer == Ok(()) && left.bytes.as_slice() == wanted)
}

// Whether it does so in each of the first of the commit's calls.
fn all_go_on(alloc: Global, words: &str, word: &str, calls: u64) -> Result<bool, StoreError> {
    let bytes = run(alloc, words, "")?.bytes;
    let body = last_of(alloc, words, word)?;
    let wanted = file_of(alloc, &added_of(alloc, words, word)?)?;
    let first = count_of_calls(alloc, &bytes, &[])?;
    for place in 0..calls {
        for part in PARTS {
            let stop = DiskStop {
                call: first.saturating_add(place),
                part: *part,
            };
            if !goes_on(alloc, &bytes, &body, stop, &wanted)? {
                return Ok(false);
            }
        }
    }
    Ok(true)
}

// Four calls for each Blob, and then four for the Stage, which alone makes the node another one.
#[test]
fn a_stop_in_or_between_blobs_leaves_the_node_before(rt: HostRuntime) -> Result<(), Fail> {
    assert!(rt; all_go_on(rt.alloc(), "init", "Ab", 8)?);
    assert!(rt; all_go_on(rt.alloc(), "init A", "bA", 4)?);
    Ok(())
}
