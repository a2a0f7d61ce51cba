//! Stops and failures in each call of a change.
use crate::{GapDisk, after, call_over, run, shown_in, two_banks};
use memory_outside::{DiskPart, DiskStop, MemoryDisk};
use pull_store::PullError;
use std::alloc::Global;
use std::test::Fail;

// The words of the calls before one, its own, how many calls of the disk it makes, and the rows before and after it.
const CHANGES: &[(&str, &str, u64, &str, &str)] = &[
    ("", "RAx", 4, "", "Ax"),
    ("RAx", "RBy", 4, "Ax", "Ax By"),
    ("RAx PA1a", "RAz", 4, "Ax:1a", "Az:1a"),
    ("RAx", "PA1a", 4, "Ax", "Ax:1a"),
    ("RAx PA1a PA2b", "PA1c", 4, "Ax:1a:2b", "Ax:1c:2b"),
    (
        "RAx PA1a PA2b PA3c PA4d",
        "PA5e",
        4,
        "Ax:1a:2b:3c:4d",
        "Ax:2b:3c:4d:5e",
    ),
    ("RAx RBy PB1b", "PA1a", 4, "Ax By:1b", "Ax:1a By:1b"),
    // agents are forgotten in the second bank: a write of each body that is left, and of the closed gate, a sync, the selector, a sync
    ("RHh FH RAx RBy", "FB", 5, "Ax By", "Ax"),
    (
        "RHh FH RAx PA1a PA2b RBy RCz",
        "FBC",
        7,
        "Ax:1a:2b By Cz",
        "Ax:1a:2b",
    ),
    ("RHh FH RAx PA1a RBy PB2b", "FA", 6, "Ax:1a By:2b", "By:2b"),
    ("RHh FH RAx RBy PB1b", "FAB", 4, "Ax By:1b", ""),
    // and in the first, with 5,120 writes of zeros up to the second bank
    ("RAx RBy PB1b", "FB", 5_125, "Ax By:1b", "Ax"),
];

const PARTS: &[DiskPart] = &[
    DiskPart::Nothing,
    DiskPart::Whole,
    DiskPart::Filled(0x00),
    DiskPart::Filled(0x32),
    DiskPart::Filled(0x57),
    DiskPart::Filled(0xA5),
];

// Whether a call that failed spent the store, with the rows as they were, and left those before it or after it on the disk.
fn is_either(
    alloc: Global,
    disk: GapDisk,
    word: &str,
    before: &str,
    after: &str,
) -> Result<bool, PullError> {
    let left = call_over(alloc, disk, word)?;
    let is_spent = left.answer == Err(PullError::Spent) && left.kept.line.as_str() == before;
    let found = shown_in(alloc, left.bytes)?;
    Ok(is_spent && (found.as_str() == before || found.as_str() == after))
}

// Whether this is so where that call of the disk fails, and where the disk stops in it.
fn are_either(
    alloc: Global,
    bytes: &[u8],
    call: u64,
    word: &str,
    before: &str,
    after: &str,
) -> Result<bool, PullError> {
    let kept = MemoryDisk::new(bytes.to_vec(alloc)?, vec![in alloc; call]?)?;
    if !is_either(alloc, two_banks(alloc, kept), word, before, after)? {
        return Ok(false);
    }
    for part in PARTS {
        let stop = Some(DiskStop { call, part: *part });
        let kept = MemoryDisk::of(bytes.to_vec(alloc)?, Vec::new(alloc), stop)?;
        if !is_either(alloc, two_banks(alloc, kept), word, before, after)? {
            return Ok(false);
        }
    }
    Ok(true)
}

// How many calls an opening of a disk with these bytes and the call of the word make.
fn count_of_calls(alloc: Global, bytes: &[u8], word: &str) -> Result<u64, PullError> {
    let left = after(alloc, bytes.to_vec(alloc)?, word)?;
    Ok(left.calls)
}

// Whether this is so for the first two calls of the disk and the last six ones, and each 512th of those between them, which write zeros; and
// there are that many calls.
fn is_safe(
    alloc: Global,
    words: &str,
    word: &str,
    count: u64,
    before: &str,
    after: &str,
) -> Result<bool, PullError> {
    let bytes = run(alloc, words)?.bytes;
    let first = count_of_calls(alloc, &bytes, "")?;
    let end = count_of_calls(alloc, &bytes, word)?;
    for call in first..end {
        let is_zeros = call > first.saturating_add(1) && call.saturating_add(6) < end;
        let is_tried = !is_zeros || call % 512 == 0;
        if is_tried && !are_either(alloc, &bytes, call, word, before, after)? {
            return Ok(false);
        }
    }
    Ok(first.saturating_add(count) == end)
}

#[test]
fn a_call_that_fails_or_stops_leaves_the_rows_before_or_after(rt: HostRuntime) -> Result<(), Fail> {
    for (words, word, count, before, after) in CHANGES {
        assert!(rt;
            is_safe(rt.alloc(), words, word, *count, before, after)?,
            "{words} {word}"
        );
    }
    Ok(())
}
