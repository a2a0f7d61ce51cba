//! What calls of a store make of its rows.
use crate::{file_of, run, shown_in};
use pull_store::PullError;
use std::alloc::Global;
use std::test::Fail;

// The words of calls, and the rows after them.
const KEPT: &[(&str, &str)] = &[
    ("", ""),
    ("RAx", "Ax"),
    ("RAx RBy", "Ax By"),
    ("RBy RAx", "Ax By"),
    ("RAx RAy", "Ay"),
    ("RAx PA1a", "Ax:1a"),
    ("RAx PA1", "Ax:1"),
    ("RAx PA1a RAy", "Ay:1a"),
    ("RAx PA1a RAx", "Ax:1a"),
    ("RAx PA1a PA1b", "Ax:1b"),
    ("RAx PA1a PA2b PA1c", "Ax:1c:2b"),
    ("RAx PA1a PA2b PA3c PA4d", "Ax:1a:2b:3c:4d"),
    ("RAx PA1a PA2b PA3c PA4d PA5e", "Ax:2b:3c:4d:5e"),
    ("RAx PA1a PA2b PA3c PA4d PA5e PA1f", "Ax:3c:4d:5e:1f"),
    ("RAx PA1a PA2b PA3c PA4d PA5e PA3f", "Ax:2b:3f:4d:5e"),
    ("RAx PA1a PA2b PA3c PA4d PA4f RAy PA5e", "Ay:2b:3c:4f:5e"),
    ("RAx RBy PB1b PA1a", "Ax:1a By:1b"),
    (
        "RAx RBy PA1a PA2b PA3c PA4d PB9z PA5e",
        "Ax:2b:3c:4d:5e By:9z",
    ),
    ("RAx RBy PB1b RAz", "Az By:1b"),
    // agents are forgotten
    ("RAx RBy RCz FB", "Ax Cz"),
    ("RAx RBy RCz FA", "By Cz"),
    ("RAx RBy RCz FC", "Ax By"),
    ("RAx PA1a RBy PB2b RCz PC3c FCA", "By:2b"),
    ("RAx PA1a PA2b RAy PA1c RBy FB", "Ay:1c:2b"),
    ("RAx PA1a PA2b PA3c PA4d PA5e RBy FB", "Ax:2b:3c:4d:5e"),
    ("RAx RBy FBBD", "Ax"),
    ("RAx RBy PB1b FAB", ""),
    ("RAx RBy PB1b FAB RHn PH1m", "Hn:1m"),
    ("RAx RBy RCz PC1c FB RHn PH1m", "Ax Cz:1c Hn:1m"),
    ("RAx RBy RCz PC1c FB RHn PH1m FH", "Ax Cz:1c"),
];

// Whether the store keeps this, in memory and on its disk.
fn is_kept(alloc: Global, words: &str, wanted: &str) -> Result<bool, PullError> {
    let left = run(alloc, words)?;
    let is_done = left.answer == Ok(()) && left.kept.line.as_str() == wanted;
    Ok(is_done && shown_in(alloc, left.bytes)?.as_str() == wanted)
}

#[test]
fn rows_are_kept_and_forgotten(rt: HostRuntime) -> Result<(), Fail> {
    for (words, wanted) in KEPT {
        assert!(rt; is_kept(rt.alloc(), words, wanted)?, "{words}");
    }
    Ok(())
}

// The words of calls, the same with one more, and what comes of that: a report of an agent that has no row, or agents of whom none
// has one are forgotten.
const UNTOUCHED: &[(&str, &str, Result<(), PullError>)] = &[
    ("", "PA1a", Err(PullError::NoAgent)),
    ("RAx", "RAx PB1b", Err(PullError::NoAgent)),
    ("RAx RBy PA1a", "RAx RBy PA1a PC1c", Err(PullError::NoAgent)),
    ("RAx RBy FB", "RAx RBy FB PB1b", Err(PullError::NoAgent)),
    ("", "FA", Ok(())),
    ("RAx PA1a", "RAx PA1a FB", Ok(())),
    ("RAx RBy", "RAx RBy FCD", Ok(())),
    ("RAx", "RAx F", Ok(())),
];

// Whether the last call is answered so, with no call of the disk, and the rows are as they were.
fn is_untouched(
    alloc: Global,
    words: &str,
    more: &str,
    wanted: Result<(), PullError>,
) -> Result<bool, PullError> {
    let before = run(alloc, words)?;
    let after = run(alloc, more)?;
    let is_same = after.kept.line == before.kept.line && after.bytes == before.bytes;
    Ok(is_same && after.calls == before.calls && after.answer == wanted)
}

#[test]
fn agents_without_a_row_leave_the_disk_alone(rt: HostRuntime) -> Result<(), Fail> {
    for (words, more, wanted) in UNTOUCHED {
        assert!(rt; is_untouched(rt.alloc(), words, more, *wanted)?, "{more}");
    }
    Ok(())
}

// The words of calls, and the bodies that they write: one each.
const WRITTEN: &[(&str, &[&[u8]])] = &[
    ("", &[]),
    (
        "RAx PA1ab RB RAyz PA1",
        &[
            b"\x01\0\0\0\0\0\0\0\0\0\0\0\0\0\0\0A\0\0\0\x01x\0\0\0",
            b"\x02\0\0\0\0\0\0\0\0\0\0\0\0\0\0\0A\0\0\0\0\0\0\0\0\0\0\0\0\0\0\01ab",
            b"\x01\0\0\0\0\0\0\0\0\0\0\0\0\0\0\0B\0\0\0\0\0\0\0",
            b"\x01\0\0\0\0\0\0\0\0\0\0\0\0\0\0\0A\0\0\0\x02yz\0\0\0",
            b"\x02\0\0\0\0\0\0\0\0\0\0\0\0\0\0\0A\0\0\0\0\0\0\0\0\0\0\0\0\0\0\01",
        ],
    ),
];

fn is_written(alloc: Global, words: &str, bodies: &[&[u8]]) -> Result<bool, PullError> {
    let left = run(alloc, words)?;
    Ok(left.bytes == file_of(alloc, bodies)?)
}

#[test]
fn a_call_writes_one_body(rt: HostRuntime) -> Result<(), Fail> {
    for (words, bodies) in WRITTEN {
        assert!(rt; is_written(rt.alloc(), words, bodies)?, "{words}");
    }
    Ok(())
}
