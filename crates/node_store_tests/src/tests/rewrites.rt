//! Commits that write the whole node into the other bank, in files of 64 MiB.
use super::stops::{Stops, calls_of};
use crate::{
    HEAD, INIT, Left, added_of, bodies_of, commit_to, file_of, filler, kept_in, last_of, line_of,
    push_cell, push_cells, staged,
};
use memory_outside::{DiskPart, MemoryDisk};
use node_store::StoreError;
use std::alloc::{AllocError, Global};
use std::test::Fail;

// The bytes of a bank, of the longest document, and of all else in the cell of a list of one part without a name, and of a Blob.
const BANK: usize = 67_108_864;

const LONGEST: usize = 8_388_608;

const HEAD_OF_STAGE: usize = 45;

const HEAD_OF_BLOB: usize = 38;

/// The words of events, one more, and the bodies of the node after it, which are written.
type Row<'a> = (&'a str, &'a str, &'a str);

const ROWS: &[Row<'_>] = &[
    (
        "init usual P",
        "meta",
        "format blob served:1 pending-marks:P",
    ),
    (
        "init meta P",
        "registered",
        "format blob registered:1 pending-marks:P",
    ),
    (
        "init usual P",
        "note",
        "format blob usual:2 pending-marks:P kept:1",
    ),
    (
        "init usual P",
        "ask",
        "format blob asked:2 pending-marks:P kept:1",
    ),
    (
        "init usual P ask",
        "boot",
        "format blob usual:2 pending-marks:P kept:1",
    ),
    (
        "init usual P note",
        "sent",
        "format blob usual:2 pending-marks:P sent:1",
    ),
    (
        "init usual P promote A",
        "promote",
        "format blob usual:3 current-marks:A previous-marks:P kept:1 kept:2",
    ),
    (
        "init usual P promote A promote",
        "restore",
        "format blob usual:3 pending-marks:P current-marks:A previous-marks:P kept:1 kept:2",
    ),
    ("init usual A", "drop-pending", "format usual:1"),
    // A Blob that Previous alone needs stays.
    (
        "init usual a promote A promote",
        "note",
        "format blob other-blob usual:4 current-marks:A previous-marks:a kept:1 kept:2 kept:3",
    ),
    // One that no stage needs goes.
    (
        "init usual a promote P",
        "drop-current",
        "format blob usual:2 pending-marks:P kept:1",
    ),
];

// The same where the event is a list, or brings Previous back.
const LISTS: &[Row<'_>] = &[
    // Parts of one document have one Blob.
    ("init usual A", "P", "format blob usual:1 pending-marks:P"),
    ("init usual", "AB", "format blob usual:1 pending-marks:AB"),
    (
        "init usual A",
        "a",
        "format other-blob usual:1 pending-marks:a",
    ),
    // Blobs stand in the order of the stages, and in each in the list's.
    (
        "init usual A promote",
        "bA",
        "format other-blob blob usual:2 pending-marks:bA current-marks:A kept:1",
    ),
    (
        "init usual a promote A promote",
        "restore",
        "format other-blob blob usual:3 pending-marks:a current-marks:A previous-marks:a kept:1 kept:2",
    ),
    (
        "init usual a promote A promote",
        "3",
        "format third-blob blob other-blob usual:3 pending-marks:3 current-marks:A previous-marks:a kept:1 kept:2",
    ),
    (
        "init usual 3 promote a promote",
        "3A",
        "format third-blob blob other-blob usual:3 pending-marks:3A current-marks:a previous-marks:3 kept:1 kept:2",
    ),
];

// ---- banks of format 2

// The front of a bank of format 2: a new node, and large Blobs that no list names.
fn large(alloc: Global) -> Result<Vec<u8>, AllocError> {
    let mut file = HEAD.to_vec(alloc)?;
    push_cell(&mut file, b"\x0F\x02")?;
    push_cell(&mut file, INIT)?;
    for byte in 0..7 {
        push_cell(&mut file, &filler(alloc, byte, LONGEST)?)?;
    }
    Ok(file)
}

// The file of a store whose live bank has this front, one more Blob, the cells of these bodies, of which the first two are in the
// front, and that many bytes left.
fn filled(
    alloc: Global,
    front: &[u8],
    bodies: &[Vec<u8>],
    left: usize,
) -> Result<Vec<u8>, AllocError> {
    let mut end = Vec::new(alloc);
    push_cells(&mut end, bodies.get(2..).unwrap_or(&[]))?;
    end.push(0)?;
    let size = (8 + BANK)
        .saturating_sub(front.len())
        .saturating_sub(end.len())
        .saturating_sub(HEAD_OF_BLOB)
        .saturating_sub(left);
    let mut file = front.to_vec(alloc)?;
    push_cell(&mut file, &filler(alloc, 7, size)?)?;
    file.extend_from_slice(&end)?;
    Ok(file)
}

// The bytes of the cells of these bodies.
fn need_of(bodies: &[Vec<u8>]) -> usize {
    let mut need: usize = 0;
    for body in bodies {
        need = need.saturating_add(body.len()).saturating_add(5);
    }
    need
}

// The file of a store whose live bank has room for all but that many bytes of the cells that the word's event adds.
fn nearly_full(
    alloc: Global,
    front: &[u8],
    words: &str,
    word: &str,
    missing: usize,
) -> Result<Vec<u8>, AllocError> {
    let before = added_of(alloc, words, "")?;
    let after = added_of(alloc, words, word)?;
    let left = need_of(&after)
        .saturating_sub(need_of(&before))
        .saturating_sub(missing);
    filled(alloc, front, &before, left)
}

// ---- banks of format 1

// The file of a store whose live bank is of format 1 and has that many bytes left: a new node, to which large documents were staged
// and taken away, and then the events of these bodies, of which the first is that of the new node.
fn filled_in_full(alloc: Global, bodies: &[Vec<u8>], left: usize) -> Result<Vec<u8>, AllocError> {
    let mut end = b"\xA5\0\0\0\x02\x0A\0".to_vec(alloc)?;
    push_cells(&mut end, bodies.get(1..).unwrap_or(&[]))?;
    end.push(0)?;
    let mut file = HEAD.to_vec(alloc)?;
    push_cell(&mut file, INIT)?;
    let list = staged(alloc, 1, 0, LONGEST)?;
    for _ in 0..7 {
        push_cell(&mut file, &list)?;
    }
    let size = (8 + BANK)
        .saturating_sub(file.len())
        .saturating_sub(end.len())
        .saturating_sub(HEAD_OF_STAGE)
        .saturating_sub(left);
    push_cell(&mut file, &staged(alloc, 1, 0, size)?)?;
    file.extend_from_slice(&end)?;
    Ok(file)
}

// The same with room for all but that many bytes of the cell of the word's event.
fn nearly_full_in_full(
    alloc: Global,
    words: &str,
    word: &str,
    missing: usize,
) -> Result<Vec<u8>, AllocError> {
    let left = need_of(&last_of(alloc, words, word)?).saturating_sub(missing);
    filled_in_full(alloc, &bodies_of(alloc, words, "")?, left)
}

// The file of a bank of format 1 of these events.
fn in_full(alloc: Global, words: &str, last: &str) -> Result<Vec<u8>, AllocError> {
    file_of(alloc, &bodies_of(alloc, words, last)?)
}

// ---- what a commit leaves

// The file with the cells of these bodies in the second bank, which is live.
fn with_second(alloc: Global, file: &[u8], bodies: &str) -> Result<Vec<u8>, AllocError> {
    let mut wanted = file.to_vec(alloc)?;
    wanted.resize(8 + BANK, 0)?;
    push_cells(&mut wanted, &bodies_of(alloc, bodies, "")?)?;
    wanted.push(0)?;
    if let Some(selector) = wanted.get_mut(7) {
        *selector = b'2';
    }
    Ok(wanted)
}

// Whether a commit of the word's event to this file leaves these bytes, and the node after it.
fn leaves(
    alloc: Global,
    file: Vec<u8>,
    words: &str,
    word: &str,
    wanted: &[u8],
) -> Result<bool, StoreError> {
    let disk = MemoryDisk::new(file, Vec::new(alloc))?;
    let body = last_of(alloc, words, word)?;
    let left = commit_to(alloc, disk, &body)?;
    is_left(alloc, left, wanted, &line_of(alloc, words, word)?)
}

fn is_left(alloc: Global, left: Left, wanted: &[u8], line: &str) -> Result<bool, StoreError> {
    let is_done = left.answer == Ok(()) && left.line.as_str() == line;
    Ok(is_done && left.bytes.as_slice() == wanted && kept_in(alloc, left.bytes)?.as_str() == line)
}

// Whether a commit of the word's event to this file is a rewrite, which writes these bodies.
fn is_rewritten(
    alloc: Global,
    file: Vec<u8>,
    words: &str,
    word: &str,
    bodies: &str,
) -> Result<bool, StoreError> {
    let wanted = with_second(alloc, &file, bodies)?;
    leaves(alloc, file, words, word, &wanted)
}

// The first of these rows whose event, where one byte of room is missing for it, is not committed by a rewrite.
fn first_not_rewritten<'a>(
    alloc: Global,
    rows: &'a [Row<'a>],
) -> Result<Option<Row<'a>>, StoreError> {
    let front = large(alloc)?;
    for (words, word, bodies) in rows {
        let file = nearly_full(alloc, &front, words, word, 1)?;
        if !is_rewritten(alloc, file, words, word, bodies)? {
            return Ok(Some((words, word, bodies)));
        }
    }
    Ok(None)
}

#[test]
fn an_event_that_lacks_one_byte_of_room_is_committed_by_a_rewrite(
    rt: HostRuntime,
) -> Result<(), Fail> {
    assert_eq!(rt; first_not_rewritten(rt.alloc(), ROWS)?, None);
    Ok(())
}

#[test]
fn a_list_that_lacks_one_byte_of_room_is_committed_by_a_rewrite(
    rt: HostRuntime,
) -> Result<(), Fail> {
    assert_eq!(rt; first_not_rewritten(rt.alloc(), LISTS)?, None);
    Ok(())
}

// Whether an event that takes the last byte of the bank is added.
fn is_added(alloc: Global, front: &[u8], words: &str, word: &str) -> Result<bool, StoreError> {
    let file = nearly_full(alloc, front, words, word, 0)?;
    let wanted = filled(alloc, front, &added_of(alloc, words, word)?, 0)?;
    leaves(alloc, file, words, word, &wanted)
}

const ADDED: &[(&str, &str)] = &[
    ("init usual P note", "sent"),
    ("init usual P", "note"),
    ("init usual P", "A"),
    ("init usual P", "a"),
    ("init usual", "Ab"),
];

#[test]
fn an_event_that_takes_the_last_byte_is_added(rt: HostRuntime) -> Result<(), Fail> {
    let front = large(rt.alloc())?;
    for (words, word) in ADDED {
        assert!(rt;
            is_added(rt.alloc(), &front, words, word)?,
            "{words} {word}"
        );
    }
    Ok(())
}

// In a bank of format 1 with room: the words of events, a list that is staged, and the bodies that are written.
const STAGED: &[(&str, &str, &str)] = &[
    (
        "init usual",
        "-",
        "format other-blob usual:1 pending-marks:-",
    ),
    ("init usual P", "P", "format blob usual:1 pending-marks:P"),
    (
        "init usual a promote A promote",
        "Bc",
        "format blob other-blob usual:3 pending-marks:Bc current-marks:A previous-marks:a kept:1 kept:2",
    ),
    (
        "init usual a promote A promote",
        "3",
        "format third-blob blob other-blob usual:3 pending-marks:3 current-marks:A previous-marks:a kept:1 kept:2",
    ),
];

#[test]
fn a_stage_in_format_1_is_committed_by_a_rewrite(rt: HostRuntime) -> Result<(), Fail> {
    for (words, word, bodies) in STAGED {
        let file = in_full(rt.alloc(), words, "")?;
        assert!(rt;
            is_rewritten(rt.alloc(), file, words, word, bodies)?,
            "{words} {word}"
        );
    }
    Ok(())
}

#[test]
fn another_event_in_format_1_is_added_where_it_has_room(rt: HostRuntime) -> Result<(), Fail> {
    let file = in_full(rt.alloc(), "init usual P", "")?;
    let wanted = in_full(rt.alloc(), "init usual P", "note")?;
    assert!(rt; leaves(rt.alloc(), file, "init usual P", "note", &wanted)?);
    let file = nearly_full_in_full(rt.alloc(), "init usual P", "note", 0)?;
    let bodies = bodies_of(rt.alloc(), "init usual P", "note")?;
    let wanted = filled_in_full(rt.alloc(), &bodies, 0)?;
    assert!(rt; leaves(rt.alloc(), file, "init usual P", "note", &wanted)?);
    let file = nearly_full_in_full(rt.alloc(), "init usual P", "note", 1)?;
    let bodies = "format blob usual:2 pending-marks:P kept:1";
    assert!(rt; is_rewritten(rt.alloc(), file, "init usual P", "note", bodies)?);
    Ok(())
}

// ---- stops

// The last four calls of a rewrite: the closed gate, a sync, the selector, a sync.
const LAST: Stops<'_> = Stops {
    places: &[8, 9, 10, 11],
    parts: &[DiskPart::Whole],
};

// The first eight are writes of zeros up to the second bank, and of the seven bodies.
#[test]
fn a_rewrite_that_fails_or_stops_leaves_the_node_before_or_after(
    rt: HostRuntime,
) -> Result<(), Fail> {
    let (words, word) = ("init usual P promote A", "promote");
    let file = nearly_full(rt.alloc(), &large(rt.alloc())?, words, word, 1)?;
    let calls = calls_of(rt.alloc(), &file, words, word, &LAST)?;
    assert_eq!(rt; calls, Some(12));
    Ok(())
}

// What a stop leaves: the old bytes, the new ones, or others.
const KINDS: &[DiskPart] = &[DiskPart::Nothing, DiskPart::Whole, DiskPart::Filled(0x57)];

// How many calls the first rewrite of a small store makes, where these leave the node before or after it.
fn calls_of_first(alloc: Global, places: &[u64]) -> Result<Option<u64>, StoreError> {
    let file = in_full(alloc, "init", "")?;
    let stops = Stops {
        places,
        parts: KINDS,
    };
    calls_of(alloc, &file, "init", "-", &stops)
}

// Of its 1,024 writes of zeros the first, one in the middle and the last.
#[test]
fn a_stage_in_format_1_that_stops_in_zeros_leaves_the_node_before_or_after(
    rt: HostRuntime,
) -> Result<(), Fail> {
    let calls = calls_of_first(rt.alloc(), &[0, 512, 1_023])?;
    assert_eq!(rt; calls, Some(1_032));
    Ok(())
}

// The writes of the four bodies, and the last four calls.
#[test]
fn a_stage_in_format_1_that_stops_behind_zeros_leaves_the_node_before_or_after(
    rt: HostRuntime,
) -> Result<(), Fail> {
    let places = &[1_024, 1_025, 1_026, 1_027, 1_028, 1_029, 1_030, 1_031];
    let calls = calls_of_first(rt.alloc(), places)?;
    assert_eq!(rt; calls, Some(1_032));
    Ok(())
}

// The report behind it, in the second bank.
const AFTER_REWRITE: Stops<'_> = Stops {
    places: &[0, 1, 2, 3],
    parts: KINDS,
};

#[test]
fn the_event_after_a_rewrite_leaves_the_node_before_or_after(rt: HostRuntime) -> Result<(), Fail> {
    let file = in_full(rt.alloc(), "init usual", "")?;
    let bodies = "format other-blob usual:1 pending-marks:-";
    let file = with_second(rt.alloc(), &file, bodies)?;
    let (words, word) = ("init usual -", "promote");
    let calls = calls_of(rt.alloc(), &file, words, word, &AFTER_REWRITE)?;
    assert_eq!(rt; calls, Some(4));
    Ok(())
}
