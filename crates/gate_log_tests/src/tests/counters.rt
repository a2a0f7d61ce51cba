//! A count, whose changes have two cells: stops and failures in each call, a bank that is full, and files that are cut or changed.
ghost use Rattle.gate_log.specs.Kept.{IsReadyBy};
ghost use Rattle.gate_log_tests.specs.Counting.{LeadsToCount, count_shape};

use crate::counter::{CountError, Counter, open_counter};
use dsc_outside::{Disk, Memory};
use memory_outside::{DiskPart, DiskStop, MemoryDisk};
use std::alloc::Global;
use std::test::Fail;

// A disk of these bytes, that stops so.
fn disk(alloc: Global, bytes: Vec<u8>, stop: Option<DiskStop>) -> Result<MemoryDisk, CountError> {
    with_memory(MemoryDisk::of(bytes, Vec::new(alloc), stop))
}

fn with_memory<T: Drop>(made: Result<T, Memory>) -> Result<T, CountError> {
    match made {
        Ok(value) => Ok(value),
        Err(_) => Err(CountError::Memory),
    }
}

fn left(disk: MemoryDisk) -> Result<Vec<u8>, CountError> {
    with_memory(disk.after_stop())
}

// The count of a store of these bytes.
fn count_in(alloc: Global, bytes: Vec<u8>) -> Result<u8, CountError> {
    let mut disk = disk(alloc, bytes, None)?;
    Ok(open_counter(alloc, &mut disk)?.count())
}

// Adds 10 that many times.
fn add_all_tens<D: Disk>(counter: &mut Counter, disk: &mut D, times: u8) -> Result<(), CountError>
    requires { IsReadyBy D.Disk disk.old count_shape LeadsToCount counter.old.log counter.old.count }
{
    for _ in 0..times {
        counter.add(disk, 10)?;
    }
    Ok(())
}

// Opens a counter and adds 10 that many times.
fn add_tens<D: Disk>(alloc: Global, disk: &mut D, times: u8) -> Result<(), CountError> {
    let mut counter = open_counter(alloc, disk)?;
    add_all_tens(&mut counter, disk, times)
}

// What a store holds to which 10 was added that many times.
fn with_tens(alloc: Global, times: u8) -> Result<Vec<u8>, CountError> {
    let mut disk = disk(alloc, Vec::new(alloc), None)?;
    add_tens(alloc, &mut disk, times)?;
    left(disk)
}

#[test]
fn four_changes_fill_a_bank_and_the_fifth_is_rewritten(rt: HostRuntime) -> Result<(), Fail> {
    let four = with_tens(rt.alloc(), 4)?;
    assert!(rt; four.len() == 8 + 56 + 1 && four[7] == b'1');
    let five = with_tens(rt.alloc(), 5)?;
    assert!(rt; five.len() == 8 + 64 + 7 + 1 && five[7] == b'2');
    assert!(rt; count_in(rt.alloc(), five)? == 50);
    Ok(())
}

const PARTS: &[DiskPart] = &[
    DiskPart::Nothing,
    DiskPart::Whole,
    DiskPart::Filled(0x00),
    DiskPart::Filled(0x32),
    DiskPart::Filled(0x57),
    DiskPart::Filled(0xA5),
];

// How many calls an opening and one more change make.
fn count_of_calls(alloc: Global, times: u8) -> Result<u64, CountError> {
    let mut whole = disk(alloc, with_tens(alloc, times)?, None)?;
    add_tens(alloc, &mut whole, 1)?;
    Ok(whole.calls().len() as u64)
}

// The count that the next opening finds after a stop in one more change, and whether that came to its end before.
fn after_stop(
    alloc: Global,
    times: u8,
    call: u64,
    part: DiskPart,
) -> Result<(u8, bool), CountError> {
    let mut disk = disk(
        alloc,
        with_tens(alloc, times)?,
        Some(DiskStop { call, part }),
    )?;
    let is_done = add_tens(alloc, &mut disk, 1).is_ok();
    Ok((count_in(alloc, left(disk)?)?, is_done))
}

// Whether a stop in each call leaves the count before or after the change, and the one after it once the change has ended: it ends
// where the stop comes after its last call, and nowhere else.
fn all_stops(alloc: Global, times: u8, before: u8, after: u8) -> Result<bool, CountError> {
    let end = count_of_calls(alloc, times)?;
    for call in 0..=end {
        for part in PARTS {
            let (count, is_done) = after_stop(alloc, times, call, *part)?;
            let is_either = count == after || (count == before && !is_done);
            if !is_either || is_done != (call == end) {
                return Ok(false);
            }
        }
    }
    Ok(true)
}

#[test]
fn a_stop_leaves_the_count_before_or_after(rt: HostRuntime) -> Result<(), Fail> {
    assert!(rt; all_stops(rt.alloc(), 2, 20, 30)? && all_stops(rt.alloc(), 4, 40, 50)?);
    Ok(())
}

// How often 10 was added, the byte that a stop in the last write of one more change leaves, and the count then: the gate of its
// second cell is opened by A5 alone, and the second bank is made live by 32 alone.
const LAST_WRITES: &[(u8, u8, u8)] = &[
    (2, 0x00, 20),
    (2, 0x57, 20),
    (2, 0xA5, 30),
    (4, 0x31, 40),
    (4, 0x57, 40),
    (4, 0x32, 50),
];

// The count after a stop in the last write, which one sync follows.
fn after_last_write(alloc: Global, times: u8, byte: u8) -> Result<u8, CountError> {
    let call = count_of_calls(alloc, times)?.saturating_sub(2);
    Ok(after_stop(alloc, times, call, DiskPart::Filled(byte))?.0)
}

#[test]
fn the_last_byte_decides(rt: HostRuntime) -> Result<(), Fail> {
    for (times, byte, count) in LAST_WRITES {
        assert!(rt;
            after_last_write(rt.alloc(), *times, *byte)? == *count,
            "{times} {byte}"
        );
    }
    Ok(())
}

// Opens a counter and adds 10, and again where the disk failed: what comes of it then, and the count in memory.
fn add_or_spend<D: Disk>(
    alloc: Global,
    disk: &mut D,
) -> Result<(Result<(), CountError>, u8), CountError> {
    let mut counter = open_counter(alloc, disk)?;
    let answer = match counter.add(disk, 10) {
        Err(CountError::Disk) => counter.add(disk, 10),
        answer => answer,
    };
    Ok((answer, counter.count()))
}

// Whether one more change fails where this call does: the opening, or the change, which spends the counter.
fn fails_at(
    alloc: Global,
    times: u8,
    call: u64,
    before: u8,
    after: u8,
) -> Result<bool, CountError> {
    let failing = with_memory(numbers(alloc, call))?;
    let mut disk = with_memory(MemoryDisk::new(with_tens(alloc, times)?, failing))?;
    let answer = add_or_spend(alloc, &mut disk);
    let count = count_in(alloc, left(disk)?)?;
    Ok(match answer {
        Err(CountError::Disk) => count == before,
        Ok((Err(CountError::Spent), memory)) => memory == before
            && (count == before || count == after),
        _ => false,
    })
}

fn numbers(alloc: Global, call: u64) -> Result<Vec<u64>, Memory> {
    Ok(vec![in alloc; call]?)
}

fn all_failures(alloc: Global, times: u8, before: u8, after: u8) -> Result<bool, CountError> {
    for call in 0..count_of_calls(alloc, times)? {
        if !fails_at(alloc, times, call, before, after)? {
            return Ok(false);
        }
    }
    Ok(true)
}

#[test]
fn a_call_that_fails_spends_the_counter(rt: HostRuntime) -> Result<(), Fail> {
    assert!(rt; all_failures(rt.alloc(), 2, 20, 30)? && all_failures(rt.alloc(), 4, 40, 50)?);
    Ok(())
}

// Bytes of a store, and the count that they stand for, or the byte at which they stand for none.
const FILES: &[(&[u8], Result<u8, u64>)] = &[
    (b"", Ok(0)),
    (b"DSCSTOR1\xA5\0\0\0\x02\x00\x05\0", Ok(0)),
    (
        b"DSCSTOR1\xA5\0\0\0\x02\x00\x05\xA5\0\0\0\x02\x01\x05\0",
        Ok(5),
    ),
    (b"DSCSTOR1\xA5\0\0\0\x02\x02\xFF\0", Ok(255)),
    (
        b"DSCSTOR1\xA5\0\0\0\x02\x02\xFF\xA5\0\0\0\x02\x01\x01\0",
        Err(20),
    ),
    (b"DSCSTOR1\xA5\0\0\0\x02\x03\x05\0", Err(13)),
    (b"DSCSTOR1\xA5\0\0\0\x01\x00\0", Err(13)),
    (b"DSCSTOR1\xA5\0\0\0\x02\x02\xFF", Err(15)),
];

fn stands_for(alloc: Global, bytes: &[u8]) -> Result<Result<u8, u64>, CountError> {
    match count_in(alloc, with_memory(copy(alloc, bytes))?) {
        Ok(count) => Ok(Ok(count)),
        Err(CountError::NotACount { at }) => Ok(Err(at)),
        Err(error) => Err(error),
    }
}

#[test]
fn a_file_stands_for_a_count_or_fails_at_a_byte(rt: HostRuntime) -> Result<(), Fail> {
    for (bytes, wanted) in FILES {
        assert!(rt; stands_for(rt.alloc(), bytes)? == *wanted, "{bytes:?}");
    }
    Ok(())
}

// The name of the format and the selector, and the cells of 5 that is named, from 8 on, and added, from 15 on.
const SMALL: &[u8] = b"DSCSTOR1\xA5\0\0\0\x02\x00\x05\xA5\0\0\0\x02\x01\x05\0";

// Of each byte of the small file what it stands for where that byte is 00, is FF, or has its last bit turned.
const CHANGES: &[[Result<u8, u64>; 3]] = &[
    // the name of the format, and the selector: each of these selects the first bank
    [Err(0), Err(0), Err(0)],
    [Err(1), Err(1), Err(1)],
    [Err(2), Err(2), Err(2)],
    [Err(3), Err(3), Err(3)],
    [Err(4), Err(4), Err(4)],
    [Err(5), Err(5), Err(5)],
    [Err(6), Err(6), Err(6)],
    [Ok(5), Ok(5), Ok(5)],
    // the gate, the length, and the body, of which the kind is 0
    [Ok(0), Ok(0), Ok(0)],
    [Ok(5), Err(9), Err(9)],
    [Ok(5), Err(9), Err(9)],
    [Ok(5), Err(9), Err(9)],
    [Err(13), Err(9), Err(13)],
    [Ok(5), Err(13), Ok(10)],
    [Ok(5), Ok(5), Ok(5)],
    // the same of the second body, of the kind 1
    [Ok(0), Ok(0), Ok(0)],
    [Ok(5), Err(16), Err(16)],
    [Ok(5), Err(16), Err(16)],
    [Ok(5), Err(16), Err(16)],
    [Err(20), Err(16), Err(20)],
    [Ok(0), Err(20), Ok(0)],
    [Ok(0), Ok(255), Ok(4)],
    // a closed gate
    [Ok(5), Ok(5), Ok(5)],
];

// What the small file stands for with this byte at that place.
fn changed(alloc: Global, at: usize, byte: u8) -> Result<Result<u8, u64>, CountError> {
    let mut bytes = with_memory(copy(alloc, SMALL))?;
    if let Some(place) = bytes.get_mut(at) {
        *place = byte;
    }
    stands_for(alloc, &bytes)
}

fn copy(alloc: Global, bytes: &[u8]) -> Result<Vec<u8>, Memory> {
    Ok(bytes.to_vec(alloc)?)
}

// The first byte whose change is answered otherwise.
fn first_changed_otherwise(alloc: Global) -> Result<Option<usize>, CountError> {
    for (at, (byte, wanted)) in SMALL.iter().zip(CHANGES).enumerate() {
        for (byte, wanted) in [0x00, 0xFF, *byte ^ 1].iter().zip(wanted) {
            if changed(alloc, at, *byte)? != *wanted {
                return Ok(Some(at));
            }
        }
    }
    Ok(None)
}

// The first length to which the small file is cut and answered otherwise: up to nine bytes it is new, else it fails at its end.
fn first_cut_otherwise(alloc: Global) -> Result<Option<usize>, CountError> {
    for length in 0..SMALL.len() {
        let wanted = if length < 10 {
            Ok(0)
        } else {
            Err(length as u64)
        };
        if stands_for(alloc, &SMALL[..length])? != wanted {
            return Ok(Some(length));
        }
    }
    Ok(None)
}

#[test]
fn a_file_that_is_cut_or_changed_is_told_or_stands_for_a_count(
    rt: HostRuntime,
) -> Result<(), Fail> {
    assert!(rt; CHANGES.len() == SMALL.len() && first_changed_otherwise(rt.alloc())? == None);
    assert!(rt; first_cut_otherwise(rt.alloc())? == None);
    Ok(())
}

#[test]
fn a_count_that_would_pass_255_is_refused(rt: HostRuntime) -> Result<(), Fail> {
    let mut disk = disk(rt.alloc(), Vec::new(rt.alloc()), None)?;
    let mut counter = open_counter(rt.alloc(), &mut disk)?;
    counter.add(&mut disk, 200)?;
    assert!(rt; counter.add(&mut disk, 56) == Err(CountError::TooMany) && counter.count() == 200);
    counter.add(&mut disk, 55)?;
    assert!(rt; counter.count() == 255);
    Ok(())
}
