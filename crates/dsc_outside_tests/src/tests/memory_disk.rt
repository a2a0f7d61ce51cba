ghost use Rattle.memory_outside.specs.MemoryClock.{AreReadings};

use dsc_outside::{Clock, Failed, Memory};
use memory_outside::{CallOutcome, DiskPart, DiskStop, MemoryClock, MemoryDisk};
use outside_rows::disk_calls::Answer::{Bytes, Done, Lost, Number};
use outside_rows::disk_calls::Ask::{Cut, Length, Read, Sync, Write};
use outside_rows::disk_calls::{Answer, Ask, DiskRow, is_answered};
use std::alloc::{AllocError, Global};
use std::test::Fail;

fn disk(alloc: Global, failing: &[u64], stop: Option<DiskStop>) -> Result<MemoryDisk, Memory> {
    filled_disk(alloc, failing.to_vec(alloc)?, stop)
}

// A disk with six bytes.
fn filled_disk(
    alloc: Global,
    failing: Vec<u64>,
    stop: Option<DiskStop>,
) -> Result<MemoryDisk, Memory> {
    MemoryDisk::of(b"abcdef".to_vec(alloc)?, failing, stop)
}

// The first row that is answered otherwise.
fn first_wrong(
    alloc: Global,
    disk: &mut MemoryDisk,
    rows: &[DiskRow<'_>],
) -> Result<Option<usize>, AllocError> {
    for (index, row) in rows.iter().enumerate() {
        let known = disk.bytes().len() as u64;
        if !is_answered(alloc, disk, known, row)? {
            return Ok(Some(index));
        }
    }
    Ok(None)
}

const ROWS: &[DiskRow<'_>] = &[
    (Length, Number(6)),
    (Read(4, 4), Bytes("ef")),
    (Read(1, 2), Bytes("bc")),
    (Read(9, 2), Bytes("")),
    (Write(6, ""), Done),
    (Write(1, "XY"), Done),
    (Write(5, "pqr"), Done),
    (Read(0, 9), Bytes("aXYdepqr")),
    (Cut(7), Done),
    (Sync, Done),
    (Read(0, 9), Bytes("aXYdepq")),
    (Write(7, "s"), Done),
    (Cut(0), Done),
    (Length, Number(0)),
];

#[test]
fn a_disk_gives_what_was_written(rt: HostRuntime) -> Result<(), Fail> {
    let mut disk = disk(rt.alloc(), &[], None)?;
    assert!(rt; first_wrong(rt.alloc(), &mut disk, ROWS)? == None);
    assert!(rt; disk.calls().len() == ROWS.len() && !disk.short());
    Ok(())
}

// The calls that fail, and how each goes. The stop comes in the last but one.
const FAILURES: &[DiskRow<'_>] = &[
    (Length, Lost),
    (Write(1, "XY"), Lost),
    (Read(0, 6), Bytes("abcdef")),
    (Cut(3), Lost),
    (Sync, Lost),
    (Write(0, "Z"), Done),
    (Sync, Lost),
    (Read(0, 6), Lost),
];

const OUTCOMES: &[CallOutcome] = &[
    CallOutcome::Failed,
    CallOutcome::Failed,
    CallOutcome::Done,
    CallOutcome::Failed,
    CallOutcome::Failed,
    CallOutcome::Done,
    CallOutcome::Stopped,
    CallOutcome::Failed,
];

#[test]
fn a_call_that_fails_does_nothing(rt: HostRuntime) -> Result<(), Fail> {
    let stop = DiskStop {
        call: 6,
        part: DiskPart::Nothing,
    };
    let mut disk = disk(rt.alloc(), &[0, 1, 3, 4, 6], Some(stop))?;
    assert!(rt; first_wrong(rt.alloc(), &mut disk, FAILURES)? == None);
    for (recorded, outcome) in disk.calls().iter().zip(OUTCOMES) {
        assert!(rt; recorded.outcome == *outcome);
    }
    assert!(rt; disk.bytes() == "Zbcdef".as_bytes() && !disk.short());
    assert!(rt; disk.after_stop()?.as_slice() == "abcdef".as_bytes());
    Ok(())
}

const CALLS: &[Ask<'_>] = &[Length, Write(1, "XY"), Sync, Write(5, "pqr"), Cut(6), Sync];

const FILLED: DiskPart = DiskPart::Filled(b'W');

// The call that the stop comes in, its part, and what the next start finds.
const STOPS: &[(u64, DiskPart, &str)] = &[
    (0, DiskPart::Nothing, "abcdef"),
    (0, FILLED, "abcdef"),
    (1, DiskPart::Nothing, "abcdef"),
    (1, DiskPart::Whole, "aXYdef"),
    (1, FILLED, "aWWdef"),
    (2, DiskPart::Nothing, "abcdef"),
    (2, DiskPart::Whole, "aXYdef"),
    (2, FILLED, "aWWdef"),
    (3, DiskPart::Nothing, "aXYdef"),
    (3, DiskPart::Whole, "aXYdepqr"),
    (3, FILLED, "aXYdeWWW"),
    (4, DiskPart::Nothing, "aXYdef"),
    (4, DiskPart::Whole, "aXYdep"),
    (4, FILLED, "aXYdeW"),
    (5, DiskPart::Nothing, "aXYdef"),
    (5, DiskPart::Whole, "aXYdep"),
    (5, FILLED, "aXYdeW"),
    (6, DiskPart::Nothing, "aXYdep"),
];

// Makes the calls, of which those from the stop on fail, and answers whether the next start finds that.
fn leaves(alloc: Global, stop: DiskStop, left: &str) -> Result<bool, Memory> {
    let mut disk = disk(alloc, &[], Some(stop))?;
    for (number, ask) in CALLS.iter().enumerate() {
        let known = disk.bytes().len() as u64;
        let want = if stop.call <= number as u64 {
            Lost
        } else {
            answer_of(ask)
        };
        if !is_answered(alloc, &mut disk, known, &(*ask, want))? {
            return Ok(false);
        }
    }
    Ok(!disk.short() && disk.after_stop()?.as_slice() == left.as_bytes())
}

fn answer_of(ask: &Ask<'_>) -> Answer<'static> {
    match ask {
        Length => Number(6),
        _ => Done,
    }
}

#[test]
fn a_stop_leaves_its_part(rt: HostRuntime) -> Result<(), Fail> {
    for (call, part, left) in STOPS {
        let stop = DiskStop {
            call: *call,
            part: *part,
        };
        assert!(rt; leaves(rt.alloc(), stop, left)?, "{call} {part:?}");
    }
    Ok(())
}

// A clock of which the third call fails.
fn clock(alloc: Global, readings: Vec<Option<u64>>) -> Result<MemoryClock, AllocError>
    requires { AreReadings readings.items }
{
    Ok(MemoryClock::new(readings, vec![in alloc; 2]?))
}

const READINGS: &[Result<u64, Failed>] = &[Ok(5), Err(Failed), Err(Failed), Ok(9), Err(Failed)];

// The number of the first reading that is another than this.
fn first_other(clock: &mut MemoryClock, wanted: &[Result<u64, Failed>]) -> Option<usize> {
    for (number, reading) in wanted.iter().enumerate() {
        if clock.now() != *reading {
            return Some(number);
        }
    }
    None
}

#[test]
fn a_clock_gives_its_readings_in_order(rt: HostRuntime) -> Result<(), Fail> {
    let readings = vec![in rt.alloc(); Some(5), None, Some(7), Some(9)]?;
    let mut clock = clock(rt.alloc(), readings)?;
    assert!(rt; first_other(&mut clock, READINGS) == None && !clock.short());
    Ok(())
}
