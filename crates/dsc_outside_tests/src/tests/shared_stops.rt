//! Stops that come in a call of a disk and a host together.
use dsc_outside::Memory;
use memory_outside::{
    DiskPart, Done, HostContents, ReliableDisk, ReliableHost, StoppedDisk, StoppedHost,
};
use outside_rows::disk_calls::{Answer as DiskAnswer, Ask, is_answered};
use outside_rows::host_calls::{Answer as HostAnswer, Call, Row, expect, expect_of};
use std::alloc::Global;
use std::cell::Cell;
use std::rc::Rc;
use std::test::Fail;

/// A call of the disk or of the host, and its answer before the stop.
#[derive(Clone, Copy)]
enum Step<'a> {
    Disk(Ask<'a>, DiskAnswer<'a>),
    Host(Call<'a>, HostAnswer),
}

const STEPS: &[Step<'_>] = &[
    Step::Disk(Ask::Write(1, "XY"), DiskAnswer::Done),
    Step::Host(Call::Put("a", b"abcde"), HostAnswer::Done),
    Step::Disk(Ask::Sync, DiskAnswer::Done),
    Step::Host(Call::Set("v", b"1"), HostAnswer::Done),
    Step::Disk(Ask::Write(5, "pqr"), DiskAnswer::Done),
    Step::Host(Call::State("a"), HostAnswer::File),
    Step::Disk(Ask::Sync, DiskAnswer::Done),
    Step::Host(Call::Remove("a"), HostAnswer::Done),
    Step::Disk(Ask::Write(0, "Z"), DiskAnswer::Done),
    Step::Host(Call::State("a"), HostAnswer::Nothing),
];

/// What a stop leaves of the changes.
#[derive(Clone, Copy, Debug)]
enum Part {
    Old,
    New,
    Mixed,
}

use Part::{Mixed, New, Old};

fn disk_part(part: Part) -> DiskPart {
    match part {
        Old => DiskPart::Nothing,
        New => DiskPart::Whole,
        Mixed => DiskPart::Filled(0x57),
    }
}

fn done_of(part: Part) -> Done {
    match part {
        Old => Done::Nothing,
        New => Done::All,
        Mixed => Done::Half,
    }
}

/// A disk of six bytes and an empty host, which stop together.
#[derive(Drop)]
struct Pair {
    disk: StoppedDisk,
    host: StoppedHost,
}

fn stopping_pair(alloc: Global, stop: u64, part: Part) -> Result<Pair, Memory> {
    let calls = Rc::new(alloc, Cell::new(0))?;
    let disk = ReliableDisk::new(b"abcdef".to_vec(alloc)?)?;
    let host = ReliableHost::of(HostContents::empty(alloc));
    Ok(Pair {
        disk: StoppedDisk::new(disk, calls.clone()?, stop),
        host: StoppedHost::new(host, calls, stop, done_of(part)),
    })
}

// Makes a call, which fails where the stop has come, and expects its answer.
fn take_step(alloc: Global, pair: &mut Pair, step: &Step<'_>, stopped: bool) -> Result<(), Fail> {
    match *step {
        Step::Disk(ask, answer) => {
            let wanted = if stopped { DiskAnswer::Lost } else { answer };
            let known = pair.disk.bytes().len() as u64;
            if is_answered(alloc, &mut pair.disk, known, &(ask, wanted))? {
                return Ok(());
            }
            Err(Fail::new("the disk answers otherwise"))
        }
        Step::Host(call, answer) => {
            let wanted = if stopped { HostAnswer::Failed } else { answer };
            expect(alloc, &mut pair.host, &[(call, wanted)])
        }
    }
}

// Makes all the calls, of which those from the stop on fail, and expects each answer.
fn after_steps(alloc: Global, stop: u64, part: Part) -> Result<Pair, Fail> {
    let mut pair = stopping_pair(alloc, stop, part)?;
    for (before, step) in STEPS.iter().enumerate() {
        take_step(
            alloc,
            &mut pair,
            step,
            stop <= (before as u64).saturating_add(1),
        )?;
    }
    Ok(pair)
}

const GONE: &[Row<'_>] = &[(Call::State("a"), HostAnswer::Nothing)];

const WHOLE: &[Row<'_>] = &[(Call::Same("a", b"abcde"), HostAnswer::Yes)];

const HALF: &[Row<'_>] = &[(Call::Same("a", b"ab"), HostAnswer::Yes)];

const UNSET: &[Row<'_>] = &[(Call::Value("v", b""), HostAnswer::No)];

const SET: &[Row<'_>] = &[(Call::Value("v", b"1"), HostAnswer::Yes)];

/// A stop, and what the next start finds: the disk's bytes, the file and the variable.
type Stopped<'a> = (u64, Part, &'a str, &'a [Row<'a>], &'a [Row<'a>]);

const STOPS: &[Stopped<'_>] = &[
    (1, Old, "abcdef", GONE, UNSET),
    (1, New, "aXYdef", GONE, UNSET),
    (1, Mixed, "aWWdef", GONE, UNSET),
    (2, Old, "abcdef", GONE, UNSET),
    (2, New, "aXYdef", WHOLE, UNSET),
    (2, Mixed, "aWWdef", HALF, UNSET),
    (3, Old, "abcdef", WHOLE, UNSET),
    (3, New, "aXYdef", WHOLE, UNSET),
    (3, Mixed, "aWWdef", WHOLE, UNSET),
    (4, Old, "aXYdef", WHOLE, UNSET),
    (4, New, "aXYdef", WHOLE, SET),
    (4, Mixed, "aXYdef", WHOLE, SET),
    (5, Old, "aXYdef", WHOLE, SET),
    (5, New, "aXYdepqr", WHOLE, SET),
    (5, Mixed, "aXYdeWWW", WHOLE, SET),
    (6, Old, "aXYdef", WHOLE, SET),
    (6, New, "aXYdepqr", WHOLE, SET),
    (6, Mixed, "aXYdeWWW", WHOLE, SET),
    (7, Old, "aXYdef", WHOLE, SET),
    (7, New, "aXYdepqr", WHOLE, SET),
    (7, Mixed, "aXYdeWWW", WHOLE, SET),
    (8, Old, "aXYdepqr", WHOLE, SET),
    (8, New, "aXYdepqr", GONE, SET),
    (8, Mixed, "aXYdepqr", GONE, SET),
    (9, Old, "aXYdepqr", GONE, SET),
    (9, New, "ZXYdepqr", GONE, SET),
    (9, Mixed, "WXYdepqr", GONE, SET),
    (10, Old, "aXYdepqr", GONE, SET),
    (10, New, "ZXYdepqr", GONE, SET),
    (10, Mixed, "WXYdepqr", GONE, SET),
    (11, Old, "ZXYdepqr", GONE, SET),
    (11, Mixed, "ZXYdepqr", GONE, SET),
];

// Expects that neither is short, and that each is stopped from its first call on that the stop reaches: of the disk the
// ninth is the last call, of the host the tenth.
fn expect_stopped(pair: &Pair, stop: u64) -> Result<(), Fail> {
    let as_wanted = pair.disk.stopped() == (stop <= 9) && pair.host.stopped() == (stop <= 10);
    if as_wanted && !pair.disk.short() && !pair.host.short() {
        return Ok(());
    }
    Err(Fail::new("the stop has reached other calls"))
}

fn expect_disk(disk: &ReliableDisk, bytes: &str) -> Result<(), Fail> {
    if disk.bytes() == bytes.as_bytes() && !disk.short() {
        return Ok(());
    }
    Err(Fail::new("the disk holds something else"))
}

fn expect_left(alloc: Global, row: &Stopped<'_>) -> Result<(), Fail> {
    let (stop, part, bytes, file, variable) = *row;
    let pair = after_steps(alloc, stop, part)?;
    expect_stopped(&pair, stop)?;
    let disk = pair.disk.left(&pair.host, disk_part(part))?;
    expect_disk(&disk, bytes)?;
    expect_disk(&disk.left()?, bytes)?;
    let mut host = pair.host.left();
    expect(alloc, &mut host, file)?;
    expect_of(alloc, host, variable)
}

#[test]
fn a_stop_comes_in_one_call_of_both(rt: HostRuntime) -> Result<(), Fail> {
    for row in STOPS {
        expect_left(rt.alloc(), row)?;
    }
    Ok(())
}
