//! The forms in memory none of whose calls is to fail.
use dsc_outside::{Clock, Failed, Memory, Sink, Source};
use memory_outside::{FixedClock, NullSink, ReliableDisk, ReliableSource};
use outside_rows::disk_calls::Answer::{Bytes, Done, Number};
use outside_rows::disk_calls::Ask::{Cut, Length, Read, Sync, Write};
use outside_rows::disk_calls::{DiskRow, is_answered};
use std::alloc::Global;
use std::test::Fail;

const ROWS: &[DiskRow<'_>] = &[
    (Length, Number(6)),
    (Read(4, 4), Bytes("ef")),
    (Write(5, "pqr"), Done),
    (Cut(7), Done),
    (Sync, Done),
    (Write(0, "Z"), Done),
    (Read(0, 9), Bytes("Zbcdepq")),
];

fn disk(alloc: Global) -> Result<ReliableDisk, Memory> {
    ReliableDisk::new(b"abcdef".to_vec(alloc)?)
}

#[test]
fn with_ample_memory_a_disk_does_each_call(rt: HostRuntime) -> Result<(), Fail> {
    let mut disk = disk(rt.alloc())?;
    for row in ROWS {
        let known = disk.bytes().len() as u64;
        assert!(rt; is_answered(rt.alloc(), &mut disk, known, row)?);
    }
    assert!(rt; !disk.short() && disk.left()?.bytes() == "Zbcdepq".as_bytes());
    Ok(())
}

#[test]
fn a_source_gives_its_bytes(rt: HostRuntime) -> Result<(), Fail> {
    let mut source = ReliableSource::of(b"abcde".to_vec(rt.alloc())?);
    let mut buffer = [0; 3];
    assert!(rt; source.read(&mut buffer) == Ok(3) && buffer == *b"abc");
    assert!(rt; source.read(&mut buffer) == Ok(2) && buffer == *b"dec");
    assert!(rt; source.read(&mut buffer) == Ok(0));
    Ok(())
}

#[test]
fn a_sink_takes_each_piece(rt: HostRuntime) {
    assert!(rt; NullSink.write(b"abc") == Ok(3) && NullSink.write(b"") == Ok(0));
}

// Whether the clock gives that moment, twice.
fn gives_twice(clock: &mut FixedClock, reading: Result<u64, Failed>) -> bool {
    clock.now() == reading && clock.now() == reading
}

#[test]
fn a_clock_gives_its_moment_again(rt: HostRuntime) {
    assert!(rt; gives_twice(&mut FixedClock::at(7), Ok(7)));
}
