use super::scratch::make_folder;
use dsc_outside::Clock;
use outside_rows::disk_calls::Answer::{Bytes, Done, Lost, Number};
use outside_rows::disk_calls::Ask::{Cut, Length, Read, Sync, Write};
use outside_rows::disk_calls::{DiskRow, is_answered};
use real_outside::{FileDisk, SystemClock};
use std::alloc::{AllocError, Global};
use std::fs::File;
use std::rt::Files;
use std::test::Fail;
use std::{fs, io};

// What stands in the disk's place before its first call.
#[derive(Clone, Copy)]
enum Before {
    Nothing,
    Bytes(&'static str),
    Folder,

    // A link to a file.
    Link,
}

// Makes a file, and a link to it.
fn make_link(rt: &HostRuntime, to: &str, place: &str) -> io::Result<()> {
    fs::write(rt, to, "kept")?;
    rt.symlink(to, place)
}

fn prepare(rt: &HostRuntime, place: &str, before: Before) -> io::Result<()> {
    match before {
        Before::Nothing => Ok(()),
        Before::Bytes(bytes) => fs::write(rt, place, bytes),
        Before::Folder => fs::create_dir(rt, place),
        Before::Link => make_link(rt, &format!(in rt.alloc(); "{place}.to")?, place),
    }
}

fn are_answered<F: Files<File = File> + Drop>(
    alloc: Global,
    disk: &mut FileDisk<F>,
    rows: &[DiskRow<'_>],
) -> Result<bool, AllocError> {
    for row in rows {
        if !is_answered(alloc, disk, u64::MAX, row)? {
            return Ok(false);
        }
    }
    Ok(true)
}

fn disk_at<F: Files<File = File> + Drop>(
    alloc: Global,
    files: F,
    place: &str,
) -> Result<FileDisk<F>, AllocError> {
    Ok(FileDisk::new(files, String::from_str(alloc, place)?))
}

// Expects these answers of a disk at that place.
fn expect_at(rt: &HostRuntime, place: &str, rows: &[DiskRow<'_>]) -> Result<(), Fail> {
    let mut disk = disk_at(rt.alloc(), rt, place)?;
    if are_answered(rt.alloc(), &mut disk, rows)? {
        return Ok(());
    }
    Err(Fail::new(format_args!("{place} answers otherwise")))
}

fn expect_held(rt: &HostRuntime, place: &str, bytes: &str) -> Result<(), Fail> {
    if fs::read(rt, place)?.as_slice() == bytes.as_bytes() {
        return Ok(());
    }
    Err(Fail::new(format_args!("{place} holds something else")))
}

const LOST: &[DiskRow<'_>] = &[
    (Length, Lost),
    (Read(0, 4), Lost),
    (Write(0, "Z"), Lost),
    (Cut(0), Lost),
    (Sync, Lost),
];

// What stands there, the rows, and what a file there then holds.
type FileRow = (Before, &'static [DiskRow<'static>], Option<&'static str>);

const FILES: &[FileRow] = &[
    (Before::Nothing, &[(Length, Number(0))], Some("")),
    (
        Before::Nothing,
        &[
            (Write(0, "abcdef"), Done),
            (Sync, Done),
            (Read(4, 4), Bytes("ef")),
        ],
        Some("abcdef"),
    ),
    (
        Before::Bytes("abcdef"),
        &[
            (Length, Number(6)),
            (Read(9, 2), Bytes("")),
            (Write(1, "XY"), Done),
            (Write(5, "pqr"), Done),
            (Cut(7), Done),
            (Sync, Done),
            (Read(0, 9), Bytes("aXYdepq")),
        ],
        Some("aXYdepq"),
    ),
    (Before::Folder, LOST, None),
    (Before::Link, LOST, Some("kept")),
];

fn expect_file(rt: &HostRuntime, place: &str, row: &FileRow) -> Result<(), Fail> {
    let (before, rows, after) = row;
    prepare(rt, place, *before)?;
    expect_at(rt, place, rows)?;
    match after {
        Some(bytes) => expect_held(rt, place, bytes),
        None => Ok(()),
    }
}

fn expect_files(rt: &HostRuntime, scratch: &str) -> Result<(), Fail> {
    for (index, row) in FILES.iter().enumerate() {
        let place = format!(in rt.alloc(); "{scratch}/{index}")?;
        expect_file(rt, &place, row)?;
    }
    Ok(())
}

#[test]
fn a_file_is_a_disk_and_nothing_else_is(rt: HostRuntime) -> Result<(), Fail> {
    let scratch = make_folder(&rt)?;
    expect_files(&rt, &scratch)?;
    fs::remove_dir_all(&rt, scratch)?;
    expect_at(&rt, "/dev/null", LOST)
}

// Expects that the first disk is touched at its first call, and that the place is no disk for another program from then on.
fn expect_owned(rt: &HostRuntime, place: &str) -> Result<(), Fail> {
    let mut first = disk_at(rt.alloc(), rt, place)?;
    if fs::exists(rt, place)? {
        return Err(Fail::new("a disk is touched before its first call"));
    }
    if !are_answered(rt.alloc(), &mut first, &[(Write(0, "abc"), Done)])? {
        return Err(Fail::new("the first disk fails"));
    }
    expect_at(rt, place, LOST)?;
    if !are_answered(rt.alloc(), &mut first, &[(Length, Number(3))])? {
        return Err(Fail::new("the first disk fails after the second"));
    }
    Ok(())
}

#[test]
fn a_disk_is_touched_at_its_first_call_and_is_one_programs(rt: HostRuntime) -> Result<(), Fail> {
    let scratch = make_folder(&rt)?;
    let place = format!(in rt.alloc(); "{scratch}/store")?;
    expect_owned(&rt, &place)?;
    expect_at(&rt, &place, &[(Read(0, 9), Bytes("abc"))])?;
    fs::remove_dir_all(&rt, scratch)?;
    Ok(())
}

#[test]
fn the_clock_of_the_system_runs(rt: HostRuntime) -> Result<(), Fail> {
    let mut clock = SystemClock::new(&rt);
    let Ok(moment) = clock.now() else {
        return Err(Fail::new("the clock failed"));
    };
    assert!(rt; moment > 1_700_000_000);
    Ok(())
}
