//! Files that are opened as stores.
use crate::{GapDisk, call_over, file_with, place_of, shown_in};
use memory_outside::MemoryDisk;
use pull_store::PullError;
use std::alloc::{AllocError, Global};
use std::test::Fail;

/// The bytes of a file, and the rows of the store, or the byte at which no store stands.
type Row<'a> = (&'a [u8], Result<&'a str, u64>);

const FILES: &[Row<'_>] = &[
    (b"", Ok("")),
    (b"\xFF", Ok("")),
    (b"\xFF\xFF\xFF\xFF\xFF\xFF\xFF\xFF", Ok("")),
    (b"DSCSTOR1\xA5", Ok("")),
    (b"\xFF\xFF\xFF\xFF\xFF\xFF\xFF\xFF\xFF\xFF", Err(0)),
    (b"DSCSTOR9\0abc", Ok("")),
    (b"DSCSTOR1\xFF\xFF", Ok("")),
    (b"DSCSTOR1\xA5\0", Err(10)),
    (b"DSCSTOR2\0\0", Err(10)),
    (b"DSCSTOR1\xA5\0\x03\0\0", Err(13)),
    (b"DSCSTOR1\xA5\0\x03\0\x01", Err(9)),
    (
        b"DSCSTOR1\xA5\0\0\0\x11\x01\0\0\0\0\0\0\0\0\0\0\0\0\0\0\x01\0",
        Err(13),
    ),
    (
        b"DSCSTOR1\xA5\0\0\0\x18\x01\0\0\0\0\0\0\0\0\0\0\0\0\0\0\0A\0\0\0\0\0\0\0",
        Err(37),
    ),
    (
        b"DSCSTOR1\xA5\0\0\0\x18\x01\0\0\0\0\0\0\0\0\0\0\0\0\0\0\0A\0\0\0\0\0\0\0\0",
        Ok("A"),
    ),
    (
        b"DSCSTOR1\xA5\0\0\0\x19\x01\0\0\0\0\0\0\0\0\0\0\0\0\0\0\0A\0\0\0\0\0\0\0\0\0",
        Err(13),
    ),
    (
        b"DSCSTOR1\xA5\0\0\0\x18\x03\0\0\0\0\0\0\0\0\0\0\0\0\0\0\0A\0\0\0\0\0\0\0\0",
        Err(13),
    ),
    (
        b"DSCSTOR1\xA5\0\0\0\x21\x02\0\0\0\0\0\0\0\0\0\0\0\0\0\0\0A\0\0\0\0\0\0\0\0\0\0\0\0\0\0\01\0",
        Err(13),
    ),
    (
        b"DSCSTOR1\xA5\0\0\0\x28\x01\0\0\0\0\0\0\0\0\0\0\0\0\0\0\0A\0\x032.0\0\x01n\0\x03::1\x02\0\x03Web\0\x02\xC3\xA9\xA5\0\0\0\x21\x02\0\0\0\0\0\0\0\0\0\0\0\0\0\0\0A\0\0\0\0\0\0\0\0\0\0\0\0\0\0\01\0",
        Ok("An:1"),
    ),
    (
        b"DSCSTOR1\xA5\0\0\0\x28\x01\0\0\0\0\0\0\0\0\0\0\0\0\0\0\0A\0\x032\xFF0\0\x01n\0\x03::1\x02\0\x03Web\0\x02\xC3\xA9\0",
        Err(13),
    ),
    (
        b"DSCSTOR1\xA5\0\0\0\x28\x01\0\0\0\0\0\0\0\0\0\0\0\0\0\0\0A\0\x032.0\0\x01n\0\x03::1\x02\0\x03Web\0\x02\xC3\xA9\xA5\0\0\0\x20\x02\0\0\0\0\0\0\0\0\0\0\0\0\0\0\0A\0\0\0\0\0\0\0\0\0\0\0\0\0\0\0\0",
        Err(58),
    ),
];

fn is_opened_so(alloc: Global, row: &Row<'_>) -> Result<bool, AllocError> {
    let (bytes, wanted) = row;
    let answer = shown_in(alloc, bytes.to_vec(alloc)?);
    Ok(match wanted {
        Ok(line) => answer.is_ok_and(|found| found.as_str() == *line),
        Err(at) => place_of(answer) == Some(*at),
    })
}

#[test]
fn a_file_is_a_store_or_fails_at_its_first_wrong_byte(rt: HostRuntime) -> Result<(), Fail> {
    for row in FILES {
        assert!(rt; is_opened_so(rt.alloc(), row)?, "{row:?}");
    }
    Ok(())
}

// The bytes of a registration's texts, of its names how many there are and the bytes of each, and whether it is kept: at most 16
// names of 1 to 255 bytes, and at most 131,072 bytes in all.
const REGISTRATIONS: &[([usize; 3], u8, usize, bool)] = &[
    ([0, 0, 0], 0, 0, true),
    ([0, 0, 0], 1, 0, false),
    ([0, 0, 0], 1, 1, true),
    ([0, 0, 0], 1, 255, true),
    ([0, 0, 0], 1, 256, false),
    ([0, 0, 0], 16, 1, true),
    ([0, 0, 0], 17, 1, false),
    ([0, 0, 0], 255, 1, false),
    ([65_535, 65_535, 2], 0, 0, true),
    ([65_535, 65_535, 3], 0, 0, false),
    ([2, 65_535, 65_535], 0, 0, true),
    ([65_535, 65_535, 65_500], 0, 0, false),
    ([65_535, 0, 61_457], 16, 255, true),
    ([65_535, 0, 61_458], 16, 255, false),
    ([0, 65_535, 65_521], 16, 1, true),
    ([0, 65_535, 65_522], 16, 1, false),
];

// Where a file is no store, on a disk with no gap.
fn place_in(alloc: Global, file: Vec<u8>) -> Result<Option<u64>, PullError> {
    let disk = GapDisk {
        kept: MemoryDisk::new(file, Vec::new(alloc))?,
        begin: u64::MAX,
        length: 0,
        filling: Vec::new(alloc),
    };
    Ok(place_of(call_over(alloc, disk, "")))
}

#[test]
fn a_registration_is_kept_up_to_its_sizes(rt: HostRuntime) -> Result<(), Fail> {
    for (texts, count, name, is_kept) in REGISTRATIONS {
        let place = place_in(rt.alloc(), file_with(rt.alloc(), texts, *count, *name, 0)?)?;
        let wanted = if *is_kept { None } else { Some(13) };
        assert!(rt; place == wanted, "{texts:?} {count} {name}");
    }
    Ok(())
}

// The bytes of a report, and where it is refused, behind a registration.
const REPORTS: &[(usize, Option<u64>)] = &[(131_072, None), (131_073, Some(42))];

#[test]
fn a_report_is_kept_up_to_its_size(rt: HostRuntime) -> Result<(), Fail> {
    for (size, wanted) in REPORTS {
        let file = file_with(rt.alloc(), &[0, 0, 0], 0, 0, *size)?;
        assert_eq!(rt; place_in(rt.alloc(), file)?, *wanted);
    }
    Ok(())
}
