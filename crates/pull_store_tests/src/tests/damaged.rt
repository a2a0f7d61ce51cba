//! Bodies of the server's store that are cut or changed.
use crate::{file_of, place_of, shown_in};
use pull_store::PullError;
use std::alloc::{AllocError, Global};
use std::test::Fail;

// The agent A registers: version `v`, name `x`, no address, the name `n` of a configuration.
const REGISTERED: &[u8] = b"\x01\0\0\0\0\0\0\0\0\0\0\0\0\0\0\0A\0\x01v\0\x01x\0\0\x01\0\x01n";

// The report `ab` of its job 1.
const REPORTED: &[u8] = b"\x02\0\0\0\0\0\0\0\0\0\0\0\0\0\0\0A\0\0\0\0\0\0\0\0\0\0\0\0\0\0\01ab";

// Bodies, and the length from which on the front of each is a body too.
const KINDS: &[(&[u8], usize)] = &[(REGISTERED, 29), (REPORTED, 33)];

// The first length at which a body that is cut, behind a registration, is answered otherwise: it is refused where it begins.
fn first_cut_otherwise(
    alloc: Global,
    body: &[u8],
    taken: usize,
) -> Result<Option<usize>, AllocError> {
    for length in 0..body.len().saturating_add(1) {
        let cut = body.get(..length).unwrap_or(body);
        let answer = shown_in(alloc, file_of(alloc, &[REGISTERED, cut])?);
        if place_of(answer) != (if length < taken { Some(47) } else { None }) {
            return Ok(Some(length));
        }
    }
    Ok(None)
}

#[test]
fn a_body_that_is_cut_is_of_nothing(rt: HostRuntime) -> Result<(), Fail> {
    for (body, taken) in KINDS {
        assert_eq!(rt; first_cut_otherwise(rt.alloc(), body, *taken)?, None);
    }
    Ok(())
}

/// What an opening finds: the rows in a line, or the byte at which no store stands.
type Found<'a> = Result<&'a str, u64>;

// The first and the last of some bytes of the bodies in the file of a registration, which begins at 13, and a report, which begins at
// 47, and what an opening finds where one of them is 00, is FF, or has its last bit turned.
const CHANGES: &[(usize, usize, &[Found<'_>])] = &[
    // the kind and the agent; the report is of the agent A
    (13, 13, &[Err(13), Err(13), Err(13)]),
    (14, 28, &[Ok("Ax:1ab"), Err(47), Err(47)]),
    (29, 29, &[Err(47), Err(47), Err(47)]),
    // the version
    (30, 30, &[Ok("Ax:1ab"), Err(13), Err(13)]),
    (31, 31, &[Err(13), Err(13), Err(13)]),
    (32, 32, &[Ok("Ax:1ab"), Err(13), Ok("Ax:1ab")]),
    // the name of the node
    (33, 33, &[Ok("Ax:1ab"), Err(13), Err(13)]),
    (34, 34, &[Err(13), Err(13), Err(13)]),
    (35, 35, &[Ok("A\0:1ab"), Err(13), Ok("Ay:1ab")]),
    // the address; as a text of one byte it takes the number of names, and bytes are left
    (36, 37, &[Ok("Ax:1ab"), Err(13), Err(13)]),
    // the number of names, and the name
    (38, 38, &[Err(13), Err(13), Err(13)]),
    (39, 39, &[Ok("Ax:1ab"), Err(13), Err(13)]),
    (40, 40, &[Err(13), Err(13), Err(13)]),
    (41, 41, &[Ok("Ax:1ab"), Err(13), Ok("Ax:1ab")]),
    // the kind, the agent and the job; a job above 255 is shown as `?`
    (47, 47, &[Err(47), Err(47), Err(47)]),
    (48, 62, &[Ok("Ax:1ab"), Err(47), Err(47)]),
    (63, 63, &[Err(47), Err(47), Err(47)]),
    (64, 78, &[Ok("Ax:1ab"), Ok("Ax:?ab"), Ok("Ax:?ab")]),
    (79, 79, &[Ok("Ax:\0ab"), Ok("Ax:\u{FF}ab"), Ok("Ax:0ab")]),
    // the report
    (80, 80, &[Ok("Ax:1\0b"), Ok("Ax:1\u{FF}b"), Ok("Ax:1`b")]),
    (81, 81, &[Ok("Ax:1a\0"), Ok("Ax:1a\u{FF}"), Ok("Ax:1ac")]),
];

// Whether this is found in the file with this byte at that place.
fn is_found(
    alloc: Global,
    mut file: Vec<u8>,
    at: usize,
    byte: u8,
    wanted: &Found<'_>,
) -> Result<bool, AllocError> {
    if let Some(place) = file.get_mut(at) {
        *place = byte;
    }
    let answer = shown_in(alloc, file);
    Ok(match wanted {
        Ok(line) => answer.is_ok_and(|found| found.as_str() == *line),
        Err(place) => answer == Err(PullError::NotAStore { at: *place }),
    })
}

// Whether all of this is found where that byte is changed.
fn are_found(alloc: Global, at: usize, wanted: &[Found<'_>]) -> Result<bool, AllocError> {
    for (change, wanted) in wanted.iter().enumerate() {
        let file = file_of(alloc, &[REGISTERED, REPORTED])?;
        let byte = match change {
            0 => 0x00,
            1 => 0xFF,
            _ => file.get(at).unwrap_or(&0) ^ 1,
        };
        if !is_found(alloc, file, at, byte, wanted)? {
            return Ok(false);
        }
    }
    Ok(true)
}

#[test]
fn a_changed_byte_is_told_or_leaves_rows(rt: HostRuntime) -> Result<(), Fail> {
    for (first, last, wanted) in CHANGES {
        for at in *first..last.saturating_add(1) {
            assert!(rt; are_found(rt.alloc(), at, wanted)?, "{at}");
        }
    }
    Ok(())
}
