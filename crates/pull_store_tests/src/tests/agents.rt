//! As many agents as a store takes.
use crate::{HEAD, after};
use pull_store::PullError;
use std::alloc::{AllocError, Global};
use std::test::Fail;

// The file with the registrations of that many agents, @, A, B and so on.
fn file_of_agents(alloc: Global, count: u32) -> Result<Vec<u8>, AllocError> {
    let mut file = HEAD.to_vec(alloc)?;
    for agent in 0..count {
        file.extend_from_slice(b"\xA5\0\0\0\x18\x01\0\0\0\0\0\0\0\0\0\0\0\0")?;
        file.extend_from_slice(&agent.saturating_add(64).to_be_bytes())?;
        file.extend_from_slice(&[0; 7])?;
    }
    file.push(0)?;
    Ok(file)
}

// How many agents there are, calls, what comes of the last, and how many agents there are then: at most 512.
const ROWS: &[(u32, &str, Result<(), PullError>, usize)] = &[
    (1, "R0n", Ok(()), 2),
    (2, "R0n", Ok(()), 3),
    (63, "R0n", Ok(()), 64),
    (64, "R0n", Ok(()), 65),
    (65, "R0n", Ok(()), 66),
    (511, "R0n", Ok(()), 512),
    (511, "R0n R1n", Err(PullError::Agents), 512),
    (512, "R0n", Err(PullError::Agents), 512),
    (512, "RAn PA1r RAm", Ok(()), 512),
    (512, "P01r", Err(PullError::NoAgent), 512),
    // an agent is forgotten, and another one comes in its place
    (512, "FA", Ok(()), 511),
    (512, "FA PA1r", Err(PullError::NoAgent), 511),
    (512, "FA R0n P01r", Ok(()), 512),
    (512, "FA R0n RAn", Err(PullError::Agents), 512),
];

fn is_so(
    alloc: Global,
    count: u32,
    words: &str,
    answer: Result<(), PullError>,
    rows: usize,
) -> Result<bool, PullError> {
    let left = after(alloc, file_of_agents(alloc, count)?, words)?;
    let is_so = left.answer == answer && left.kept.rows == rows;
    let next = after(alloc, left.bytes, "")?;
    Ok(is_so && next.kept.rows == rows && next.kept.line == left.kept.line)
}

#[test]
fn a_store_takes_512_agents(rt: HostRuntime) -> Result<(), Fail> {
    for (count, words, answer, rows) in ROWS {
        assert!(rt;
            is_so(rt.alloc(), *count, words, *answer, *rows)?,
            "{count} {words}"
        );
    }
    Ok(())
}

#[test]
fn a_file_of_513_agents_fails_at_the_last(rt: HostRuntime) -> Result<(), Fail> {
    let answer = after(rt.alloc(), file_of_agents(rt.alloc(), 513)?, "");
    assert_eq!(rt; crate::place_of(answer), Some(14_861));
    Ok(())
}
