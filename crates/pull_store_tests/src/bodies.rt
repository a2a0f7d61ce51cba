//! Bodies, and files of bodies.
use pull_store::PullError;
use std::alloc::{AllocError, Global};

/// The first eight bytes of a store whose first bank is live.
pub const HEAD: &[u8] = b"DSCSTOR1";

// The body of a registration of the agent A with texts of that many bytes and that many names of that many bytes.
fn registration(
    alloc: Global,
    texts: &[usize; 3],
    count: u8,
    name: usize,
) -> Result<Vec<u8>, AllocError> {
    let mut body = b"\x01\0\0\0\0\0\0\0\0\0\0\0\0\0\0\0A".to_vec(alloc)?;
    for size in texts {
        push_text(&mut body, *size)?;
    }
    body.push(count)?;
    for _ in 0..count {
        push_text(&mut body, name)?;
    }
    Ok(body)
}

fn push_text(body: &mut Vec<u8>, size: usize) -> Result<(), AllocError> {
    let length = u16::try_from(size).unwrap_or(u16::MAX);
    body.extend_from_slice(&length.to_be_bytes())?;
    let end = body.len().saturating_add(size);
    body.resize(end, b't')
}

/// The body of the report of the agent A with the job 49, of that many bytes.
pub fn report(alloc: Global, size: usize) -> Result<Vec<u8>, AllocError> {
    let mut body = b"\x02\0\0\0\0\0\0\0\0\0\0\0\0\0\0\0A\0\0\0\0\0\0\0\0\0\0\0\0\0\0\01".to_vec(
        alloc,
    )?;
    let end = body.len().saturating_add(size);
    body.resize(end, b'r')?;
    Ok(body)
}

/// Appends the cell of a body.
pub fn push_cell(file: &mut Vec<u8>, body: &[u8]) -> Result<(), AllocError> {
    file.push(0xA5)?;
    let length = u32::try_from(body.len()).unwrap_or(u32::MAX);
    file.extend_from_slice(&length.to_be_bytes())?;
    file.extend_from_slice(body)
}

/// The file of a store with these bodies.
pub fn file_of(alloc: Global, bodies: &[&[u8]]) -> Result<Vec<u8>, AllocError> {
    let mut file = HEAD.to_vec(alloc)?;
    for body in bodies {
        push_cell(&mut file, body)?;
    }
    file.push(0)?;
    Ok(file)
}

/// The file of a store with a registration and a report of these sizes.
pub fn file_with(
    alloc: Global,
    texts: &[usize; 3],
    count: u8,
    name: usize,
    size: usize,
) -> Result<Vec<u8>, AllocError> {
    let registration = registration(alloc, texts, count, name)?;
    let report = report(alloc, size)?;
    file_of(alloc, &[&registration, &report])
}

/// Where a file is no store, for an answer.
pub fn place_of<T: Drop>(answer: Result<T, PullError>) -> Option<u64> {
    match answer {
        Err(PullError::NotAStore { at }) => Some(at),
        _ => None,
    }
}
