//! Lists of large documents, and large Blobs.
use mof_values::{Bytes, Text};
use partial_merge::part_of;
use std::alloc::{AllocError, Global};

// A document of that many bytes, at least 44: a header and a comment.
fn document(alloc: Global, size: usize) -> Result<Vec<u8>, AllocError> {
    let mut bytes = b"instance of OMI_ConfigurationDocument{};/*".to_vec(alloc)?;
    bytes.resize(size.saturating_sub(2), b'x')?;
    bytes.extend_from_slice(b"*/")?;
    Ok(bytes)
}

/// Appends a name of that many bytes, of which the last is that of its place.
pub fn push_name(body: &mut Vec<u8>, place: u8, size: usize) -> Result<(), AllocError> {
    let length = u16::try_from(size).unwrap_or(u16::MAX);
    body.extend_from_slice(&length.to_be_bytes())?;
    let end = body.len().saturating_add(size.saturating_sub(1));
    body.resize(end, b'n')?;
    if size > 0 {
        body.push(b'0'.saturating_add(place))?;
    }
    Ok(())
}

/// The body that stages that many parts of the same document, with names and a document of that many bytes.
pub fn staged(alloc: Global, count: u8, name: usize, size: usize) -> Result<Vec<u8>, AllocError> {
    let text = Bytes::of(document(alloc, size)?);
    let part = part_of(alloc, Text::of(Vec::new(alloc)), text)?;
    let length = u32::try_from(size).unwrap_or(u32::MAX);
    let mut body = vec![in alloc; 4u8]?;
    body.push(count)?;
    for place in 0..count {
        push_name(&mut body, place, name)?;
        body.extend_from_slice(&part.digest)?;
        body.extend_from_slice(&length.to_be_bytes())?;
        body.extend_from_slice(part.bytes.as_slice())?;
    }
    Ok(body)
}

/// The body of a Blob of that many times this byte.
pub fn filler(alloc: Global, byte: u8, size: usize) -> Result<Vec<u8>, AllocError> {
    let bytes = vec![in alloc; byte; size]?;
    let part = part_of(alloc, Text::of(Vec::new(alloc)), Bytes::of(bytes))?;
    let mut body = b"\x10".to_vec(alloc)?;
    body.extend_from_slice(&part.digest)?;
    body.extend_from_slice(part.bytes.as_slice())?;
    Ok(body)
}
