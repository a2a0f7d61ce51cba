//! That ample memory is enough for requests and replies of each size.
ghost use Rattle.std.specs.Prelude.{◌<◌};

use http_frames::{FrameError, Reply};
use mof_values::{Bytes, Items};
use pull_exchange::{Received, SendEnd, receive, refusal, send_reply};
use pull_outside::MemoryConn;
use std::alloc::{AllocError, Global};
use std::rt::HostRuntime;
use std::test::Fail;

// Bytes that are not all the same.
fn body(alloc: Global, size: usize) -> Result<Vec<u8>, AllocError> {
    let mut bytes = Vec::new(alloc);
    for place in 0..size {
        bytes.push(place.to_le_bytes()[0])?;
    }
    Ok(bytes)
}

fn refused(alloc: Global, error: &FrameError) -> Result<u16, AllocError> {
    match error {
        FrameError::Torn { .. } | FrameError::Memory => Ok(0),
        _ => match refusal(alloc, error) {
            Ok(reply) => Ok(reply.code),
            Err(_) => Err(AllocError),
        },
    }
}

// What comes of these bytes, in pieces of at most that many: 200 where they are a request with this body, or the code of a refusal.
fn code_of(alloc: Global, bytes: &[u8], most: usize, body: &[u8]) -> Result<u16, AllocError>
    requires { 0 < most }
{
    let mut conn = MemoryConn::new(alloc, bytes.to_vec(alloc)?, most, Vec::new(alloc));
    match receive(alloc, &mut conn) {
        Received::Request(request) if request.body.as_slice() == body => Ok(200),
        Received::Refused(error) => refused(alloc, &error),
        Received::Memory => Err(AllocError),
        _ => Ok(0),
    }
}

// Whether this code comes of these bytes, in pieces of each size.
fn is_answered(alloc: Global, bytes: &[u8], body: &[u8], code: u16) -> Result<bool, AllocError> {
    Ok(
        code_of(alloc, bytes, 1, body)? == code
            && code_of(alloc, bytes, 7, body)? == code
            && code_of(alloc, bytes, 8_192, body)? == code
            && code_of(alloc, bytes, 2_000_000, body)? == code,
    )
}

// The bytes of a body, and what comes of it.
fn bodies() -> &'static [(usize, u16)] {
    &[
        (0, 200),
        (1, 200),
        (63, 200),
        (64, 200),
        (65, 200),
        (4_096, 200),
        (131_072, 200),
        (131_073, 413),
    ]
}

// A request with a length.
fn with_length(alloc: Global, body: &[u8]) -> Result<Vec<u8>, AllocError> {
    let head = format!(in alloc; "PUT / HTTP/1.1\r\nContent-Length: {}\r\n\r\n", body.len())?;
    let mut bytes = head.into_bytes();
    bytes.extend_from_slice(body)?;
    Ok(bytes)
}

fn push_chunk(bytes: &mut Vec<u8>, chunk: &[u8]) -> Result<(), AllocError> {
    let line = format!(in *bytes.allocator(); "{:x}\r\n", chunk.len())?;
    bytes.extend_from_slice(line.as_bytes())?;
    bytes.extend_from_slice(chunk)?;
    bytes.extend_from_slice(b"\r\n")
}

// A request in chunks of at most 1,000 bytes.
fn in_chunks(alloc: Global, body: &[u8]) -> Result<Vec<u8>, AllocError> {
    let mut bytes = b"PUT / HTTP/1.1\r\nTransfer-Encoding: chunked\r\n\r\n".to_vec(alloc)?;
    for chunk in body.chunks(1_000) {
        push_chunk(&mut bytes, chunk)?;
    }
    bytes.extend_from_slice(b"0\r\n\r\n")?;
    Ok(bytes)
}

fn is_sized_answered(alloc: Global, body: &[u8], code: u16) -> Result<bool, AllocError> {
    let bytes = with_length(alloc, body)?;
    is_answered(alloc, &bytes, body, code)
}

fn is_chunked_answered(alloc: Global, body: &[u8], code: u16) -> Result<bool, AllocError> {
    let bytes = in_chunks(alloc, body)?;
    is_answered(alloc, &bytes, body, code)
}

fn is_body_answered(alloc: Global, size: usize, code: u16) -> Result<bool, AllocError> {
    let body = body(alloc, size)?;
    Ok(is_sized_answered(alloc, &body, code)? && is_chunked_answered(alloc, &body, code)?)
}

#[test]
fn bodies_of_each_size_come_in_any_pieces(rt: HostRuntime) -> Result<(), Fail> {
    for (size, code) in bodies() {
        assert!(rt; is_body_answered(rt.alloc(), *size, *code)?, "{size}");
    }
    Ok(())
}

// The bytes of a target, the header lines, the bytes of the whole head, and what comes of it.
fn heads() -> &'static [(usize, usize, usize, u16)] {
    &[
        (1, 1, 30, 200),
        (1, 1, 1_000, 200),
        (1, 1, 8_192, 200),
        (1, 1, 8_193, 200),
        (1, 1, 16_383, 200),
        (1, 1, 16_384, 200),
        (1, 1, 16_385, 400),
        (8_000, 1, 16_384, 200),
        (16_360, 1, 16_384, 200),
        (16_361, 1, 16_385, 400),
        (1, 7, 1_000, 200),
        (1, 64, 1_000, 200),
        (1, 64, 16_384, 200),
        (1, 65, 1_000, 400),
    ]
}

// A request without a body; the value of its last header line makes the head as long as it is to be.
fn head(alloc: Global, target: usize, lines: usize, size: usize) -> Result<Vec<u8>, AllocError> {
    let mut bytes = b"GET ".to_vec(alloc)?;
    let end = bytes.len().saturating_add(target);
    bytes.resize(end, b'/')?;
    bytes.extend_from_slice(b" HTTP/1.1\r\n")?;
    for _ in 1..lines {
        bytes.extend_from_slice(b"A: b\r\n")?;
    }
    bytes.extend_from_slice(b"X: ")?;
    bytes.resize(size.saturating_sub(4), b'x')?;
    bytes.extend_from_slice(b"\r\n\r\n")?;
    Ok(bytes)
}

fn is_head_answered(
    alloc: Global,
    target: usize,
    lines: usize,
    size: usize,
    code: u16,
) -> Result<bool, AllocError> {
    let bytes = head(alloc, target, lines, size)?;
    Ok(bytes.len() == size && is_answered(alloc, &bytes, b"", code)?)
}

#[test]
fn heads_of_each_size_come_in_any_pieces(rt: HostRuntime) -> Result<(), Fail> {
    for (target, lines, size, code) in heads() {
        assert!(rt;
            is_head_answered(rt.alloc(), *target, *lines, *size, *code)?,
            "{target} {lines} {size}"
        );
    }
    Ok(())
}

// The bytes of the body of a reply, and how many bytes a write takes at most.
fn replies() -> &'static [(usize, usize)] {
    &[
        (0, 1),
        (0, 7),
        (0, 4_096),
        (1, 1),
        (1, 7),
        (1, 4_096),
        (63, 1),
        (63, 7),
        (63, 4_096),
        (64, 1),
        (64, 7),
        (64, 4_096),
        (65, 1),
        (65, 7),
        (65, 4_096),
        (4_096, 1),
        (4_096, 7),
        (4_096, 4_096),
        (131_072, 7),
        (131_072, 4_096),
        (16_777_216, 7),
        (16_777_216, 4_096),
    ]
}

// The head of the answer 200 with a body of that many bytes.
fn head_of(alloc: Global, size: usize) -> Result<String, AllocError> {
    format!(in alloc;
        "HTTP/1.1 200 OK\r\nConnection: close\r\nProtocolVersion: 2.0\r\nContent-Length: {size}\r\n\r\n"
    )
}

fn is_reply_sent(alloc: Global, head: &str, body: Vec<u8>, most: usize) -> bool
    requires { 0 < most }
{
    let reply = Reply {
        code: 200,
        headers: Items::of(Vec::new(alloc)),
        body: Bytes::of(body),
    };
    let mut conn = MemoryConn::new(alloc, Vec::new(alloc), most, Vec::new(alloc));
    match send_reply(alloc, &mut conn, &reply) {
        SendEnd::Sent => {
            conn.taken().strip_prefix(head.as_bytes()) == Some(reply.body.as_slice())
        }
        SendEnd::WriteFault | SendEnd::Memory => false,
    }
}

// Whether the whole answer 200 with a body of that many bytes is written.
fn is_sent(alloc: Global, size: usize, most: usize) -> Result<bool, AllocError>
    requires { 0 < most }
{
    let head = head_of(alloc, size)?;
    let body = vec![in alloc; b'r'; size]?;
    Ok(is_reply_sent(alloc, &head, body, most))
}

#[test]
fn replies_of_each_size_are_written_in_any_pieces(rt: HostRuntime) -> Result<(), Fail> {
    for (size, most) in replies() {
        if 0 < *most {
            assert!(rt; is_sent(rt.alloc(), *size, *most)?, "{size} {most}");
        }
    }
    Ok(())
}
