use http_frames::{FrameError, Request, RequestReader};
use std::alloc::{AllocError, Global};
use std::process::Abort;
use std::test::Fail;

// A request, and its body.
fn whole_heads() -> &'static [(&'static [u8], &'static [u8])] {
    &[
        (b"GET / HTTP/1.1\r\n\r\n", b""),
        (b"GET / HTTP/1.0\r\n\r\n", b""),
        (b"GET / HTTP/1.1\n\n", b""),
        (b"\r\nGET / HTTP/1.1\r\n\r\n", b""),
        (b"\n\n\r\nGET / HTTP/1.1\r\n\r\n", b""),
        (b"GET /\xc3\xa9 HTTP/1.1\r\n\r\n", b""),
        (b"GET * HTTP/1.1\r\n\r\n", b""),
        (b"DELETE / HTTP/1.1\r\n\r\n", b""),
        (b"put / HTTP/1.1\r\n\r\n", b""),
        (b"GET / HTTP/1.1\r\nA: b\r\n\r\n", b""),
        (b"GET / HTTP/1.1\r\nA:b\r\n\r\n", b""),
        (b"GET / HTTP/1.1\r\nA:\r\n\r\n", b""),
        (b"GET / HTTP/1.1\r\nA: \t b \t\r\n\r\n", b""),
        (b"GET / HTTP/1.1\r\nA: b\tc\r\n\r\n", b""),
        (b"GET / HTTP/1.1\r\nA: \xff\r\n\r\n", b""),
        (b"GET / HTTP/1.1\r\nA: b\n\n", b""),
        (b"GET / HTTP/1.1\r\na!#$%&'*+-.^_`|~9: c\r\n\r\n", b""),
        (b"GET / HTTP/1.1\r\nA: b\nC: d\r\n\n", b""),
        (b"GET / HTTP/1.1\r\n\r\nXYZ", b""),
        (b"GET / HTTP/1.1\r\n\r\n\x00", b""),
    ]
}

// Bytes that a head can go on from.
fn begun_heads() -> &'static [&'static [u8]] {
    &[
        b"",
        b"G",
        b"GET",
        b"GET ",
        b"GET /",
        b"GET / ",
        b"GET / H",
        b"GET / HTTP/1.1",
        b"GET / HTTP/1.1\r",
        b"GET / HTTP/1.1\r\n",
        b"GET / HTTP/1.1\r\nA",
        b"GET / HTTP/1.1\r\nA:",
        b"GET / HTTP/1.1\r\nA: b",
        b"GET / HTTP/1.1\r\nA: b\r",
        b"GET / HTTP/1.1\r\nA: b\r\n",
        b"GET / HTTP/1.1\r\nA: b\r\n\r",
        b"\r",
        b"\n",
        b"\r\n",
    ]
}

// Bytes that begin no head.
fn wrong_heads() -> &'static [&'static [u8]] {
    &[
        b"GET / HTTP/1.2\r\n\r\n",
        b"GET / HTTP/2.0\r\n\r\n",
        b"GET / http/1.1\r\n\r\n",
        b"GET  / HTTP/1.1\r\n\r\n",
        b"GET / HTTP/1.1 \r\n\r\n",
        b" GET / HTTP/1.1\r\n\r\n",
        b"G@T / HTTP/1.1\r\n\r\n",
        b"GET\t/ HTTP/1.1\r\n\r\n",
        b"GET /\x00 HTTP/1.1\r\n\r\n",
        b"GET /\x7f HTTP/1.1\r\n\r\n",
        b"GET /\xff HTTP/1.1\r\n\r\n",
        b"GET /\r\n\r\n",
        b"GET\r\n\r\n",
        b"GET / HTTP/1.1\rX",
        b"\rGET / HTTP/1.1\r\n\r\n",
        b"\x00",
        b"GET / HTTP/1.1\r\nA : b\r\n\r\n",
        b"GET / HTTP/1.1\r\n A: b\r\n\r\n",
        b"GET / HTTP/1.1\r\nA: b\r\n c\r\n\r\n",
        b"GET / HTTP/1.1\r\nA: b\r\n\tc\r\n\r\n",
        b"GET / HTTP/1.1\r\n: b\r\n\r\n",
        b"GET / HTTP/1.1\r\nA\r\n\r\n",
        b"GET / HTTP/1.1\r\nA: b\x00c\r\n\r\n",
        b"GET / HTTP/1.1\r\nA: b\x01\r\n\r\n",
        b"GET / HTTP/1.1\r\nA: b\x7f\r\n\r\n",
        b"GET / HTTP/1.1\r\nA: b\rc\r\n\r\n",
        b"GET / HTTP/1.1\r\nA: b\r\r\n\r\n",
        b"GET / HTTP/1.1\r\n\rX",
        b"GET / HTTP/1.1\r\n(: b\r\n\r\n",
        b"GET / HTTP/1.1\r\nA\"B: c\r\n\r\n",
        b"GET / HTTP/1.1\r\n\xff: c\r\n\r\n",
        b"POST / HTTP/1.1\r\nContent-Length: 1\r\nContent-Length: 1\r\nbad\r\n\r\n",
    ]
}

// A request with a body, and the body.
fn lengths() -> &'static [(&'static [u8], &'static [u8])] {
    &[
        (b"GET / HTTP/1.1\r\nContent-Length: 3\r\n\r\nabc", b"abc"),
        (b"POST / HTTP/1.1\r\nContent-Length: 0\r\n\r\n", b""),
        (
            b"POST / HTTP/1.1\r\ncontent-length: 3\r\n\r\nabcdef",
            b"abc",
        ),
        (
            b"POST / HTTP/1.1\r\nContent-Length: 0000000003\r\n\r\nabc",
            b"abc",
        ),
        (b"POST / HTTP/1.1\r\nContent-Length: 3 \r\n\r\nabc", b"abc"),
        (
            b"POST / HTTP/1.1\r\nContent-Length: 3\r\nContent-Encoding: identity\r\nContent-Encoding: IDENTITY\r\n\r\nabc",
            b"abc",
        ),
        (
            b"POST / HTTP/1.1\r\ntransfer-encoding: Chunked\r\n\r\n5\r\nhello\r\n0\r\n\r\n",
            b"hello",
        ),
        (
            b"POST / HTTP/1.0\r\nTransfer-Encoding: chunked\r\n\r\n1\r\na\r\n0\r\n\r\n",
            b"a",
        ),
        (
            b"POST / HTTP/1.1\r\nExpect: 100-continue\r\nContent-Length: 1\r\n\r\nx",
            b"x",
        ),
    ]
}

// A head that says wrongly how its body ends.
fn wrong_lengths() -> &'static [(&'static [u8], FrameError)] {
    &[
        (b"POST / HTTP/1.1\r\nA: b\r\n\r\n", FrameError::NoLength),
        (b"PUT / HTTP/1.1\r\n\r\n", FrameError::NoLength),
        (
            b"POST / HTTP/1.1\r\nContent-Length: \r\n\r\n",
            FrameError::Length,
        ),
        (
            b"POST / HTTP/1.1\r\nContent-Length: +1\r\n\r\n",
            FrameError::Length,
        ),
        (
            b"POST / HTTP/1.1\r\nContent-Length: -1\r\n\r\n",
            FrameError::Length,
        ),
        (
            b"POST / HTTP/1.1\r\nContent-Length: 0x1\r\n\r\n",
            FrameError::Length,
        ),
        (
            b"POST / HTTP/1.1\r\nContent-Length: 1 2\r\n\r\n",
            FrameError::Length,
        ),
        (
            b"POST / HTTP/1.1\r\nContent-Length: 1, 1\r\n\r\n",
            FrameError::Length,
        ),
        (
            b"POST / HTTP/1.1\r\nContent-Length: 1a\r\n\r\n",
            FrameError::Length,
        ),
        (
            b"POST / HTTP/1.1\r\nContent-Length: 00000000001\r\n\r\n",
            FrameError::Length,
        ),
        (
            b"POST / HTTP/1.1\r\nContent-Length: 1\r\nContent-Length: 1\r\n\r\n",
            FrameError::Length,
        ),
        (
            b"GET / HTTP/1.1\r\nContent-Length: 1\r\ncontent-length: 2\r\n\r\n",
            FrameError::Length,
        ),
        (
            b"POST / HTTP/1.1\r\nContent-Length: 1\r\nTransfer-Encoding: chunked\r\n\r\n",
            FrameError::Length,
        ),
        (
            b"GET / HTTP/1.1\r\nTransfer-Encoding: chunked\r\nContent-Length: 1\r\n\r\n",
            FrameError::Length,
        ),
        (
            b"POST / HTTP/1.1\r\nTransfer-Encoding: gzip\r\n\r\n",
            FrameError::Coding,
        ),
        (
            b"POST / HTTP/1.1\r\nTransfer-Encoding: \r\n\r\n",
            FrameError::Coding,
        ),
        (
            b"POST / HTTP/1.1\r\nTransfer-Encoding: chunked, gzip\r\n\r\n",
            FrameError::Coding,
        ),
        (
            b"POST / HTTP/1.1\r\nTransfer-Encoding: gzip, chunked\r\n\r\n",
            FrameError::Coding,
        ),
        (
            b"POST / HTTP/1.1\r\nTransfer-Encoding: chunked, chunked\r\n\r\n",
            FrameError::Coding,
        ),
        (
            b"POST / HTTP/1.1\r\nTransfer-Encoding: identity\r\n\r\n",
            FrameError::Coding,
        ),
        (
            b"POST / HTTP/1.1\r\nTransfer-Encoding: chunked\r\nTransfer-Encoding: chunked\r\n\r\n",
            FrameError::Coding,
        ),
        (
            b"POST / HTTP/1.1\r\nTransfer-Encoding: gzip\r\nContent-Length: 1\r\n\r\n",
            FrameError::Coding,
        ),
        (
            b"POST / HTTP/1.1\r\nContent-Encoding: gzip\r\nContent-Length: 1\r\n\r\n",
            FrameError::Coding,
        ),
        (
            b"GET / HTTP/1.1\r\nContent-Encoding: \r\nContent-Length: 1\r\n\r\n",
            FrameError::Coding,
        ),
        (
            b"POST / HTTP/1.1\r\nContent-Encoding: gzip\r\nContent-Length: 1\r\nContent-Length: 1\r\n\r\n",
            FrameError::Coding,
        ),
        (
            b"POST / HTTP/1.1\r\nContent-Length: 131073\r\n\r\n",
            FrameError::BodyTooLong,
        ),
        (
            b"GET / HTTP/1.1\r\nContent-Length: 9999999999\r\n\r\n",
            FrameError::BodyTooLong,
        ),
    ]
}

// A body in chunks, and its content.
fn whole_chunks() -> &'static [(&'static [u8], &'static [u8])] {
    &[
        (b"0\r\n\r\n", b""),
        (b"5\r\nhello\r\n0\r\n\r\n", b"hello"),
        (b"1\r\na\r\n2\r\nbc\r\n0\r\n\r\n", b"abc"),
        (b"A\r\n0123456789\r\n0\r\n\r\n", b"0123456789"),
        (b"a\r\n0123456789\r\n0\r\n\r\n", b"0123456789"),
        (b"0000000000000005\r\nhello\r\n0\r\n\r\n", b"hello"),
        (b"5 \r\nhello\r\n0\r\n\r\n", b"hello"),
        (b"5\t \r\nhello\r\n0\r\n\r\n", b"hello"),
        (b"5;x\r\nhello\r\n0\r\n\r\n", b"hello"),
        (b"5;a=b;c=\"d\"\r\nhello\r\n0\r\n\r\n", b"hello"),
        (b"5 ;x\r\nhello\r\n0\r\n\r\n", b"hello"),
        (b"5;\r\nhello\r\n0\r\n\r\n", b"hello"),
        (b"000\r\n\r\n", b""),
        (b"0\r\nA: b\r\n\r\n", b""),
        (b"0\r\nA\n\n", b""),
        (b"0\r\n\n", b""),
        (b"0\r\n\x00\r\n\r\n", b""),
        (b"0\r\n\r\r\n\r\n", b""),
        (b"4\r\n\r\n\r\n\r\n0\r\n\r\n", b"\r\n\r\n"),
        (b"0;x\r\n\r\n", b""),
        (b"0\r\n\r\nGET", b""),
        (b"1\r\n\x00\r\n0\r\nX: y\r\nZ\r\n\r\n", b"\x00"),
        (b"0\r\nA\r\rB\n\r\n", b""),
    ]
}

// Bytes that a body in chunks can go on from.
fn begun_chunks() -> &'static [&'static [u8]] {
    &[
        b"",
        b"5",
        b"5 ",
        b"5;",
        b"5;a",
        b"5\r",
        b"5\r\n",
        b"5\r\nhel",
        b"5\r\nhello",
        b"5\r\nhello\r",
        b"5\r\nhello\r\n",
        b"5\r\nhello\r\n0",
        b"0\r\n",
        b"0\r\n\r",
        b"0\r\nA",
        b"0\r\nA\r\n",
        b"20000",
        b"20000\r\n",
        b"1\r\na\r\n1ffff",
        b"0000000000020000",
    ]
}

// No body in chunks, and where the wrong line, or line end, begins.
fn wrong_chunks() -> &'static [(&'static [u8], u64)] {
    &[
        (b"g", 0),
        (b"\r\n", 0),
        (b"\n", 0),
        (b" 5", 0),
        (b";x", 0),
        (b"5\n", 0),
        (b"5\rX", 0),
        (b"5;a\n", 0),
        (b"5;a\rb", 0),
        (b"5x", 0),
        (b"5 x", 0),
        (b"5 5", 0),
        (b"00000000000000005", 0),
        (b"-1", 0),
        (b"+1", 0),
        (b"0x5", 0),
        (b"0\n", 0),
        (b"5\r\nhelloX", 8),
        (b"5\r\nhello\n", 8),
        (b"5\r\nhello\rX", 8),
        (b"5\r\nhello\r\ng", 10),
        (b"5\r\nhello\r\n\r\n", 10),
        (b"1\r\na\r\n1\r\nbX", 10),
        (b"1\r\na\r\n1\r\nb\r\nz", 12),
        (b"1\r\na\r\n5\n", 6),
    ]
}

// More content than a body may have.
fn long_chunks() -> &'static [&'static [u8]] {
    &[
        b"20001",
        b"fffff",
        b"FFFFFFFFFFFFFFFF",
        b"1\r\na\r\n20000",
        b"0000000000020001",
        b"20001\n",
    ]
}

const LONG_HEAD: &[u8] = b"GET / HTTP/1.1\r\nA: ";

const CHUNKED: &[u8] = b"POST / HTTP/1.1\r\nTransfer-Encoding: chunked\r\n\r\n";

type Read = Result<Option<Request>, FrameError>;

#[test]
fn requests_are_read_in_whatever_pieces(rt: HostRuntime) {
    for (bytes, body) in whole_heads() {
        reads(&rt, rt.alloc(), bytes, body);
    }
    for (bytes, body) in lengths() {
        reads(&rt, rt.alloc(), bytes, body);
    }
}

#[test]
fn begun_heads_are_waited_for(rt: HostRuntime) {
    for bytes in begun_heads() {
        awaits(&rt, rt.alloc(), bytes);
    }
}

#[test]
fn wrong_heads_are_refused_in_whatever_pieces(rt: HostRuntime) {
    for bytes in wrong_heads() {
        refuses(&rt, rt.alloc(), bytes, FrameError::Head);
    }
    for (bytes, error) in wrong_lengths() {
        refuses(&rt, rt.alloc(), bytes, *error);
    }
}

#[test]
fn bodies_in_chunks_are_read_in_whatever_pieces(rt: HostRuntime) -> Result<(), Fail> {
    for (body, content) in whole_chunks() {
        reads(
            &rt,
            rt.alloc(),
            &joined(rt.alloc(), CHUNKED, body)?,
            content,
        );
    }
    for body in begun_chunks() {
        awaits(&rt, rt.alloc(), &joined(rt.alloc(), CHUNKED, body)?);
    }
    Ok(())
}

#[test]
fn wrong_chunks_are_refused_at_their_place(rt: HostRuntime) -> Result<(), Fail> {
    for (body, at) in wrong_chunks() {
        let error = FrameError::Chunk {
            at: at.saturating_add(CHUNKED.len() as u64),
        };
        refuses(&rt, rt.alloc(), &joined(rt.alloc(), CHUNKED, body)?, error);
    }
    for body in long_chunks() {
        refuses(
            &rt,
            rt.alloc(),
            &joined(rt.alloc(), CHUNKED, body)?,
            FrameError::BodyTooLong,
        );
    }
    Ok(())
}

// How many header lines a head has, and its end: whole, begun, and wrong.
fn whole_lines() -> &'static [(usize, &'static [u8])] {
    &[(63, b"\r\n"), (64, b"\r\n")]
}

fn begun_lines() -> &'static [(usize, &'static [u8])] {
    &[(63, b"x"), (64, b""), (64, b"\r")]
}

fn wrong_lines() -> &'static [(usize, &'static [u8])] {
    &[(64, b"x"), (65, b"\r\n"), (66, b"\r\n")]
}

#[test]
fn a_head_has_64_header_lines_at_most(rt: HostRuntime) -> Result<(), Fail> {
    for (count, end) in whole_lines() {
        reads(&rt, rt.alloc(), &lines(rt.alloc(), *count, end)?, b"");
    }
    for (count, end) in begun_lines() {
        awaits(&rt, rt.alloc(), &lines(rt.alloc(), *count, end)?);
    }
    for (count, end) in wrong_lines() {
        refuses(
            &rt,
            rt.alloc(),
            &lines(rt.alloc(), *count, end)?,
            FrameError::Head,
        );
    }
    Ok(())
}

// To how many bytes a head is filled, its end, where it is split, and why it is refused.
fn long_heads() -> &'static [(usize, &'static [u8], usize, FrameError)] {
    &[
        (16_384, b"", 16_383, FrameError::HeadTooLong),
        (16_381, b"\r\n\r\n", 16_383, FrameError::HeadTooLong),
        (16_383, b"\x00", 16_383, FrameError::Head),
    ]
}

#[test]
fn a_head_has_16384_bytes_at_most(rt: HostRuntime) -> Result<(), Fail> {
    for (length, end, at, error) in long_heads() {
        let read = filled_head(rt.alloc(), *length, end, *at)?;
        assert!(rt; fails(&read, *error));
    }
    Ok(())
}

#[test]
fn a_head_of_16383_bytes_is_waited_for(rt: HostRuntime) -> Result<(), Fail> {
    let read = filled_head(rt.alloc(), 16_383, b"", 16_000)?;
    assert!(rt; waits(&read));
    Ok(())
}

#[test]
fn a_head_of_16384_bytes_is_read(rt: HostRuntime) -> Result<(), Fail> {
    let read = filled_head(rt.alloc(), 16_380, b"\r\n\r\n", 16_383)?;
    assert!(rt; gives(&read, b""));
    Ok(())
}

#[test]
fn a_head_of_16384_bytes_is_too_long_byte_by_byte(rt: HostRuntime) -> Result<(), Fail> {
    let long = filled(rt.alloc(), LONG_HEAD, 16_384, b"")?;
    assert!(rt; fails(&fed_by_byte(rt.alloc(), &long), FrameError::HeadTooLong));
    Ok(())
}

#[test]
fn a_body_in_chunks_has_1048576_bytes_at_most(rt: HostRuntime) -> Result<(), Fail> {
    assert!(rt; gives(&filled_chunks(rt.alloc(), 1_048_573)?, b""));
    assert!(rt;
        fails(
            &filled_chunks(rt.alloc(), 1_048_574)?,
            FrameError::BodyTooLong
        )
    );
    Ok(())
}

#[test]
fn torn_counts_the_bytes(rt: HostRuntime) -> Result<(), Fail> {
    let mut reader = RequestReader::new(rt.alloc());
    assert_eq!(rt; reader.torn(), FrameError::Torn { at: 0 });
    assert!(rt; waits(&reader.feed(b"GET / HTT")));
    assert_eq!(rt; reader.torn(), FrameError::Torn { at: 9 });
    Ok(())
}

// The bytes are a request with that body, whole, byte by byte and in two pieces wherever they are split.
fn reads(rt: &impl Abort, alloc: Global, bytes: &[u8], body: &[u8]) {
    assert!(rt; gives(&fed_by_byte(alloc, bytes), body));
    for at in 0..bytes.len() {
        assert!(rt; gives(&fed_at(alloc, bytes, at), body), "at {at}");
    }
}

fn awaits(rt: &impl Abort, alloc: Global, bytes: &[u8]) {
    assert!(rt; waits(&fed_by_byte(alloc, bytes)));
    for at in 0..bytes.len() {
        assert!(rt; waits(&fed_at(alloc, bytes, at)), "at {at}");
    }
}

fn refuses(rt: &impl Abort, alloc: Global, bytes: &[u8], error: FrameError) {
    assert!(rt; fails(&fed_by_byte(alloc, bytes), error));
    for at in 0..bytes.len() {
        assert!(rt; fails(&fed_at(alloc, bytes, at), error), "at {at}");
    }
}

fn gives(read: &Read, body: &[u8]) -> bool {
    match read {
        Ok(Some(request)) => request.body.as_slice() == body,
        _ => false,
    }
}

fn waits(read: &Read) -> bool {
    matches!(read, Ok(None))
}

fn fails(read: &Read, error: FrameError) -> bool {
    match read {
        Err(found) => *found == error,
        _ => false,
    }
}

fn fed_by_byte(alloc: Global, bytes: &[u8]) -> Read {
    let mut reader = RequestReader::new(alloc);
    for byte in bytes {
        match reader.feed(&[*byte]) {
            Ok(None) => {}
            answer => return answer,
        }
    }
    Ok(None)
}

fn fed_at(alloc: Global, bytes: &[u8], at: usize) -> Read {
    let (front, back) = bytes.split_at(at.min(bytes.len()));
    let mut reader = RequestReader::new(alloc);
    match reader.feed(front) {
        Ok(None) => reader.feed(back),
        answer => answer,
    }
}

fn joined(alloc: Global, front: &[u8], back: &[u8]) -> Result<Vec<u8>, AllocError> {
    let mut bytes = Vec::from_slice(alloc, front)?;
    bytes.extend_from_slice(back)?;
    Ok(bytes)
}

fn lines(alloc: Global, count: usize, end: &[u8]) -> Result<Vec<u8>, AllocError> {
    let mut bytes = Vec::from_slice(alloc, b"GET / HTTP/1.1\r\n")?;
    for _ in 0..count {
        bytes.extend_from_slice(b"a: b\r\n")?;
    }
    bytes.extend_from_slice(end)?;
    Ok(bytes)
}

// The front, the letter `a` up to that many bytes, and the end.
fn filled(alloc: Global, front: &[u8], length: usize, end: &[u8]) -> Result<Vec<u8>, AllocError> {
    let mut bytes = Vec::from_slice(alloc, front)?;
    for _ in front.len()..length {
        bytes.extend_from_slice(b"a")?;
    }
    bytes.extend_from_slice(end)?;
    Ok(bytes)
}

// A head that is filled to that many bytes, with the end, in two pieces split at that place.
fn filled_head(alloc: Global, length: usize, end: &[u8], at: usize) -> Result<Read, AllocError> {
    let bytes = filled(alloc, LONG_HEAD, length, end)?;
    Ok(fed_at(alloc, &bytes, at))
}

// A body in chunks whose last one has that many bytes but its line ends.
fn filled_chunks(alloc: Global, length: usize) -> Result<Read, AllocError> {
    let front = joined(alloc, CHUNKED, b"0;")?;
    let length = CHUNKED.len().saturating_add(length);
    let bytes = filled(alloc, &front, length, b"\r\n\n")?;
    Ok(fed_at(alloc, &bytes, 9_000))
}
