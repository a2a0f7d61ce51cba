use http_frames::{FrameError, Reply, read_answer};
use std::alloc::Global;

// An answer, and its body.
fn whole_answers() -> &'static [(&'static [u8], &'static [u8])] {
    &[
        (b"HTTP/1.1 200 OK\r\n\r\nabc", b"abc"),
        (b"HTTP/1.1 200 OK\r\nContent-Length: 2\r\n\r\nhi", b"hi"),
        (b"HTTP/1.1 200 OK\r\nContent-Length: 2\r\n\r\nhigh", b"hi"),
        (b"HTTP/1.1 200\r\n\r\n", b""),
        (b"HTTP/1.0 200 OK\n\nx", b"x"),
        (
            b"HTTP/1.1 200 OK\r\nTransfer-Encoding: chunked\r\n\r\n5\r\nhello\r\n0\r\n\r\nx",
            b"hello",
        ),
        (b"HTTP/1.1 204 No Content\r\nContent-Length: 5\r\n\r\n", b""),
        (
            b"HTTP/1.1 304 Not Modified\r\nContent-Length: 99999999\r\n\r\nabc",
            b"",
        ),
        (
            b"HTTP/1.1 100 Continue\r\n\r\nHTTP/1.1 200 OK\r\nContent-Length: 2\r\n\r\nhi",
            b"hi",
        ),
        (
            b"HTTP/1.1 199 A\r\nContent-Length: x\r\n\r\nHTTP/1.1 103 B\r\n\r\nHTTP/1.1 200 OK\r\n\r\n",
            b"",
        ),
        (b"HTTP/1.1 099 A\r\n\r\nz", b"z"),
        (b"HTTP/1.1 404 Not Found\r\nContent-Length: 0\r\n\r\n", b""),
        (b"\r\nHTTP/1.1 200 OK\r\n\r\n", b""),
    ]
}

// Bytes that are no answer, and why.
fn no_answers() -> &'static [(&'static [u8], FrameError)] {
    &[
        (
            b"HTTP/1.1 200 OK\r\nContent-Length: 5\r\n\r\nhell",
            FrameError::Torn { at: 42 },
        ),
        (b"", FrameError::Torn { at: 0 }),
        (
            b"HTTP/1.1 100 Continue\r\n\r\n",
            FrameError::Torn { at: 25 },
        ),
        (b"HTTP/1.1 200 OK\r\n", FrameError::Torn { at: 17 }),
        (
            b"HTTP/1.1 200 OK\r\nTransfer-Encoding: chunked\r\n\r\n5\r\nhel",
            FrameError::Torn { at: 53 },
        ),
        (
            b"HTTP/1.1 200 OK\r\nTransfer-Encoding: chunked\r\n\r\ng",
            FrameError::Chunk { at: 47 },
        ),
        (
            b"HTTP/1.1 100 A\r\n\r\nHTTP/1.1 200 OK\r\nTransfer-Encoding: chunked\r\n\r\n1\r\nab",
            FrameError::Chunk { at: 69 },
        ),
        (b"HTTP/1.1 2x0 OK\r\n\r\n", FrameError::Head),
        (b"HTTP/1.1 2000 OK\r\n\r\n", FrameError::Head),
        (b"HTTP/3.0 200 OK\r\n\r\n", FrameError::Head),
        (b"http/1.1 200 OK\r\n\r\n", FrameError::Head),
        (b"HTTP/1.1 200 OK\r\nA b\r\n\r\n", FrameError::Head),
        (
            b"HTTP/1.1 200 OK\r\nTransfer-Encoding: gzip\r\n\r\n",
            FrameError::Coding,
        ),
        (
            b"HTTP/1.1 204 A\r\nTransfer-Encoding: gzip\r\n\r\n",
            FrameError::Coding,
        ),
        (
            b"HTTP/1.1 304 A\r\nContent-Length: x\r\n\r\n",
            FrameError::Length,
        ),
        (
            b"HTTP/1.1 200 OK\r\nContent-Length: 1\r\nContent-Length: 1\r\n\r\n",
            FrameError::Length,
        ),
        (
            b"HTTP/1.1 200 OK\r\nContent-Length: 67108865\r\n\r\n",
            FrameError::BodyTooLong,
        ),
        (
            b"HTTP/1.1 200 OK\r\nTransfer-Encoding: chunked\r\n\r\n4000001",
            FrameError::BodyTooLong,
        ),
    ]
}

#[test]
fn answers_are_read(rt: HostRuntime) {
    for (bytes, body) in whole_answers() {
        assert!(rt; gives(&read(rt.alloc(), bytes), body));
    }
}

#[test]
fn what_is_no_answer_is_refused(rt: HostRuntime) {
    for (bytes, error) in no_answers() {
        assert!(rt; fails(&read(rt.alloc(), bytes), *error));
    }
}

fn read(alloc: Global, bytes: &[u8]) -> Result<Reply, FrameError> {
    read_answer(alloc, bytes.to_vec(alloc)?)
}

fn gives(read: &Result<Reply, FrameError>, body: &[u8]) -> bool {
    match read {
        Ok(reply) => reply.body.as_slice() == body,
        Err(_) => false,
    }
}

fn fails(read: &Result<Reply, FrameError>, error: FrameError) -> bool {
    match read {
        Err(found) => *found == error,
        Ok(_) => false,
    }
}
