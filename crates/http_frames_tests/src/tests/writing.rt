use http_frames::{
    Header, Reply, Request, RequestReader, read_answer, write_answer, write_request,
};
use mof_values::{Bytes, Items, Text};
use std::alloc::{AllocError, Global};
use std::test::Fail;

// A method and a body, the host of the server, and the text of that request.
fn request_rows() -> &'static [(&'static [u8], &'static [u8], &'static [u8], &'static [u8])] {
    &[
        (
            b"GET",
            b"",
            b"pull:8080",
            b"GET /a HTTP/1.1\r\nHost: pull:8080\r\nConnection: close\r\nProtocolVersion: 2.0\r\n\r\n",
        ),
        (
            b"PUT",
            b"{}",
            b"pull:80",
            b"PUT /a HTTP/1.1\r\nHost: pull\r\nConnection: close\r\nProtocolVersion: 2.0\r\nContent-Length: 2\r\n\r\n{}",
        ),
    ]
}

// A code and a body, and the text of that answer.
fn answer_rows() -> &'static [(u16, &'static [u8], &'static [u8])] {
    &[
        (
            404,
            b"",
            b"HTTP/1.1 404 Not Found\r\nConnection: close\r\nProtocolVersion: 2.0\r\nContent-Length: 0\r\n\r\n",
        ),
        (
            204,
            b"",
            b"HTTP/1.1 204 No Content\r\nConnection: close\r\nProtocolVersion: 2.0\r\n\r\n",
        ),
        (
            599,
            b"x",
            b"HTTP/1.1 599 \r\nConnection: close\r\nProtocolVersion: 2.0\r\nContent-Length: 1\r\n\r\nx",
        ),
    ]
}

#[test]
fn requests_are_written(rt: HostRuntime) -> Result<(), Fail> {
    for (method, body, host, text) in request_rows() {
        let written = written_request(rt.alloc(), method, body, host)?;
        assert!(rt; written.as_slice() == *text);
    }
    Ok(())
}

#[test]
fn a_written_request_reads_back(rt: HostRuntime) -> Result<(), Fail> {
    let written = written_request(rt.alloc(), b"PUT", b"{}", b"pull:80")?;
    assert!(rt; is_read_back(rt.alloc(), &written, b"{}", 4));
    Ok(())
}

#[test]
fn answers_are_written(rt: HostRuntime) -> Result<(), Fail> {
    for (code, body, text) in answer_rows() {
        let written = written_answer(rt.alloc(), *code, body)?;
        assert!(rt; written.as_slice() == *text);
        assert!(rt; has_code(rt.alloc(), written, *code));
    }
    Ok(())
}

fn written_request(
    alloc: Global,
    method: &[u8],
    body: &[u8],
    host: &[u8],
) -> Result<Vec<u8>, Fail> {
    let host = Text::from_latin1(alloc, host)?;
    let request = request(alloc, method, body)?;
    Ok(write_request(alloc, &request, &host)?)
}

fn written_answer(alloc: Global, code: u16, body: &[u8]) -> Result<Vec<u8>, Fail> {
    let reply = reply(alloc, code, body)?;
    Ok(write_answer(alloc, &reply)?)
}

// The bytes are a request with that body and that many headers.
fn is_read_back(alloc: Global, bytes: &[u8], body: &[u8], headers: usize) -> bool {
    let mut reader = RequestReader::new(alloc);
    match reader.feed(bytes) {
        Ok(Some(request)) => {
            request.body.as_slice() == body && request.headers.as_slice().len() == headers
        }
        _ => false,
    }
}

fn has_code(alloc: Global, bytes: Vec<u8>, code: u16) -> bool {
    match read_answer(alloc, bytes) {
        Ok(reply) => reply.code == code,
        Err(_) => false,
    }
}

fn request(alloc: Global, method: &[u8], body: &[u8]) -> Result<Request, AllocError> {
    Ok(Request {
        method: bytes(alloc, method)?,
        target: bytes(alloc, b"/a")?,
        headers: Items::of(vec![in alloc; header(alloc, b"ProtocolVersion", b"2.0")?]?),
        body: bytes(alloc, body)?,
    })
}

fn reply(alloc: Global, code: u16, body: &[u8]) -> Result<Reply, AllocError> {
    Ok(Reply {
        code,
        headers: Items::of(Vec::new(alloc)),
        body: bytes(alloc, body)?,
    })
}

fn header(alloc: Global, name: &[u8], value: &[u8]) -> Result<Header, AllocError> {
    Ok(Header {
        name: bytes(alloc, name)?,
        value: bytes(alloc, value)?,
    })
}

fn bytes(alloc: Global, bytes: &[u8]) -> Result<Bytes, AllocError> {
    Ok(Bytes::of(Vec::from_slice(alloc, bytes)?))
}
