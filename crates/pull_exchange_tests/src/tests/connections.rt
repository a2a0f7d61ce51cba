ghost use Rattle.std.specs.Prelude.{◌<◌};

use http_frames::{FrameError, Reply, Request};
use mof_values::{Bytes, Items};
use pull_exchange::{Received, SendEnd, receive, refusal, send_reply};
use pull_outside::MemoryConn;
use std::alloc::{AllocError, Global};
use std::rt::HostRuntime;
use std::test::Fail;

const GET: &[u8] =
    b"GET /PSDSCPullServer.svc/Nodes(AgentId='00000000-0000-0000-0000-000000000001')/Configurations(ConfigurationName='Web')/ConfigurationContent HTTP/1.1\r\nHost: s\r\n\r\n";

const POST: &[u8] = b"POST / HTTP/1.1\r\nHost: s\r\n\r\n";

const CHUNKED: &[u8] =
    b"PUT / HTTP/1.1\r\nTransfer-Encoding: chunked\r\n\r\n5\r\nhello\r\n0\r\n\r\nGET";

const WRONG_CHUNK: &[u8] = b"PUT / HTTP/1.1\r\nTransfer-Encoding: chunked\r\n\r\nx";

const GZIP: &[u8] = b"PUT / HTTP/1.1\r\nTransfer-Encoding: gzip\r\n\r\n";

const LONG: &[u8] = b"PUT / HTTP/1.1\r\nContent-Length: 131073\r\n\r\n";

const TWO_LENGTHS: &[u8] = b"PUT / HTTP/1.1\r\nContent-Length: 1\r\nContent-Length: 1\r\n\r\n";

const NO_HEAD: &[u8] = b"GET / HTTP/3.0\r\n\r\n";

const BEGUN: &[u8] = b"GET /PSDSCPullServer.svc/Nodes";

// The bytes of a connection, and what they lead to.
const ROWS: &[(&[u8], &str)] = &[
    (b"", "torn 0"),
    (BEGUN, "torn 30"),
    (GET, "request GET 0"),
    (CHUNKED, "request PUT 5"),
    (POST, "411 "),
    (GZIP, "501 "),
    (LONG, "413 "),
    (TWO_LENGTHS, "400 length"),
    (NO_HEAD, "400 head"),
    (WRONG_CHUNK, "400 chunk 46"),
];

fn push_bytes(line: &mut String, bytes: &[u8]) -> Result<(), AllocError> {
    for byte in bytes {
        line.push(char::from(*byte))?;
    }
    Ok(())
}

fn push_number(line: &mut String, front: &str, number: u64) -> Result<(), AllocError> {
    let text = format!(in *line.allocator(); "{front}{number}")?;
    line.push_str(text.as_str())
}

fn push_reply(line: &mut String, reply: &Reply) -> Result<(), AllocError> {
    push_number(line, "", u64::from(reply.code))?;
    line.push(' ')?;
    push_bytes(line, reply.body.as_slice())
}

fn push_refused(line: &mut String, error: &FrameError) -> Result<(), AllocError> {
    match error {
        FrameError::Torn { .. } | FrameError::Memory => line.push_str("no refusal"),
        _ => match refusal(*line.allocator(), error) {
            Ok(reply) => push_reply(line, &reply),
            Err(_) => Err(AllocError),
        },
    }
}

fn push_request(line: &mut String, request: &Request) -> Result<(), AllocError> {
    line.push_str("request ")?;
    push_bytes(line, request.method.as_slice())?;
    push_number(line, " ", request.body.as_slice().len() as u64)
}

fn push_received(line: &mut String, received: &Received) -> Result<(), AllocError> {
    match received {
        Received::Request(request) => push_request(line, request),
        Received::Refused(error) => push_refused(line, error),
        Received::Torn { at } => push_number(line, "torn ", *at),
        Received::ReadFault => line.push_str("read fault"),
        Received::Memory => Err(AllocError),
    }
}

fn push_given(line: &mut String, bytes: Vec<u8>, most: usize) -> Result<(), AllocError>
    requires { 0 < most }
{
    let alloc = *line.allocator();
    let mut conn = MemoryConn::new(alloc, bytes, most, Vec::new(alloc));
    push_received(line, &receive(alloc, &mut conn))
}

// What a connection of these bytes gives, in pieces of at most that many.
fn shown(alloc: Global, bytes: &[u8], most: usize) -> Result<String, AllocError>
    requires { 0 < most }
{
    let bytes = bytes.to_vec(alloc)?;
    let mut line = String::new(alloc);
    push_given(&mut line, bytes, most)?;
    Ok(line)
}

#[test]
fn bytes_lead_to_the_same_in_any_pieces(rt: HostRuntime) -> Result<(), Fail> {
    for (bytes, wanted) in ROWS {
        for most in 1..20 {
            assert_eq!(rt;
                shown(rt.alloc(), *bytes, most)?.as_str(),
                *wanted,
                "{most}"
            );
        }
        assert_eq!(rt; shown(rt.alloc(), *bytes, 100_000)?.as_str(), *wanted);
    }
    Ok(())
}

const ANSWER: &[u8] =
    b"HTTP/1.1 404 Not Found\r\nConnection: close\r\nProtocolVersion: 2.0\r\nContent-Length: 0\r\n\r\n";

// How many bytes of the answer 404 are written where each call takes at most that many and the call of that number fails.
fn sent(alloc: Global, most: usize, failing: u64) -> Result<(SendEnd, usize), AllocError>
    requires { 0 < most }
{
    let mut numbers = Vec::new(alloc);
    numbers.push(failing)?;
    let mut conn = MemoryConn::new(alloc, Vec::new(alloc), most, numbers);
    let reply = Reply {
        code: 404,
        headers: Items::of(Vec::new(alloc)),
        body: Bytes::of(Vec::new(alloc)),
    };
    let end = send_reply(alloc, &mut conn, &reply);
    let taken = conn.taken();
    if ANSWER.starts_with(taken) {
        return Ok((end, taken.len()));
    }
    Ok((end, 0))
}

#[test]
fn a_connection_that_fails_has_a_front_of_the_answer(rt: HostRuntime) -> Result<(), Fail> {
    assert_eq!(rt; sent(rt.alloc(), 10, 1)?, (SendEnd::WriteFault, 10));
    assert_eq!(rt; sent(rt.alloc(), 10, 0)?, (SendEnd::WriteFault, 0));
    assert_eq!(rt; sent(rt.alloc(), 10, 100)?, (SendEnd::Sent, ANSWER.len()));
    Ok(())
}
