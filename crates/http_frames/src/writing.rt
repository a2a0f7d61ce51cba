//! Messages as they are written (RFC 9112, sections 3 and 4).
ghost use Rattle.std.specs.Prelude.{◌≡◌, ◌∷◌, ◌++◌, [], length, IfOk, OnOk, codes, map, unwrap_or, encode_utf8_all, string_bytes};
ghost use Rattle.std.specs.List.{flat_map};
ghost use Rattle.std.specs.Fmt.{decimal};
ghost use Rattle.http.specs.StatusCode.{IsStatusCode, reason_phrase};
ghost use Rattle.http_frames.specs.Sending.{ReadsBack, ReplyReadsBack};
ghost use Rattle.http_frames.specs.Writing.{crlf, header_line, header_text, length_line, request_length, answer_length, host_value, without_default_port, request_line, status_line, phrase_of, request_text, answer_text};

use crate::framing::needs_length;
use crate::{Header, Reply, Request};
use http::StatusCode;
use mof_values::{Memory, Text};
use std::alloc::Global;

/// The text of a request to a host, which is a name, or a name, `:` and a port. A port 80 is left out.
pub fn write_request(alloc: Global, request: &Request, host: &Text) -> Result<Vec<u8>, Memory>
    ensures text { IfOk result (λ bytes. bytes.items ≡ request_text request.now host.now) }
    ensures reads_back { IfOk result (λ bytes. ReadsBack request.now host.now bytes.items) }
{
    request_bytes(alloc, request, host)
}

#[tactic(auto, unfolding(crate::specs::Writing::request_text))]
fn request_bytes(alloc: Global, request: &Request, host: &Text) -> Result<Vec<u8>, Memory>
    ensures { IfOk result (λ bytes. bytes.items ≡ request_text request.now host.now) }
{
    let name = host.to_utf8()?;
    let mut out = Vec::new(alloc);
    push_request_line(
        &mut out,
        request.method.as_slice(),
        request.target.as_slice(),
    )?;
    push_header(&mut out, b"Host", without_default_port(name.as_bytes()))?;
    push_header(&mut out, b"Connection", b"close")?;
    push_headers(&mut out, request.headers.as_slice())?;
    push_request_length(alloc, &mut out, request)?;
    push_body(&mut out, request.body.as_slice())?;
    Ok(out)
}

/// The text of an answer.
pub fn write_answer(alloc: Global, reply: &Reply) -> Result<Vec<u8>, Memory>
    ensures text { IfOk result (λ bytes. bytes.items ≡ answer_text reply.now) }
    ensures reads_back { IfOk result (λ bytes. ReplyReadsBack reply.now bytes.items) }
{
    answer_bytes(alloc, reply)
}

fn answer_bytes(alloc: Global, reply: &Reply) -> Result<Vec<u8>, Memory>
    ensures { IfOk result (λ bytes. bytes.items ≡ answer_text reply.now) }
{
    let mut out = write_answer_head(alloc, reply)?;
    out.extend_from_slice(reply.body.as_slice())?;
    Ok(out)
}

/// The text of an answer up to its body, for whoever writes a long body from where it lies.
#[tactic(auto, unfolding(crate::specs::Writing::answer_text))]
pub fn write_answer_head(alloc: Global, reply: &Reply) -> Result<Vec<u8>, Memory>
    ensures { IfOk result (λ bytes. bytes.items ++ reply.now.body ≡ answer_text reply.now) }
{
    let mut out = Vec::new(alloc);
    push_status_line(alloc, &mut out, reply.code)?;
    push_header(&mut out, b"Connection", b"close")?;
    push_header(&mut out, b"ProtocolVersion", b"2.0")?;
    push_headers(&mut out, reply.headers.as_slice())?;
    push_answer_length(alloc, &mut out, reply)?;
    out.extend_from_slice(b"\r\n")?;
    Ok(out)
}

fn push_request_line(out: &mut Vec<u8>, method: &[u8], target: &[u8]) -> Result<(), Memory>
    ensures { OnOk result (out.new.items ≡ out.old.items ++ request_line method.now target.now) }
{
    out.extend_from_slice(method)?;
    out.extend_from_slice(b" ")?;
    out.extend_from_slice(target)?;
    out.extend_from_slice(b" HTTP/1.1\r\n")?;
    Ok(())
}

fn push_status_line(alloc: Global, out: &mut Vec<u8>, code: u16) -> Result<(), Memory>
    ensures { OnOk result (out.new.items ≡ out.old.items ++ status_line code) }
{
    let number = format!(in alloc; "{code}")?;
    out.extend_from_slice(b"HTTP/1.1 ")?;
    out.extend_from_slice(number.as_bytes())?;
    out.extend_from_slice(b" ")?;
    out.extend_from_slice(phrase(code).as_bytes())?;
    out.extend_from_slice(b"\r\n")?;
    Ok(())
}

fn push_headers(out: &mut Vec<u8>, headers: &[Header]) -> Result<(), Memory>
    ensures { OnOk result (out.new.items ≡ out.old.items ++ flat_map header_text headers.now) }
{
    let mut left = headers;
    while let [header, rest @ ..] = left {
        push_header(out, header.name.as_slice(), header.value.as_slice())?;
        left = rest;
    }
    Ok(())
}

fn push_header(out: &mut Vec<u8>, name: &[u8], value: &[u8]) -> Result<(), Memory>
    ensures { OnOk result (out.new.items ≡ out.old.items ++ header_line name.now value.now) }
{
    out.extend_from_slice(name)?;
    out.extend_from_slice(b": ")?;
    out.extend_from_slice(value)?;
    out.extend_from_slice(b"\r\n")?;
    Ok(())
}

fn push_request_length(alloc: Global, out: &mut Vec<u8>, request: &Request) -> Result<(), Memory>
    ensures { OnOk result (out.new.items ≡ out.old.items ++ request_length request.now) }
{
    if needs_length(request.method.as_slice()) {
        return push_length(alloc, out, request.body.as_slice().len());
    }
    Ok(())
}

fn push_answer_length(alloc: Global, out: &mut Vec<u8>, reply: &Reply) -> Result<(), Memory>
    ensures { OnOk result (out.new.items ≡ out.old.items ++ answer_length reply.now) }
{
    if reply.code == 204 {
        return Ok(());
    }
    push_length(alloc, out, reply.body.as_slice().len())
}

fn push_length(alloc: Global, out: &mut Vec<u8>, length: usize) -> Result<(), Memory>
    ensures { OnOk result (out.new.items ≡ out.old.items ++ length_line length) }
{
    let number = format!(in alloc; "{length}")?;
    push_header(out, b"Content-Length", number.as_bytes())
}

fn push_body(out: &mut Vec<u8>, body: &[u8]) -> Result<(), Memory>
    ensures { OnOk result (out.new.items ≡ out.old.items ++ (crlf ++ body.now)) }
{
    out.extend_from_slice(b"\r\n")?;
    out.extend_from_slice(body)?;
    Ok(())
}

// The phrase for a code, or none.
#[tactic(auto, unfolding(crate::specs::Writing::phrase_of))]
fn phrase(code: u16) -> &'static str
    ensures { result.now ≡ phrase_of code }
{
    if code < 100 || code >= 1000 {
        ""
    } else {
        known_phrase(code)
    }
}

fn known_phrase(code: u16) -> &'static str
    ensures { IsStatusCode code → result.now ≡ unwrap_or (reason_phrase code) [] }
{
    match StatusCode::from_u16(code) {
        Ok(status) => status.canonical_reason().unwrap_or(""),
        Err(_) => "",
    }
}

// A host without the port 80, which is the default.
fn without_default_port(host: &[u8]) -> &[u8]
    ensures { result.now ≡ without_default_port host.now }
{
    match host.strip_suffix(b":80") {
        Some(name) => name,
        None => host,
    }
}
