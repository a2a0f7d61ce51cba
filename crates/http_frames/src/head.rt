//! Heads of messages, read by the crate `httparse` (RFC 9112, sections 2 to 5).
ghost use Rattle.std.specs.Prelude.{◌≡◌, ℕ, length, map, take, option_map, All, IfOk, IfErr, IfSome, IfNone};
ghost use Rattle.httparse.specs.Spans.{IsHeaderWithin, IsRequestOf, IsRequestWithin, IsResponseOf, IsResponseWithin};
ghost use Rattle.http_frames.specs.Lines.{is_break, skip_breaks, skip_lines, begins_line, begins_extra_line};
ghost use Rattle.http_frames.specs.Heads.{header_at, IsRequestHeadOf, IsAnswerHeadOf, IsCopyOfRequest, IsCopyOfAnswer, IsNoRequest, IsNoAnswer, IsOpenRequest, IsOpenAnswer, AwaitsRequest, AwaitsAnswer, RefusesRequestHead, RefusesAnswerHead};

use crate::limits::{HEAD_BYTES, HEADER_LINES};
use crate::{FrameError, Header};
use httparse::Status;
use httparse::spans::{
    EMPTY_HEADER_SPAN, HeaderSpan, RequestSpans, ResponseSpans, parse_request, parse_response,
};
use mof_values::{Bytes, Items};
use std::alloc::{AllocError, Global};

/// The head of a request, of `length` bytes.
#[derive(Debug, Drop)]
pub(crate) struct RequestHead {
    pub method: Bytes,
    pub target: Bytes,
    pub headers: Items<Header>,
    pub length: usize,
}

/// The head of an answer, of `length` bytes.
#[derive(Debug, Drop)]
pub(crate) struct AnswerHead {
    pub code: u16,
    pub headers: Items<Header>,
    pub length: usize,
}

/// The head at the front of the bytes, or none where more bytes are wanted.
pub(crate) fn request_head(alloc: Global, bytes: &[u8]) -> Result<Option<RequestHead>, FrameError>
    ensures head { IfOk result (λ read. IfSome read (IsRequestHeadOf bytes.now)) }
    ensures more { IfOk result (λ read. IfNone read (AwaitsRequest bytes.now)) }
    ensures refused { IfErr result (RefusesRequestHead bytes.now) }
{
    let front = front_of(bytes);
    let mut spans = [EMPTY_HEADER_SPAN; HEADER_LINES];
    match read_request(front, &mut spans)? {
        Some(found) => Ok(Some(copy_request(alloc, front, &spans, &found)?)),
        None => {
            if bytes.len() >= HEAD_BYTES {
                return Err(FrameError::HeadTooLong);
            }
            Ok(None)
        }
    }
}

/// The head at the front of the bytes, or none where more bytes are wanted.
pub(crate) fn answer_head(alloc: Global, bytes: &[u8]) -> Result<Option<AnswerHead>, FrameError>
    ensures head { IfOk result (λ read. IfSome read (IsAnswerHeadOf bytes.now)) }
    ensures more { IfOk result (λ read. IfNone read (AwaitsAnswer bytes.now)) }
    ensures refused { IfErr result (RefusesAnswerHead bytes.now) }
{
    let front = front_of(bytes);
    let mut spans = [EMPTY_HEADER_SPAN; HEADER_LINES];
    match read_answer(front, &mut spans)? {
        Some(found) => Ok(Some(copy_answer(alloc, front, &spans, &found)?)),
        None => {
            if bytes.len() >= HEAD_BYTES {
                return Err(FrameError::HeadTooLong);
            }
            Ok(None)
        }
    }
}

/// The bytes in which the head has to end.
pub(crate) fn front_of(bytes: &[u8]) -> &[u8]
    ensures { result.now ≡ take HEAD_BYTES bytes.now }
{
    if bytes.len() < HEAD_BYTES {
        bytes
    } else {
        bytes.split_at(HEAD_BYTES).0
    }
}

// The head of which the bytes are, and where its parts stand.
pub(crate) fn read_request(
    front: &[u8],
    spans: &mut [HeaderSpan],
) -> Result<Option<RequestSpans>, FrameError>
    requires { length spans.old ≡ HEADER_LINES }
    ensures within { IfOk result (λ read. IfSome read (IsRequestWithin front.now spans.new)) }
    ensures head { IfOk result (λ read. IfSome read (IsRequestOf front.now spans.new)) }
    ensures more { IfOk result (λ read. IfNone read (IsOpenRequest front.now)) }
    ensures error { IfErr result (λ e. e ≡ FrameError.Head) }
    ensures never { IfErr result (λ e. IsNoRequest front.now) }
{
    match parse_request(front, spans) {
        Ok(Status::Complete(found)) => Ok(Some(found)),
        Ok(Status::Partial) => {
            if begins_extra_line(front) {
                return Err(FrameError::Head);
            }
            Ok(None)
        }
        Err(_) => Err(FrameError::Head),
    }
}

fn read_answer(front: &[u8], spans: &mut [HeaderSpan]) -> Result<Option<ResponseSpans>, FrameError>
    requires { length spans.old ≡ HEADER_LINES }
    ensures within { IfOk result (λ read. IfSome read (IsResponseWithin front.now spans.new)) }
    ensures head { IfOk result (λ read. IfSome read (IsResponseOf front.now spans.new)) }
    ensures more { IfOk result (λ read. IfNone read (IsOpenAnswer front.now)) }
    ensures error { IfErr result (λ e. e ≡ FrameError.Head) }
    ensures never { IfErr result (λ e. IsNoAnswer front.now) }
{
    match parse_response(front, spans) {
        Ok(Status::Complete(found)) => Ok(Some(found)),
        Ok(Status::Partial) => {
            if begins_extra_line(front) {
                return Err(FrameError::Head);
            }
            Ok(None)
        }
        Err(_) => Err(FrameError::Head),
    }
}

fn copy_request(
    alloc: Global,
    front: &[u8],
    spans: &[HeaderSpan],
    found: &RequestSpans,
) -> Result<RequestHead, AllocError>
    requires { IsRequestWithin front.now spans.now found.now }
    ensures { IfOk result (IsCopyOfRequest front.now spans.now found.now) }
{
    Ok(RequestHead {
        method: Bytes::of(Vec::from_slice(alloc, found.method.of(front))?),
        target: Bytes::of(Vec::from_slice(alloc, found.path.of(front))?),
        headers: Items::of(copy_headers(alloc, front, &spans[..found.headers])?),
        length: found.len,
    })
}

fn copy_answer(
    alloc: Global,
    front: &[u8],
    spans: &[HeaderSpan],
    found: &ResponseSpans,
) -> Result<AnswerHead, AllocError>
    requires { IsResponseWithin front.now spans.now found.now }
    ensures { IfOk result (IsCopyOfAnswer front.now spans.now found.now) }
{
    Ok(AnswerHead {
        code: found.code,
        headers: Items::of(copy_headers(alloc, front, &spans[..found.headers])?),
        length: found.len,
    })
}

fn copy_headers(
    alloc: Global,
    front: &[u8],
    spans: &[HeaderSpan],
) -> Result<Vec<Header>, AllocError>
    requires { All (IsHeaderWithin (length front.now)) spans.now }
    ensures { IfOk result (λ headers. headers.items ≡ map (header_at front.now) spans.now) }
{
    let mut headers = Vec::new(alloc);
    for span in spans {
        headers.push(copy_header(alloc, front, span)?)?;
    }
    Ok(headers)
}

fn copy_header(alloc: Global, front: &[u8], span: &HeaderSpan) -> Result<Header, AllocError>
    requires { IsHeaderWithin (length front.now) span.now }
    ensures { IfOk result (λ header. header ≡ header_at front.now span.now) }
{
    Ok(Header {
        name: Bytes::of(Vec::from_slice(alloc, span.name.of(front))?),
        value: Bytes::of(Vec::from_slice(alloc, span.value.of(front))?),
    })
}

// Whether a header line is begun after the last that a head may have.
#[tactic(auto, unfolding(crate::specs::Lines::begins_extra_line))]
fn begins_extra_line(head: &[u8]) -> bool
    ensures { result ≡ begins_extra_line head.now }
{
    match skip_lines(skip_breaks(head), HEADER_LINES + 1) {
        Some(rest) => begins_line(rest),
        None => false,
    }
}

fn begins_line(bytes: &[u8]) -> bool
    ensures { result ≡ begins_line bytes.now }
{
    match bytes {
        [first, ..] => !is_break(*first),
        [] => false,
    }
}

// The bytes from the first on that ends no line.
#[tactic(auto, unfolding(crate::specs::Lines::skip_breaks))]
fn skip_breaks(bytes: &[u8]) -> &[u8]
    ensures { result.now ≡ skip_breaks bytes.now }
{
    let mut left = bytes;
    while let [byte, rest @ ..] = left {
        if !is_break(*byte) {
            return left;
        }
        left = rest;
    }
    left
}

// The bytes after that many line feeds, or none where there are fewer.
#[tactic(auto, unfolding(crate::specs::Lines::skip_lines))]
fn skip_lines(bytes: &[u8], count: usize) -> Option<&[u8]>
    ensures { option_map (λ rest. rest.now) result ≡ skip_lines count bytes.now }
{
    let (mut left, mut count) = (bytes, count);
    while count > 0 {
        let [byte, rest @ ..] = left else {
            return None;
        };
        if *byte == b'\n' {
            count -= 1;
        }
        left = rest;
    }
    Some(left)
}

fn is_break(byte: u8) -> bool
    ensures { result ≡ is_break byte }
{
    byte == b'\r' || byte == b'\n'
}
