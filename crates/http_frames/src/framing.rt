//! How a head says where its body ends (RFC 9112, section 6.3).
ghost use Rattle.std.specs.Prelude.{◌≡◌, ◌&&◌, ◌||◌, not, ◌<◌, ◌^◌, IsTrue};
ghost use Rattle.std.specs.List.{list_all};
ghost use Rattle.std.specs.Char.{is_ascii_digit};
ghost use Rattle.std.specs.Str.Parse.{digits_value};
ghost use Rattle.http_frames.specs.Framing.{are_codings_known, are_lengths_sound, is_length, sized_framing, request_framing, answer_framing, needs_length};
ghost use Rattle.http_frames.specs.Headers.{is_same, is_named, has_named, count_named, all_named};

use crate::headers::{count_named, first_named, has_named, is_named, is_same};
use crate::limits::{ANSWER_LIMITS, Limits, REQUEST_LIMITS};
use crate::{FrameError, Header};

/// Where a body ends.
#[derive(Clone, Copy, Debug, PartialEq, Eq)]
pub(crate) enum Framing {
    /// After that many bytes.
    Sized(u64),

    /// With its last chunk and the trailer.
    Chunked,

    /// With the bytes.
    ToEnd,
}

const CONTENT_LENGTH: &[u8] = b"content-length";

const TRANSFER_ENCODING: &[u8] = b"transfer-encoding";

const CONTENT_ENCODING: &[u8] = b"content-encoding";

/// The framing of a request's body, or the first rule that its head breaks.
#[tactic(auto, unfolding(crate::specs::Framing::request_framing, crate::specs::Framing::answer_framing, crate::specs::Framing::are_codings_known, crate::specs::Framing::are_lengths_sound))]
pub(crate) fn request_framing(method: &[u8], headers: &[Header]) -> Result<Framing, FrameError>
    ensures { result ≡ request_framing method.now headers.now }
{
    if !are_codings_known(headers) {
        return Err(FrameError::Coding);
    }
    if !are_lengths_sound(headers) {
        return Err(FrameError::Length);
    }
    if has_named(headers, TRANSFER_ENCODING) {
        return Ok(Framing::Chunked);
    }
    match first_named(headers, CONTENT_LENGTH) {
        Some(header) => sized(&REQUEST_LIMITS, header),
        None => if needs_length(method) {
            Err(FrameError::NoLength)
        } else {
            Ok(Framing::Sized(0))
        },
    }
}

/// The framing of an answer's body, or the first rule that its head breaks.
#[tactic(auto, unfolding(crate::specs::Framing::request_framing, crate::specs::Framing::answer_framing, crate::specs::Framing::are_codings_known, crate::specs::Framing::are_lengths_sound))]
pub(crate) fn answer_framing(code: u16, headers: &[Header]) -> Result<Framing, FrameError>
    ensures { result ≡ answer_framing code headers.now }
{
    if !are_codings_known(headers) {
        return Err(FrameError::Coding);
    }
    if !are_lengths_sound(headers) {
        return Err(FrameError::Length);
    }
    if code == 204 || code == 304 {
        return Ok(Framing::Sized(0));
    }
    if has_named(headers, TRANSFER_ENCODING) {
        return Ok(Framing::Chunked);
    }
    match first_named(headers, CONTENT_LENGTH) {
        Some(header) => sized(&ANSWER_LIMITS, header),
        None => Ok(Framing::ToEnd),
    }
}

// The framing by a Content-Length.
fn sized(limits: &Limits, header: &Header) -> Result<Framing, FrameError>
    requires { IsTrue (is_length header.now.value) }
    ensures { result ≡ sized_framing limits.now.content header.now }
{
    let length = number(header.value.as_slice());
    if length <= limits.content {
        Ok(Framing::Sized(length))
    } else {
        Err(FrameError::BodyTooLong)
    }
}

// Transfer-Encoding is `chunked`, alone and once, and Content-Encoding is `identity`, where they are there.
#[tactic(auto, unfolding(crate::specs::Framing::are_codings_known))]
fn are_codings_known(headers: &[Header]) -> bool
    ensures { result ≡ are_codings_known headers.now }
{
    count_named(headers, TRANSFER_ENCODING) <= 1
        && are_named_same(headers, TRANSFER_ENCODING, b"chunked")
        && are_named_same(headers, CONTENT_ENCODING, b"identity")
}

// At most one of Content-Length and Transfer-Encoding, and a length of 1 to 10 digits.
#[tactic(auto, unfolding(crate::specs::Framing::are_lengths_sound))]
fn are_lengths_sound(headers: &[Header]) -> bool
    ensures { result ≡ are_lengths_sound headers.now }
{
    count_named(headers, CONTENT_LENGTH) <= 1
        && !has_both(headers, CONTENT_LENGTH, TRANSFER_ENCODING)
        && are_lengths(headers)
}

fn has_both(headers: &[Header], one: &[u8], other: &[u8]) -> bool
    ensures { result ≡ (has_named one.now headers.now && has_named other.now headers.now) }
{
    has_named(headers, one) && has_named(headers, other)
}

fn are_named_same(headers: &[Header], name: &[u8], value: &[u8]) -> bool
    ensures { result ≡ all_named name.now (λ v. is_same v value.now) headers.now }
{
    headers.iter().all(|h| is_same_if_named(h, name, value))
}

fn is_same_if_named(header: &Header, name: &[u8], value: &[u8]) -> bool
    ensures { result ≡ (not (is_named name.now header.now) || is_same header.now.value value.now) }
{
    !is_named(header, name) || is_same(header.value.as_slice(), value)
}

fn are_lengths(headers: &[Header]) -> bool
    ensures { result ≡ all_named CONTENT_LENGTH.now is_length headers.now }
{
    headers.iter().all(|h| is_length_if_named(h))
}

fn is_length_if_named(header: &Header) -> bool
    ensures { result ≡ (not (is_named CONTENT_LENGTH.now header.now) || is_length header.now.value) }
{
    !is_named(header, CONTENT_LENGTH) || is_length(header.value.as_slice())
}

// 1 to 10 digits.
fn is_length(value: &[u8]) -> bool
    ensures { result ≡ is_length value.now }
{
    1 <= value.len() && value.len() <= 10 && are_digits(value)
}

fn are_digits(value: &[u8]) -> bool
    ensures { result ≡ list_all is_ascii_digit value.now }
{
    value.iter().all(|b| b.is_ascii_digit())
}

// PUT and POST say how long their body is.
pub(crate) fn needs_length(method: &[u8]) -> bool
    ensures { result ≡ needs_length method.now }
{
    method == b"PUT".as_slice() || method == b"POST".as_slice()
}

// The number that digits write.
fn number(digits: &[u8]) -> u64
    requires digits { IsTrue (list_all is_ascii_digit digits.now) }
    requires small { digits_value 10 digits.now < 2 ^ 60 }
    ensures { result ≡ digits_value 10 digits.now }
{
    let mut number: u64 = 0;
    let mut left = digits;
    while let [digit, rest @ ..] = left {
        number = number * 10 + u64::from(*digit - b'0');
        left = rest;
    }
    number
}
