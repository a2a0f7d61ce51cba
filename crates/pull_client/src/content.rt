//! The contents in replies, each accepted only under its announced digest.
ghost use Rattle.std.specs.Prelude.{◌≡◌, IfOk, Some};
ghost use Rattle.http_frames.specs.Headers.{is_named};
ghost use Rattle.pull_client.specs.Content.{GivesPart, announced, checked_body, checksum_in, content_of, is_sha256, is_sha256_if_named, under_digest};
ghost use Rattle.pull_client.specs.Heard.{IsAnswered, SaysOr};

use crate::PeerError;
use http_frames::{Header, Reply};
use mof_syntax::MAX_DOCUMENT;
use mof_values::{Bytes, Text};
use partial_merge::{Part, part_of};
use shared_key::{digest, read_checksum};
use std::alloc::Global;

/// The part of that name that a reply is.
pub fn part_in(alloc: Global, name: &Text, reply: Reply) -> Result<Part, PeerError>
    ensures says { SaysOr (GivesPart name.now) reply result }
    ensures named { IfOk result (λ part. part.name ≡ name.now) }
{
    let content = content_of(reply)?;
    Ok(part_of(alloc, name.copy()?, content)?)
}

fn content_of(reply: Reply) -> Result<Bytes, PeerError>
    ensures value { result ≡ content_of reply }
    ensures answered { IsAnswered result }
{
    let body = checked_body(reply)?;
    if body.as_slice().len() > MAX_DOCUMENT {
        return Err(PeerError::TooLong);
    }
    Ok(body)
}

/// The body of a reply, where its digest is that which its headers announce.
pub fn checked_body(reply: Reply) -> Result<Bytes, PeerError>
    ensures value { result ≡ checked_body reply }
    ensures answered { IsAnswered result }
{
    if !is_sha256(reply.headers.as_slice()) {
        return Err(PeerError::NoChecksum);
    }
    match announced(reply.headers.as_slice()) {
        Some(announced) => under_digest(announced, reply.body),
        None => Err(PeerError::NoChecksum),
    }
}

fn under_digest(announced: [u8; 32], body: Bytes) -> Result<Bytes, PeerError>
    ensures value { result ≡ under_digest (Some announced) body }
    ensures answered { IsAnswered result }
{
    let found = digest(body.as_slice());
    if announced == found {
        Ok(body)
    } else {
        Err(PeerError::Mismatch { announced, found })
    }
}

// The digest of the first Checksum header of 64 hexadecimal digits.
fn announced(headers: &[Header]) -> Option<[u8; 32]>
    ensures { result ≡ announced headers.now }
{
    let mut left = headers;
    while let [header, rest @ ..] = left {
        if let Some(digest) = checksum_in(header) {
            return Some(digest);
        }
        left = rest;
    }
    None
}

fn checksum_in(header: &Header) -> Option<[u8; 32]>
    ensures { result ≡ checksum_in header.now }
{
    if is_named(header, b"Checksum") {
        read_checksum(header.value.as_slice())
    } else {
        None
    }
}

fn is_sha256(headers: &[Header]) -> bool
    ensures { result ≡ is_sha256 headers.now }
{
    headers.iter().all(|header| is_sha256_if_named(header))
}

fn is_sha256_if_named(header: &Header) -> bool
    ensures { result ≡ is_sha256_if_named header.now }
{
    !is_named(header, b"ChecksumAlgorithm")
        || header.value.as_slice().eq_ignore_ascii_case(b"SHA-256")
}

fn is_named(header: &Header, name: &[u8]) -> bool
    ensures { result ≡ is_named name.now header.now }
{
    header.name.as_slice().eq_ignore_ascii_case(name)
}
