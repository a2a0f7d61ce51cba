//! Values that pulls are made with.
ghost use Rattle.std.specs.Prelude.{IfOk};
ghost use Rattle.meta_config.specs.Parts.{IsMeta};

use memory_outside::MemoryLink;
use meta_config::{Meta, read_meta};
use mof_values::{Bytes, Memory, Text};
use partial_merge::{Part, part_of};
use shared_key::{checksum_text, digest};
use std::alloc::{AllocError, Global};

pub const AGENT: u128 = 0x00112233_4455_6677_8899_aabb_ccdd_eeff;

/// A name, and a text.
pub type Held = (&'static str, &'static str);

/// What a server answers.
#[derive(Clone, Copy)]
pub enum Answer {
    /// A query, with this body.
    Told(&'static str),

    /// A content or a package, announced with its digest.
    Given(&'static str),

    /// This code.
    Code(u16),
}

pub fn text(alloc: Global, text: &str) -> Result<Text, AllocError> {
    Ok(Text::of(text.chars().collect(alloc)?))
}

/// The meta-configuration of a text, where it has one.
pub fn meta(alloc: Global, text: &str) -> Result<Meta, Memory>
    ensures { IfOk result IsMeta }
{
    match read_meta(alloc, text.as_bytes()) {
        Ok(meta) => Ok(meta),
        Err(_) => Err(Memory),
    }
}

pub fn parts(alloc: Global, held: &[Held]) -> Result<Vec<Part>, AllocError> {
    let mut parts = Vec::new(alloc);
    for (name, content) in held {
        parts.push(part(alloc, name, content)?)?;
    }
    Ok(parts)
}

pub fn part(alloc: Global, name: &str, content: &str) -> Result<Part, AllocError> {
    let bytes = content.as_bytes().to_vec(alloc)?;
    part_of(alloc, text(alloc, name)?, Bytes::of(bytes))
}

/// A link with these answers, whose calls of these numbers fail.
pub fn link(alloc: Global, answers: &[Answer], failing: &[u64]) -> Result<MemoryLink, AllocError> {
    let failing = failing.to_vec(alloc)?;
    Ok(MemoryLink::new(all_bytes(alloc, answers)?, failing))
}

fn all_bytes(alloc: Global, answers: &[Answer]) -> Result<Vec<Bytes>, AllocError> {
    let mut all = Vec::new(alloc);
    for answer in answers {
        all.push(Bytes::of(answer_text(alloc, *answer)?.into_bytes()))?;
    }
    Ok(all)
}

fn answer_text(alloc: Global, answer: Answer) -> Result<String, AllocError> {
    match answer {
        Answer::Told(body) => format!(in alloc; "HTTP/1.1 200 OK\r\n\r\n{body}"),
        Answer::Given(body) => given(alloc, body),
        Answer::Code(code) => format!(in alloc; "HTTP/1.1 {code} No\r\nContent-Length: 0\r\n\r\n"),
    }
}

fn given(alloc: Global, body: &str) -> Result<String, AllocError> {
    let announced = Text::from_latin1(alloc, &checksum_text(&digest(body.as_bytes())))?.to_utf8()?;
    format!(in alloc; "HTTP/1.1 200 OK\r\nChecksum: {announced}\r\n\r\n{body}")
}
