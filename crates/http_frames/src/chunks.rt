//! Bodies in chunks (RFC 9112, section 7.1), walked over byte by byte.
ghost use Rattle.std.specs.Prelude.{◌≡◌, ◌+◌, ◌*◌, ◌<◌, ◌≤◌, ◌^◌, ℕ, List, [], length, IfOk, IfSome, IsTrue};
ghost use Rattle.std.specs.Char.{digit_value, is_ascii_hexdigit};
ghost use Rattle.http_frames.specs.Phases.{after_size, after_chunk_line, next_in_size, next_in_extension, next_in_trailer, next_phase, is_data, is_done, begun_content, least_after, least_rest};
ghost use Rattle.http_frames.specs.Walks.{AreSmall, can_fit, line_start, stepped, within, step, walk_over, content_over, start};

use crate::FrameError;
use crate::limits::Limits;
use std::alloc::{AllocError, Global};

/// A place inside a body in chunks.
#[derive(Clone, Copy, Debug, PartialEq, Eq)]
pub(crate) enum Phase {
    /// At the front of a chunk line.
    Line,

    /// After that many digits, which write this size.
    Size(u8, u64),

    /// After blanks after the size.
    Pad(u64),

    /// In the chunk extensions, which are not read.
    Extension(u64),

    /// After the CR of a chunk line.
    SizeReturn(u64),

    /// In front of that many bytes of a chunk, one or more.
    Data(u64),

    /// After a chunk.
    DataEnd,

    /// After a chunk and a CR.
    DataReturn,

    /// At the front of a line of the trailer.
    Trailer,

    /// After a CR at the front of a line of the trailer.
    TrailerReturn,

    /// Inside a line of the trailer.
    TrailerText,

    /// After the body.
    Done,
}

/// How far a body in chunks was walked over.
#[derive(Clone, Copy, Debug)]
pub(crate) struct Walk {
    pub phase: Phase,

    /// Where the chunk line, or the line end after a chunk, began.
    pub line: u64,

    /// The bytes so far.
    pub length: u64,

    /// The bytes of content so far.
    pub content: u64,
}

impl Walk {
    /// At the front of a body.
    #[tactic(auto, unfolding(crate::specs::Walks::start))]
    pub fn new() -> Walk
        ensures { result ≡ start }
    {
        Walk {
            phase: Phase::Line,
            line: 0,
            length: 0,
            content: 0,
        }
    }

    /// One byte on, in a message of which `front` bytes stand before the body.
    #[tactic(auto, unfolding(crate::specs::Walks::can_fit, crate::specs::Walks::stepped, crate::specs::Phases::begun_content, crate::specs::Phases::least_rest))]
    pub fn step(self, limits: &Limits, front: u64, byte: u8) -> Result<Walk, FrameError>
        requires small { AreSmall limits.now }
        requires fits { IsTrue (can_fit limits.now self) }
        requires front { front < 2 ^ 63 }
        requires line { self.line ≤ self.length }
        ensures value { result ≡ step limits.now front self byte }
        ensures fits { IfOk result (λ walk. IsTrue (can_fit limits.now walk)) }
        ensures line { IfOk result (λ walk. walk.line ≤ walk.length) }
    {
        match next_phase(self.phase, byte) {
            Some(phase) => self.to(phase).within(limits),
            None => Err(FrameError::Chunk {
                at: front + self.line,
            }),
        }
    }

    // One byte on, to that phase.
    #[tactic(auto, unfolding(crate::specs::Walks::can_fit, crate::specs::Walks::stepped, crate::specs::Phases::begun_content, crate::specs::Phases::least_rest))]
    fn to(self, phase: Phase) -> Walk
        requires { self.length + self.content < 2 ^ 63 }
        ensures { result ≡ stepped self phase }
    {
        let length = self.length + 1;
        Walk {
            phase,
            line: line_start(phase, length, self.line),
            length,
            content: self.content + u64::from(is_data(self.phase)),
        }
    }

    #[tactic(auto, unfolding(crate::specs::Walks::can_fit, crate::specs::Walks::stepped, crate::specs::Phases::begun_content, crate::specs::Phases::least_rest))]
    fn within(self, limits: &Limits) -> Result<Walk, FrameError>
        requires { self.length + self.content + begun_content self.phase < 2 ^ 62 }
        ensures value { result ≡ within limits.now self }
        ensures fits { IfOk result (λ walk. IsTrue (can_fit limits.now walk)) }
    {
        if self.can_fit(limits) {
            Ok(self)
        } else {
            Err(FrameError::BodyTooLong)
        }
    }

    // Whether some rest leaves the content and the whole body within the limits.
    #[tactic(auto, unfolding(crate::specs::Walks::can_fit, crate::specs::Walks::stepped, crate::specs::Phases::begun_content, crate::specs::Phases::least_rest))]
    fn can_fit(&self, limits: &Limits) -> bool
        requires { self.now.length + self.now.content + begun_content self.now.phase < 2 ^ 62 }
        ensures { result ≡ can_fit limits.now self.now }
    {
        self.content + begun_content(self.phase) <= limits.content
            && self.length + least_rest(self.phase) <= limits.chunked
    }
}

/// The walk over the bytes, up to the end of the body or to the first fault.
#[tactic(auto, unfolding(crate::specs::Walks::walk_over))]
pub(crate) fn walk_over(
    limits: &Limits,
    front: u64,
    walk: Walk,
    bytes: &[u8],
) -> Result<Walk, FrameError>
    requires small { AreSmall limits.now }
    requires fits { IsTrue (can_fit limits.now walk) }
    requires front { front < 2 ^ 63 }
    requires line { walk.line ≤ walk.length }
    ensures value { result ≡ walk_over limits.now front walk bytes.now }
    ensures fits { IfOk result (λ walk. IsTrue (can_fit limits.now walk)) }
    ensures line { IfOk result (λ walk. walk.line ≤ walk.length) }
{
    let mut walk = walk;
    let mut left = bytes;
    while let [byte, rest @ ..] = left {
        if is_done(walk.phase) {
            return Ok(walk);
        }
        walk = walk.step(limits, front, *byte)?;
        left = rest;
    }
    Ok(walk)
}

/// The content of a body in chunks, in a message of which `front` bytes stand before the body.
#[tactic(auto, unfolding(crate::specs::Walks::content_over))]
pub(crate) fn content(
    alloc: Global,
    limits: &Limits,
    front: u64,
    body: &[u8],
) -> Result<Vec<u8>, AllocError>
    requires small { AreSmall limits.now }
    requires fits { IsTrue (can_fit limits.now start) }
    requires front { front < 2 ^ 63 }
    ensures { IfOk result (λ content. content.items ≡ content_over limits.now front start body.now) }
{
    let mut content = Vec::new(alloc);
    let mut walk = Walk::new();
    let mut left = body;
    while let [byte, rest @ ..] = left {
        let Ok(next) = walk.step(limits, front, *byte) else {
            return Ok(content);
        };
        if is_data(walk.phase) {
            content.push(*byte)?;
        }
        (walk, left) = (next, rest);
    }
    Ok(content)
}

// Where the line begins in which a phase stands after that many bytes, if the one before began at `start`.
fn line_start(phase: Phase, length: u64, start: u64) -> u64
    ensures { result ≡ line_start phase length start }
{
    match phase {
        Phase::Line | Phase::DataEnd => length,
        _ => start,
    }
}

#[tactic(auto, unfolding(crate::specs::Phases::next_phase, crate::specs::Phases::begun_content, crate::specs::Phases::least_rest))]
fn next_phase(phase: Phase, byte: u8) -> Option<Phase>
    requires { begun_content phase < 2 ^ 32 }
    ensures value { result ≡ next_phase phase byte }
    ensures small { IfSome result (λ next. begun_content next < 2 ^ 40) }
{
    match phase {
        Phase::Line => first_digit(byte),
        Phase::Size(digits, size) => next_in_size(digits, size, byte),
        Phase::Pad(size) => after_size(size, byte),
        Phase::Extension(size) => next_in_extension(size, byte),
        Phase::SizeReturn(size) => if byte == b'\n' {
            Some(after_chunk_line(size))
        } else {
            None
        },
        Phase::Data(left) => Some(if left == 1 {
            Phase::DataEnd
        } else {
            Phase::Data(left.saturating_sub(1))
        }),
        Phase::DataEnd => if byte == b'\r' {
            Some(Phase::DataReturn)
        } else {
            None
        },
        Phase::DataReturn => if byte == b'\n' {
            Some(Phase::Line)
        } else {
            None
        },
        Phase::Trailer => Some(next_in_trailer(byte)),
        Phase::TrailerReturn => Some(if byte == b'\n' {
            Phase::Done
        } else {
            Phase::TrailerText
        }),
        Phase::TrailerText => Some(if byte == b'\n' {
            Phase::Trailer
        } else {
            Phase::TrailerText
        }),
        Phase::Done => None,
    }
}

#[tactic(auto, unfolding(crate::specs::Phases::next_phase, crate::specs::Phases::begun_content, crate::specs::Phases::least_rest))]
fn first_digit(byte: u8) -> Option<Phase>
    ensures value { result ≡ next_phase Phase.Line byte }
    ensures small { IfSome result (λ next. begun_content next < 2 ^ 40) }
{
    if byte.is_ascii_hexdigit() {
        Some(Phase::Size(1, hex_value(byte)))
    } else {
        None
    }
}

#[tactic(auto, unfolding(crate::specs::Phases::next_phase, crate::specs::Phases::begun_content, crate::specs::Phases::least_rest))]
fn next_in_size(digits: u8, size: u64, byte: u8) -> Option<Phase>
    requires { size < 2 ^ 32 }
    ensures value { result ≡ next_in_size digits size byte }
    ensures small { IfSome result (λ next. begun_content next < 2 ^ 40) }
{
    if !byte.is_ascii_hexdigit() {
        return after_size(size, byte);
    }
    if digits < 16 {
        Some(Phase::Size(digits + 1, size * 16 + hex_value(byte)))
    } else {
        None
    }
}

#[tactic(auto, unfolding(crate::specs::Phases::next_phase, crate::specs::Phases::begun_content, crate::specs::Phases::least_rest))]
fn after_size(size: u64, byte: u8) -> Option<Phase>
    ensures value { result ≡ after_size size byte }
    ensures same { IfSome result (λ next. begun_content next ≡ size) }
{
    match byte {
        b' ' | b'\t' => Some(Phase::Pad(size)),
        b';' => Some(Phase::Extension(size)),
        b'\r' => Some(Phase::SizeReturn(size)),
        _ => None,
    }
}

#[tactic(auto, unfolding(crate::specs::Phases::next_phase, crate::specs::Phases::begun_content, crate::specs::Phases::least_rest))]
fn next_in_extension(size: u64, byte: u8) -> Option<Phase>
    ensures value { result ≡ next_in_extension size byte }
    ensures same { IfSome result (λ next. begun_content next ≡ size) }
{
    match byte {
        b'\r' => Some(Phase::SizeReturn(size)),
        b'\n' => None,
        _ => Some(Phase::Extension(size)),
    }
}

// After the line of a chunk; the one of size 0 is the last.
#[tactic(auto, unfolding(crate::specs::Phases::next_phase, crate::specs::Phases::begun_content, crate::specs::Phases::least_rest))]
fn after_chunk_line(size: u64) -> Phase
    ensures value { result ≡ after_chunk_line size }
    ensures same { begun_content result ≡ size }
{
    if size == 0 {
        Phase::Trailer
    } else {
        Phase::Data(size)
    }
}

#[tactic(auto, unfolding(crate::specs::Phases::next_phase, crate::specs::Phases::begun_content, crate::specs::Phases::least_rest))]
fn next_in_trailer(byte: u8) -> Phase
    ensures value { result ≡ next_in_trailer byte }
    ensures none { begun_content result ≡ 0 }
{
    match byte {
        b'\n' => Phase::Done,
        b'\r' => Phase::TrailerReturn,
        _ => Phase::TrailerText,
    }
}

// The number that a hexdecimal digit writes.
fn hex_value(digit: u8) -> u64
    requires { IsTrue (is_ascii_hexdigit digit) }
    ensures value { result ≡ digit_value digit }
    ensures small { result < 16 }
{
    match digit {
        b'0'..=b'9' => u64::from(digit - b'0'),
        b'A'..=b'F' => u64::from(digit - b'A') + 10,
        _ => u64::from(digit - b'a') + 10,
    }
}

fn is_data(phase: Phase) -> bool
    ensures { result ≡ is_data phase }
{
    matches!(phase, Phase::Data(_))
}

/// Whether the body is at its end.
pub(crate) fn is_done(phase: Phase) -> bool
    ensures { result ≡ is_done phase }
{
    matches!(phase, Phase::Done)
}

// The content that has to come in the chunk that has begun.
#[tactic(auto, unfolding(crate::specs::Phases::next_phase, crate::specs::Phases::begun_content, crate::specs::Phases::least_rest))]
fn begun_content(phase: Phase) -> u64
    ensures { result ≡ begun_content phase }
{
    match phase {
        Phase::Size(_, size)
        | Phase::Pad(size)
        | Phase::Extension(size)
        | Phase::SizeReturn(size) => size,
        Phase::Data(left) => left,
        _ => 0,
    }
}

// The shortest rest after the line of a chunk of that size.
fn least_after(size: u64) -> u64
    requires { size < 2 ^ 63 }
    ensures { result ≡ least_after size }
{
    if size == 0 { 1 } else { size + 6 }
}

// The length of the shortest rest of the body.
#[tactic(auto, unfolding(crate::specs::Phases::next_phase, crate::specs::Phases::begun_content, crate::specs::Phases::least_rest))]
fn least_rest(phase: Phase) -> u64
    requires { begun_content phase < 2 ^ 62 }
    ensures value { result ≡ least_rest phase }
    ensures small { result ≤ begun_content phase + 8 }
{
    match phase {
        Phase::Line => 4,
        Phase::Size(_, size) | Phase::Pad(size) | Phase::Extension(size) => 2 + least_after(size),
        Phase::SizeReturn(size) => 1 + least_after(size),
        Phase::Data(left) => left + 6,
        Phase::DataEnd => 6,
        Phase::DataReturn => 5,
        Phase::Trailer | Phase::TrailerReturn => 1,
        Phase::TrailerText => 2,
        Phase::Done => 0,
    }
}
