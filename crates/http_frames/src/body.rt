//! Bodies of messages (RFC 9112, section 6).
ghost use Rattle.std.specs.Prelude.{◌<◌, ◌^◌, ℕ, IsTrue};
ghost use Rattle.http_frames.specs.Walks.{AreSmall, can_fit, start};
ghost use Rattle.http_frames.specs.Bodies.{HasWalked, IsProgress, body_reading};

use crate::FrameError;
use crate::chunks::{Walk, content, is_done, walk_over};
use crate::framing::Framing;
use crate::limits::Limits;
use std::alloc::Global;

/// How far a body has come.
#[derive(Drop)]
pub(crate) enum Progress {
    /// More bytes are needed; so far was walked over the chunks.
    More(Walk),

    /// The content is that many of the first bytes.
    Front(usize),

    /// The content, out of its chunks.
    Joined(Vec<u8>),
}

/// Reads the body at the front of the bytes, of which those of the walk were walked over before, in a message of
/// which `front` bytes stand before them.
#[tactic(auto, unfolding(crate::specs::Bodies::body_reading))]
pub(crate) fn read_body(
    alloc: Global,
    limits: &Limits,
    front: u64,
    framing: Framing,
    walk: Walk,
    body: &[u8],
) -> Result<Progress, FrameError>
    requires small { AreSmall limits.now }
    requires front { front < 2 ^ 63 }
    requires starts { IsTrue (can_fit limits.now start) }
    requires walked { HasWalked limits.now front body.now walk }
    ensures { IsProgress limits.now front framing body.now result }
{
    match framing {
        Framing::Sized(length) => Ok(read_sized(length, walk, body)),
        Framing::Chunked => read_chunked(alloc, limits, front, walk, body),
        Framing::ToEnd => read_to_end(limits, body),
    }
}

#[tactic(auto, unfolding(crate::specs::Bodies::body_reading))]
fn read_sized(length: u64, walk: Walk, body: &[u8]) -> Progress
    ensures { (limits : Limits) (front : ℕ) → HasWalked limits front body.now walk → IsProgress limits front (Framing.Sized length) body.now (Ok result) }
{
    if (body.len() as u64) < length {
        Progress::More(walk)
    } else {
        Progress::Front(length as usize)
    }
}

#[tactic(auto, unfolding(crate::specs::Bodies::body_reading))]
fn read_chunked(
    alloc: Global,
    limits: &Limits,
    front: u64,
    walk: Walk,
    body: &[u8],
) -> Result<Progress, FrameError>
    requires small { AreSmall limits.now }
    requires front { front < 2 ^ 63 }
    requires starts { IsTrue (can_fit limits.now start) }
    requires walked { HasWalked limits.now front body.now walk }
    ensures { IsProgress limits.now front Framing.Chunked body.now result }
{
    let reached = walk_over(limits, front, walk, body.split_at(walk.length as usize).1)?;
    if is_done(reached.phase) {
        return Ok(Progress::Joined(content(alloc, limits, front, body)?));
    }
    Ok(Progress::More(reached))
}

#[tactic(auto, unfolding(crate::specs::Bodies::body_reading))]
fn read_to_end(limits: &Limits, body: &[u8]) -> Result<Progress, FrameError>
    ensures { (front : ℕ) → IsProgress limits.now front Framing.ToEnd body.now result }
{
    if body.len() as u64 > limits.content {
        return Err(FrameError::BodyTooLong);
    }
    Ok(Progress::Front(body.len()))
}
