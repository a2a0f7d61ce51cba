//! Heads of requests, walked over once, byte by byte, and read by the crate `httparse` once they are whole.
ghost use Rattle.std.specs.Prelude.{◌≡◌, ◌≤◌, ◌∷◌, ℕ, List, true, false, length, take, drop};
ghost use Rattle.http_frames.specs.HeadPlaces.{next_place, is_whole, ends_target};
ghost use Rattle.http_frames.specs.Heads.{IsNoRequest};
ghost use Rattle.http_frames.specs.HeadWalks.{IsWalkedHead, HeadWalked, HeadStepped, CanGoOn, GoesOn, IsHeadRead};

use crate::FrameError;
use crate::head::{RequestHead, front_of, read_request, request_head};
use crate::head_places::{Place, ends_target, is_whole, next_place};
use crate::limits::{HEAD_BYTES, HEADER_LINES};
use httparse::spans::EMPTY_HEADER_SPAN;
use std::alloc::Global;

/// How far a head was walked over.
#[derive(Clone, Copy, Debug)]
pub(crate) struct HeadWalk {
    pub place: Place,

    /// The bytes so far.
    pub length: usize,
}

/// What was read of a head.
#[derive(Drop)]
pub(crate) enum HeadRead {
    /// More bytes are wanted.
    More(HeadWalk),
    Whole(RequestHead),
}

impl HeadWalk {
    /// At the front of a head.
    pub fn new() -> HeadWalk
        ensures { (bytes : List ℕ) → IsWalkedHead bytes result }
    {
        HeadWalk {
            place: Place::Front,
            length: 0,
        }
    }
}

/// Reads the head at the front of the bytes, of which those of the walk were walked over before.
pub(crate) fn read_head(alloc: Global, walk: HeadWalk, bytes: &[u8]) -> Result<HeadRead, FrameError>
    requires { IsWalkedHead bytes.now walk }
    ensures { IsHeadRead bytes.now result }
{
    match walk_over(walk, front_of(bytes)) {
        Some(reached) => head_at(alloc, reached, bytes),
        None => Err(FrameError::Head),
    }
}

// What the place says that the walk reached.
fn head_at(alloc: Global, walk: HeadWalk, bytes: &[u8]) -> Result<HeadRead, FrameError>
    requires walked { IsWalkedHead bytes.now walk }
    requires all { is_whole walk.place ≡ false → walk.length ≡ length (take HEAD_BYTES bytes.now) }
    ensures { IsHeadRead bytes.now result }
{
    if is_whole(walk.place) {
        return whole_head(alloc, walk, bytes);
    }
    if bytes.len() >= HEAD_BYTES {
        return Err(FrameError::HeadTooLong);
    }
    Ok(HeadRead::More(walk))
}

fn whole_head(alloc: Global, walk: HeadWalk, bytes: &[u8]) -> Result<HeadRead, FrameError>
    requires { IsWalkedHead bytes.now walk }
    ensures { IsHeadRead bytes.now result }
{
    Ok(match request_head(alloc, bytes)? {
        Some(head) => HeadRead::Whole(head),
        None => HeadRead::More(walk),
    })
}

// Up to the end of the head or of the bytes, or to the first byte with which no continuation is a head.
fn walk_over(walk: HeadWalk, front: &[u8]) -> Option<HeadWalk>
    requires walked { IsWalkedHead front.now walk }
    requires few { length front.now ≤ HEAD_BYTES }
    ensures { HeadWalked front.now result }
{
    let mut walk = walk;
    let mut left = front.split_at(walk.length).1;
    while let [byte, rest @ ..] = left {
        if is_whole(walk.place) {
            return Some(walk);
        }
        match step(walk, front, *byte) {
            Some(next) => {
                walk = next;
                left = rest;
            }
            None => return None,
        }
    }
    Some(walk)
}

// One byte on.
fn step(walk: HeadWalk, front: &[u8], byte: u8) -> Option<HeadWalk>
    requires walked { IsWalkedHead front.now walk }
    requires few { length front.now ≤ HEAD_BYTES }
    requires is_open { is_whole walk.place ≡ false }
    requires next { (rest : List ℕ) × (drop walk.length front.now ≡ byte ∷ rest) }
    ensures { HeadStepped front.now walk.length result }
{
    match next_place(walk.place, byte) {
        Some(place) => step_to(walk, front, byte, place),
        None => None,
    }
}

// One byte on, to that place.
fn step_to(walk: HeadWalk, front: &[u8], byte: u8, place: Place) -> Option<HeadWalk>
    requires walked { IsWalkedHead front.now walk }
    requires few { length front.now ≤ HEAD_BYTES }
    requires is_open { is_whole walk.place ≡ false }
    requires next { (rest : List ℕ) × (drop walk.length front.now ≡ byte ∷ rest) }
    requires there { next_place walk.place byte ≡ Some place }
    ensures { HeadStepped front.now walk.length result }
{
    let length = walk.length + 1;
    if ends_wrong(place, front.split_at(length).0) {
        return None;
    }
    Some(HeadWalk { place, length })
}

// Whether a target has ended here that no head has. Only here is it tested for UTF-8.
fn ends_wrong(place: Place, front: &[u8]) -> bool
    ensures wrong { result ≡ true → IsNoRequest front.now }
    ensures fine { result ≡ false → ends_target place ≡ true → CanGoOn front.now }
{
    if ends_target(place) {
        return !begins_head(front);
    }
    false
}

// Whether the bytes go on to a head.
fn begins_head(front: &[u8]) -> bool
    ensures { GoesOn front.now result }
{
    let mut spans = [EMPTY_HEADER_SPAN; HEADER_LINES];
    read_request(front, &mut spans).is_ok()
}
