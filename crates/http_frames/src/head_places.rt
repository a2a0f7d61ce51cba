//! The places inside a request's head (RFC 9112, sections 2 to 5).
ghost use Rattle.std.specs.Prelude.{◌≡◌, true};
ghost use Rattle.http_frames.specs.HeadPlaces.{when_byte, next_at_end, next_in_version, named, next_place, is_in_lines, is_whole, ends_target};

use crate::limits::HEADER_LINES;
use httparse::{is_header_name_token, is_header_value_token, is_method_token, is_uri_token};

/// A place inside the head of a request.
#[derive(Clone, Copy, Debug, PartialEq, Eq)]
pub(crate) enum Place {
    /// At the front of a line, before the start line.
    Front,

    /// After the CR of an empty line before the start line.
    FrontReturn,

    Method,

    /// In front of the target.
    TargetFront,

    Target,

    /// After that many bytes of `HTTP/1.`.
    Version(usize),

    VersionEnd,

    /// After the CR of the start line.
    StartReturn,

    /// At the front of a line, where that many more header lines may stand.
    Line(usize),

    /// After the CR of the empty line that ends the head.
    LastReturn,

    /// In a header's name; after it that many more lines may stand.
    Name(usize),

    Value(usize),

    /// After the CR of a header line.
    ValueReturn(usize),

    /// After the head.
    Whole,
}

const VERSION: &[u8; 7] = b"HTTP/1.";

/// The place after the byte, or none where it cannot stand here.
#[tactic(auto, unfolding(crate::specs::HeadPlaces::next_place))]
pub(crate) fn next_place(place: Place, byte: u8) -> Option<Place>
    ensures { result ≡ next_place place byte }
{
    match place {
        Place::Front => if is_method_token(byte) {
            Some(Place::Method)
        } else {
            next_at_end(Place::FrontReturn, Place::Front, byte)
        },
        Place::FrontReturn => when_byte(b'\n', byte, Place::Front),
        Place::Method => if is_method_token(byte) {
            Some(Place::Method)
        } else {
            when_byte(b' ', byte, Place::TargetFront)
        },
        Place::TargetFront => if is_uri_token(byte) {
            Some(Place::Target)
        } else {
            None
        },
        Place::Target => if is_uri_token(byte) {
            Some(Place::Target)
        } else {
            when_byte(b' ', byte, Place::Version(0))
        },
        Place::Version(matched) => next_in_version(matched, byte),
        Place::VersionEnd => next_at_end(Place::StartReturn, Place::Line(HEADER_LINES), byte),
        Place::StartReturn => when_byte(b'\n', byte, Place::Line(HEADER_LINES)),
        Place::Line(_)
        | Place::LastReturn
        | Place::Name(_)
        | Place::Value(_)
        | Place::ValueReturn(_)
        | Place::Whole => next_in_lines(place, byte),
    }
}

// The same, after the start line.
#[tactic(auto, unfolding(crate::specs::HeadPlaces::next_place))]
fn next_in_lines(place: Place, byte: u8) -> Option<Place>
    requires { is_in_lines place ≡ true }
    ensures { result ≡ next_place place byte }
{
    match place {
        Place::Line(left) => if is_header_name_token(byte) {
            named(left)
        } else {
            next_at_end(Place::LastReturn, Place::Whole, byte)
        },
        Place::LastReturn => when_byte(b'\n', byte, Place::Whole),
        Place::Name(left) => if is_header_name_token(byte) {
            Some(Place::Name(left))
        } else {
            when_byte(b':', byte, Place::Value(left))
        },
        Place::Value(left) => if is_header_value_token(byte) {
            Some(Place::Value(left))
        } else {
            next_at_end(Place::ValueReturn(left), Place::Line(left), byte)
        },
        Place::ValueReturn(left) => when_byte(b'\n', byte, Place::Line(left)),
        _ => None,
    }
}

// A header line begins, where one more may stand.
fn named(left: usize) -> Option<Place>
    ensures { result ≡ named left }
{
    if left > 0 {
        Some(Place::Name(left - 1))
    } else {
        None
    }
}

// The end of a line, by CR LF or by LF alone.
fn next_at_end(returned: Place, ended: Place, byte: u8) -> Option<Place>
    ensures { result ≡ next_at_end returned ended byte }
{
    if byte == b'\r' {
        Some(returned)
    } else {
        when_byte(b'\n', byte, ended)
    }
}

fn when_byte(wanted: u8, byte: u8, place: Place) -> Option<Place>
    ensures { result ≡ when_byte wanted byte place }
{
    if byte == wanted { Some(place) } else { None }
}

// After that many bytes of `HTTP/1.`, and after all of them 0 or 1.
fn next_in_version(matched: usize, byte: u8) -> Option<Place>
    ensures { result ≡ next_in_version matched byte }
{
    if matched < 7 {
        return when_byte(VERSION[matched], byte, Place::Version(matched + 1));
    }
    if byte == b'0' || byte == b'1' {
        Some(Place::VersionEnd)
    } else {
        None
    }
}

/// Whether the head is at its end.
pub(crate) fn is_whole(place: Place) -> bool
    ensures { result ≡ is_whole place }
{
    matches!(place, Place::Whole)
}

/// Whether the target, and the space after it, are at their end.
pub(crate) fn ends_target(place: Place) -> bool
    ensures { result ≡ ends_target place }
{
    match place {
        Place::Version(matched) => matched == 0,
        _ => false,
    }
}
