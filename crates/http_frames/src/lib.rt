//! HTTP messages as bytes, both ways: heads, bodies by length and in chunks (RFC 9112).
//!
//! A layer above may rely on this: a request is read from exactly the bytes that are its frame, however they are cut
//! into pieces; of the same bytes one answer comes, which stays where more bytes follow; and what is written is the
//! frame of what was to be written. A head is the grammar of the crate `httparse`, refused at the first byte with which
//! no continuation is one; inside a target that may wait for its end. What a head says of the body is judged once it is
//! whole. A body in chunks is refused at the first byte with which no continuation is one within the limits.
//!
//! Where a thing is:
//! - which bytes are a request or an answer, and why bytes are none: `specs/Frames.antt`; heads in `specs/Heads.antt`,
//!   bodies in chunks in `specs/Chunks.antt`, the table of framings in `specs/Framing.antt`
//! - where the next byte of a head or of a body in chunks leads: `specs/HeadPlaces.antt`, `src/head_places.rt`;
//!   `specs/Phases.antt`, `src/chunks.rt`
//! - the limits of messages: `specs/Limits.antt`, `src/limits.rt`
//! - which messages read back when they are written, and that bytes have one answer: `specs/Sending.antt`,
//!   `specs/OneAnswer.antt`; that what is written reads back as itself alone: `specs/ReadBack.antt`, `src/laws.rt`
#![tactic(auto)]

mod answer;
mod body;
mod chunks;
mod frame_error;
mod framing;
mod head;
mod head_places;
mod head_walk;
mod headers;
mod laws;
mod limits;
mod message;
mod reader;
mod writing;

pub use answer::read_answer;
pub use frame_error::FrameError;
pub use headers::{count_named, first_named};
pub use laws::{answers_stay, messages_read_back, one_answer};
pub use limits::MAX_MESSAGE_BODY;
pub use message::{Header, Reply, Request};
pub use reader::RequestReader;
pub use writing::{write_answer, write_answer_head, write_request};
