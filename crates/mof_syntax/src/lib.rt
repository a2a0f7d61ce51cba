//! Management documents as text: the MOF instance syntax of DMTF DSP0004, within one profile of it.
//!
//! A layer above may rely on this: `decode_text` gives exactly the characters that the bytes encode, or the first byte
//! that is none; `tokens` gives each token where it stands, as long as the syntax allows, and where the walk ended;
//! specs/ states the syntax as relations between bytes, characters, tokens and instances, with the limits, the
//! canonical text and every reason to refuse a text.
//!
//! Where a thing is:
//! - how long texts and their parts may be: `src/limits.rt`; the definitions cite these constants, `specs/Limits.antt`
//! - the canonical text: `specs/Canonical.antt`; integers in it, of any size, `specs/Numerals.antt`, and that std
//!   writes these digits of the integers that it has `proofs/Numerals.antt`
//! - how a text is gone over: `src/text.rt`, character by character; what is after a construct `src/scan.rt`, the
//!   tokens `src/walk.rt`
#![tactic(auto)]

mod decoding;
mod encoding;
mod lead;
mod limits;
mod mof_error;
pub mod scan;
pub mod text;
mod text_error;
mod token;
mod tokenize;
mod walk;

pub use decoding::decode_text;
pub use limits::{MAX_DOCUMENT, MAX_ELEMENTS, MAX_INSTANCES, MAX_PROPERTIES};
pub use mof_error::{Form, MofError};
pub use text_error::TextError;
pub use token::{Token, TokenKind};
pub use tokenize::tokens;
pub use walk::{Tokens, separators_rest};
