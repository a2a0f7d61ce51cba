//! Configuration documents as text: reading and writing the instance syntax of DMTF DSP0004, within one profile of it.
//!
//! A layer above may rely on this: `read` gives exactly the instances that the bytes spell, or the refusal that wins,
//! with its place; `Feed` does so of a document that comes in pieces; what `write` gives is the canonical text, and it
//! reads back as the same instances.
//!
//! Where a thing is:
//! - how the values of a text are read: `src/values/`, a file for each rule; its relations in `specs/Reading.antt`,
//!   `specs/Values.antt`
//! - why a text is refused, and where: `src/refusing/`, a file for each kind of refusal and `refusal.rt` for the one
//!   that wins; what they look for in `specs/Searching.antt`
//! - which characters may come next in a text: `src/machine/`, one step a character; the same in `specs/Machine.antt`.
//!   That it takes exactly the fronts of texts: `proofs/Forward.antt` (the grammar's texts are stepped over),
//!   `proofs/StepsBack.antt` (what is stepped over is in the grammar), `proofs/Fronts.antt`
//! - how instances are written, and that they read back: `src/writer/`; `proofs/CanonicalTokens.antt` (what is written
//!   of a name, a text or an integer is one token), `proofs/CanonicalRules.antt` (the tokens are a text of the
//!   grammar), `proofs/CanonicalBytes.antt` (so the bytes are read)
#![tactic(auto)]

mod feed;
mod machine;
mod reader;
mod refusing;
mod values;
mod writer;

pub use feed::{Feed, FeedError};
pub use mof_syntax::{Form, MofError, TextError, Token, TokenKind, Tokens, decode_text, tokens};
pub use reader::read;
pub use writer::{push_literal, push_literal_char, write};
