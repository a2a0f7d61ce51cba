//! Configuration scripts: the document that a script gives a node.
//!
//! A script is a `Configuration` block of `Node` blocks, which hold resources: of the PowerShell language what has no
//! expression, no variable but `$true`, `$false` and `$null`, and no command.
//!
//! A layer above may rely on this: `compile` gives the canonical text of the document that the blocks naming the node
//! stand for, where the text is a script of known kinds and free names, some block names the node, and what is
//! written merges as one part; else the first of the reasons against it, with its line. By `one_answer` this is the one
//! answer, out of memory aside.
//!
//! Where a thing is:
//! - what a script is: `specs/Tokens.antt` (characters to tokens) and `specs/Scripts.antt` (tokens to blocks); the
//!   order of tokens as code has it `src/place.rt`, `specs/Places.antt`
//! - how it is read in one pass, without a list of its parts: `src/read.rt`, `specs/Reading.antt`
//! - what it stands for: `specs/Denoting.antt`, and the laws `specs/Laws.antt`; how that is written `src/writing.rt`,
//!   the kinds `src/kind.rt`
//! - why a text is refused: `specs/Refused.antt`, `src/checks.rt`; the line of a text that is no script
//!   `src/shape.rt`, `specs/Fronts.antt`
#![tactic(auto)]

mod checks;
mod compiling;
mod error;
mod kind;
mod laws;
mod limits;
mod lines;
mod name;
mod number;
mod part;
mod place;
mod read;
mod shape;
mod token;
mod writing;

pub use compiling::compile;
pub use error::CompileError;
pub use laws::{added_blocks_change_nothing, one_answer, other_blocks_change_nothing};
pub use limits::MAX_SCRIPT;
