//! Rehearsals: scripts of starts of a node, run in memory with a pull server.
//!
//! `read_script` reads a script to its steps, or answers the first line that is in no form or names an unknown text,
//! the number of the lines where a text does not end, or that memory is out. `play` does the steps one after the other,
//! each start in what the one before it left, with a program that the layer above gives as a `Starter`, and tells of
//! each how it ended and what the node then holds.
//!
//! Where a thing is:
//! - the lines of a script, the form of each, and the steps that they are: `specs/Script.antt`; that it has one
//!   reading: `specs/OneReading.antt`, `src/laws.rt`
//! - its reading: `src/script.rt`, line by line `src/line.rt`, `src/start_line.rt`, `src/text_lines.rt`; a step
//!   `src/step.rt`; words and texts `src/words.rt`, `src/texts.rt`; its limit `src/limits.rt`
//! - what the steps come to: `specs/Playing.antt`, its laws `specs/Laws.antt`, as a chain of starts `specs/Chain.antt`,
//!   `src/laws.rt`; what its starts hear of the server `specs/Heard.antt`; the loop over them `src/playing.rt`, one
//!   start `src/starting.rt` over `src/running.rt`
//! - what a start works with, and the program: `specs/Objects.antt`, `src/starter.rt`
//! - what there is between two starts: `specs/World.antt`, `src/world.rt`, `src/server.rt`
//! - a row and its line: `specs/Rows.antt`, `src/row.rt`; what the node holds `src/slots.rt`; whether memory lasted
//!   `src/lasting.rt`
#![tactic(auto)]

mod lasting;
mod laws;
mod limits;
mod line;
mod lines;
mod playing;
mod row;
mod running;
mod script;
mod server;
mod slots;
mod start_line;
mod starter;
mod starting;
mod step;
mod text_lines;
mod texts;
mod words;
mod world;

pub use laws::{
    images_cross, one_reading, plays_are_starts, plays_hear_the_table, rows_are_true, steps_follow,
};
pub use limits::MAX_SCRIPT;
pub use playing::play;
pub use row::{Ending, Slots, StartRow};
pub use script::{ScriptError, read_script};
pub use starter::Starter;
pub use step::{Step, StopAt, StopPart};
pub use texts::ScriptText;
pub use words::Word;
