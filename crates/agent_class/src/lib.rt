//! What a report of an agent says, and the last one of all: its message, where it is one, and the class that it gives.
//!
//! A layer above may rely on this: the message is what `pull_messages` reads of the bytes that were sent, and the class
//! goes by its Status alone.
//!
//! Where a thing is:
//! - the class of an agent, or of one report: `specs/Classes.antt`, `src/class.rt`; the message of a report:
//!   `specs/LastMessage.antt`, `src/message.rt`, and both by one reading of it
#![tactic(auto)]

mod class;
mod message;

pub use class::{Class, class_of, class_of_row};
pub use message::{class_and_message, class_and_message_in, last_message};
