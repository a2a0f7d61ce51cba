//! The command line of the pull server.
//!
//! The arguments are four options in any order, each once and with a value: the file of the store, the folder of the
//! shelf, the address to listen at, and how many connections to serve. The command line is read with `clap`; a layer
//! above may rely on it that the values are those of the arguments, and that arguments are refused exactly where the
//! command of `clap` refuses them, which the laws say of whole lists of arguments.
//!
//! Where a thing is:
//! - the command line of the pull server: the command and its values `specs/Words.antt`, `src/command.rt`,
//!   `src/words.rt`, `src/values.rt`; which arguments are taken and which are refused `specs/Laws.antt`, over one
//!   argument of a walk without faults, `proofs/Turns.antt`, and all of them, `proofs/Steps.antt`
#![tactic(auto)]

mod command;
mod laws;
mod values;
mod words;

pub use command::MAX_CONNECTIONS;
pub use laws::{
    a_number_out_of_range_is_refused, eight_words_are_taken, words_that_lack_an_option_are_refused,
};
pub use words::{ServeWords, WordsError, serve_words};
