//! The arguments of the pull server, and their values.
ghost use Rattle.std.specs.Prelude.{◌≡◌, ◌≢◌, [], IfOk, IsErrOf, map, string_bytes};
ghost use Rattle.clap.specs.Words.{fault_of, found_of, matches_of, rows_of};
ghost use Rattle.serve_words.specs.Words.{AreValues, serve_app};

use crate::command::command;
use crate::values::{connections_of, text_of};
use clap::ArgMatches;
use clap::error::ErrorKind;
use mof_values::Text;
use std::alloc::{AllocError, Global};

/// What the pull server is asked to do.
#[derive(Debug, Drop)]
pub struct ServeWords {
    /// The file that keeps the agents and their reports.
    pub store: Text,

    /// The folder of configurations, packages and keys.
    pub shelf: Text,

    /// The address to listen at.
    pub listen: Text,

    /// How many connections are served before the program ends, 1 to 1,000,000.
    pub connections: u32,
}

/// Why arguments give no values.
#[derive(Clone, Copy, Debug, PartialEq, Eq)]
pub enum WordsError {
    /// The arguments are not the four options, each once and with a value that it takes.
    Usage,

    /// It ran out of memory.
    Memory,
}

impl From<AllocError> for WordsError {
    ghost use Rattle.std.specs.Prelude.{◌≡◌};
    ghost use Rattle.serve_words.specs.declared.words.WordsError.TheVariants.{Memory as OutOfMemory};

    ghost from_gives = { λ _ e. e ≡ OutOfMemory };

    fn from(_: AllocError) -> Self {
        WordsError::Memory
    }
}

/// The values of `--store FILE --shelf FOLDER --listen ADDRESS --connections N`; a value may stand after `=` too, and the
/// options in any order.
pub fn serve_words(alloc: Global, arguments: &[String]) -> Result<ServeWords, WordsError>
    ensures usage { IsErrOf result WordsError.Usage
        → fault_of serve_app (map string_bytes arguments.now) ≢ [] }
    ensures taken { IfOk result (λ values. AreValues (map string_bytes arguments.now) values) }
{
    let matches = parse(alloc, arguments)?;
    Ok(ServeWords {
        store: text_of(alloc, &matches, "store")?,
        shelf: text_of(alloc, &matches, "shelf")?,
        listen: text_of(alloc, &matches, "listen")?,
        connections: connections_of(&matches),
    })
}

fn parse<'a>(alloc: Global, arguments: &'a [String]) -> Result<ArgMatches<'a>, WordsError>
    ensures usage { IsErrOf result WordsError.Usage
        → fault_of serve_app (map string_bytes arguments.now) ≢ [] }
    ensures taken { IfOk result (λ _. fault_of serve_app (map string_bytes arguments.now) ≡ []) }
    ensures rows { IfOk result (λ matches. rows_of (found_of matches)
        ≡ matches_of serve_app (map string_bytes arguments.now)) }
{
    let command = command(alloc)?;
    match command.try_get_matches_from(arguments) {
        Ok(matches) => Ok(matches),
        Err(error) => {
            if error.kind() == ErrorKind::OutOfMemory {
                Err(WordsError::Memory)
            } else {
                Err(WordsError::Usage)
            }
        }
    }
}
