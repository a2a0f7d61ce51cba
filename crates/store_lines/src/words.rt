//! The arguments, and their values.
ghost use Rattle.std.specs.Prelude.{◌≡◌, [], IfOk, IsErrOf, map, string_bytes};
ghost use Rattle.clap.specs.Words.{fault_of, found_of, matches_of, rows_of};
ghost use Rattle.store_lines.specs.Words.{AreValues, IsRefused, fleet_app};

use crate::command::command;
use crate::task::{FleetOptions, Task, task_of};
use crate::values::options_in;
use clap::ArgMatches;
use clap::error::ErrorKind;
use std::alloc::{AllocError, AllocFailed, Global};

/// What the program is asked to do.
#[derive(Drop)]
pub struct FleetWords {
    pub task: Task,
    pub options: FleetOptions,
}

/// Why arguments give no values.
#[derive(Clone, Copy, Debug, PartialEq, Eq)]
pub enum WordsError {
    /// The arguments are not those of the command, a class, a number or an id is none, or the options do not go together.
    Usage,

    /// It ran out of memory.
    Memory,
}

impl From<AllocError> for WordsError {
    ghost use Rattle.std.specs.Prelude.{◌≡◌};
    ghost use Rattle.store_lines.specs.declared.words.WordsError.TheVariants.{Memory as OutOfMemory};

    ghost from_gives = { λ _ e. e ≡ OutOfMemory };

    fn from(_: AllocError) -> Self {
        WordsError::Memory
    }
}

impl<T: Drop> From<AllocFailed<T>> for WordsError {
    ghost use Rattle.std.specs.Prelude.{◌≡◌};
    ghost use Rattle.store_lines.specs.declared.words.WordsError.TheVariants.{Memory as OutOfMemory};

    ghost from_gives = { λ _ e. e ≡ OutOfMemory };

    fn from(_: AllocFailed<T>) -> Self {
        WordsError::Memory
    }
}

/// The values of `STORE..`, with the options `--class NAME` and `--forget AGENT`, which may stand more than once, `--older HOURS`,
/// `--reports`, `--table`, `--prometheus`, `--forget-silent DAYS` and `--forget-never-reported`, in any order.
pub fn fleet_words(alloc: Global, arguments: &[String]) -> Result<FleetWords, WordsError>
    ensures usage { IsErrOf result WordsError.Usage → IsRefused (map string_bytes arguments.now) }
    ensures taken { IfOk result (λ words. AreValues (map string_bytes arguments.now) words) }
{
    let matches = parse(alloc, arguments)?;
    let options = options_in(alloc, &matches)?;
    match task_of(&options) {
        Some(task) => Ok(FleetWords { task, options }),
        None => Err(WordsError::Usage),
    }
}

#[tactic(auto, using(crate::proofs::Simple::is_simple_fleet, crate::proofs::Simple::is_free_fleet))]
fn parse<'a>(alloc: Global, arguments: &'a [String]) -> Result<ArgMatches<'a>, WordsError>
    ensures usage { IsErrOf result WordsError.Usage → (fault_of fleet_app (map string_bytes arguments.now) ≡ [] → ⊥) }
    ensures taken { IfOk result (λ _. fault_of fleet_app (map string_bytes arguments.now) ≡ []) }
    ensures rows { IfOk result (λ matches. rows_of (found_of matches)
        ≡ matches_of fleet_app (map string_bytes arguments.now)) }
{
    let command = command(alloc)?;
    match command.try_get_matches_from(arguments) {
        Ok(matches) => Ok(matches),
        Err(error) => {
            if error.kind() == ErrorKind::OutOfMemory {
                Err(WordsError::Memory)
            } else {
                Err(WordsError::Usage)
            }
        }
    }
}
