//! The values of an option in what a parse found.
ghost use Rattle.std.specs.Prelude.{◌≡◌, ℕ, IfOk, Some, encode_utf8_all};
ghost use Rattle.clap.specs.Words.{first_of, found_of, rows_of};
ghost use Rattle.serve_words.specs.Words.{HasCount, HasText};

use clap::ArgMatches;
use mof_values::Text;
use std::alloc::{AllocError, Global};

/// The text of this option.
pub(crate) fn text_of(
    alloc: Global,
    matches: &ArgMatches<'_>,
    name: &str,
) -> Result<Text, AllocError>
    requires given { HasText name.now (rows_of (found_of matches.now)) }
    ensures { IfOk result (λ text. first_of name.now (rows_of (found_of matches.now))
        ≡ Some (encode_utf8_all text)) }
{
    let Some(value) = matches.get_str(name) else {
        unreachable!();
    };
    Text::from_utf8(alloc, value)
}

/// The number of connections.
pub(crate) fn connections_of(matches: &ArgMatches<'_>) -> u32
    requires given { (count : ℕ) × HasCount (rows_of (found_of matches.now)) count }
    ensures { HasCount (rows_of (found_of matches.now)) result }
{
    let Some(count) = matches.get_one::<u32>("connections") else {
        unreachable!();
    };
    count
}
