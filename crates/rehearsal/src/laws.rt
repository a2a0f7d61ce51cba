//! Laws of the definitions. The calls do nothing but call laws; their clauses are the laws.
ghost use Rattle.rehearsal.specs.Chain.{EndsCross, PlaysAreStarts, StopsCross};
ghost use Rattle.rehearsal.specs.Heard.{PlaysHearTheTable};
ghost use Rattle.rehearsal.specs.Laws.{OnlyStopsStop, PlaysInParts, RowsTellNodes, ShelvesAreOfLines};
ghost use Rattle.rehearsal.specs.OneReading.{FailuresAreOne, NeverBoth, StepsAreOne};

use crate::starter::Starter;
use memory_outside::ReliableDisk;
use node_store::images_have_one_meaning;
use pull_outside::ReliableShelf;
use pull_serving::links_are_heard;

/// A script is read to one list of steps at most, or fails at one line at most, and never both.
pub fn one_reading()
    ensures steps { StepsAreOne }
    ensures line { FailuresAreOne }
    ensures never { NeverBoth }
{}

/// Each step begins in what the one before it left, and the shelf that a start sees is made of the lines above it alone.
pub fn steps_follow<S: Starter>()
    ensures parts { PlaysInParts S.Starter }
    ensures shelf { ShelvesAreOfLines S.Starter }
{}

/// Only a start with a stop is said to be stopped, and a row tells of the one node that the next start finds.
pub fn rows_are_true<S: Starter>()
    ensures stops { OnlyStopsStop S.Starter }
    ensures nodes { RowsTellNodes S.Starter }
{
    images_have_one_meaning();
}

/// The next start opens what a start leaves on its disk: it begins with one image, and that is one of those that a crash at the end of the
/// start before it may leave, wherever this was stopped.
pub fn images_cross<S: Starter>()
    ensures ends { EndsCross S.Starter }
    ensures stops { StopsCross S.Starter }
{}

/// The text of a play is the lines of a chain of starts, one for each line of the script that is a start, from a new node on, and each node
/// of the chain is sound.
pub fn plays_are_starts<S: Starter>()
    ensures { PlaysAreStarts S.Starter }
{
    images_have_one_meaning();
}

/// What a start of a play hears are the replies of the server's table to what it sent, each over the rows that the exchange before it left, from
/// none on, and over the shelf that the lines above the start made; and nothing failed at the server.
pub fn plays_hear_the_table<S: Starter>()
    ensures { PlaysHearTheTable S.Starter }
{
    links_are_heard::<ReliableDisk, ReliableShelf>();
}
