//! A whole run of the server.
ghost use Rattle.std.specs.Prelude.{map, string_bytes};
ghost use Rattle.pull_serving.specs.Serving.{Service, ServiceOf, outside_of};

use crate::answerer::Answerer;
use crate::printing::refuse;
use crate::status::{ServeStatus, status_of};
use crate::turns::serve_turns;
use dsc_outside::{Disk, Sink};
use pull_outside::{Door, Shelf};
use pull_store::PullStore;
use serve_words::{WordsError, serve_words};
use std::alloc::Global;

/// Serves as many connections as the arguments say, over the store of the disk, and prints a line for each.
///
/// The arguments are `--store FILE --shelf FOLDER --listen ADDRESS --connections N`; the objects are those that they name. Nothing is
/// touched before the arguments are read. A refusal is printed as the last line; out of memory, nothing is
/// printed.
pub fn serve<G: Door, S: Shelf, D: Disk, K: Sink>(
    alloc: Global,
    arguments: &[String],
    door: &mut G,
    shelf: &mut S,
    disk: &mut D,
    output: &mut K,
) -> ServeStatus
    ensures { Service D.Disk (map string_bytes arguments.now)
        (outside_of G.Door S.Shelf K.Ends door.old shelf.old disk.old output.old)
        (outside_of G.Door S.Shelf K.Ends door.new shelf.new disk.new output.new) result }
{
    serve_over::<PullStore, G, S, D, K>(alloc, arguments, door, shelf, disk, output)
}

/// The same over any service, whose store is on the disk.
pub fn serve_over<A: Answerer + Drop, G: Door, S: Shelf, D: Disk, K: Sink>(
    alloc: Global,
    arguments: &[String],
    door: &mut G,
    shelf: &mut S,
    disk: &mut D,
    output: &mut K,
) -> ServeStatus
    ensures { ServiceOf A.replies D.Disk (map string_bytes arguments.now)
        (outside_of G.Door S.Shelf K.Ends door.old shelf.old disk.old output.old)
        (outside_of G.Door S.Shelf K.Ends door.new shelf.new disk.new output.new) result }
{
    let values = match serve_words(alloc, arguments) {
        Ok(values) => values,
        Err(WordsError::Usage) => return refuse(output, ServeStatus::Usage),
        Err(WordsError::Memory) => return ServeStatus::Memory,
    };
    match A::open(alloc, disk) {
        Ok(mut service) => serve_turns(
            alloc,
            values.connections,
            &mut service,
            door,
            shelf,
            disk,
            output,
        ),
        Err(error) => refuse(output, status_of(error)),
    }
}
