//! A whole run of the server with its fleet.
ghost use Rattle.std.specs.Prelude.{map, string_bytes};
ghost use Rattle.pull_serving.specs.Serving.{ServiceOf, outside_of};
ghost use Rattle.fleet_view.specs.FleetReplies.{FleetReplies};

use crate::fleet_store::FleetStore;
use dsc_outside::{Disk, Sink};
use pull_outside::{Door, Shelf};
use pull_serving::{ServeStatus, serve_over};
use std::alloc::Global;

/// Serves as many connections as the arguments say, over the store of the disk, as `serve` does, and answers the fleet's two
/// targets too.
pub fn serve_fleet<G: Door, S: Shelf, D: Disk, K: Sink>(
    alloc: Global,
    arguments: &[String],
    door: &mut G,
    shelf: &mut S,
    disk: &mut D,
    output: &mut K,
) -> ServeStatus
    ensures { ServiceOf FleetReplies D.Disk (map string_bytes arguments.now)
        (outside_of G.Door S.Shelf K.Ends door.old shelf.old disk.old output.old)
        (outside_of G.Door S.Shelf K.Ends door.new shelf.new disk.new output.new) result }
{
    serve_over::<FleetStore, G, S, D, K>(alloc, arguments, door, shelf, disk, output)
}
