//! Connections, one after the other.
ghost use Rattle.std.specs.Prelude.{◌≡◌, ◌≤◌, ◌+◌, IfOk, OnErr};
ghost use Rattle.dsc_terms.specs.Counts.{Rose};
ghost use Rattle.pull_store.specs.Store.{IsKept, IsReady};
ghost use Rattle.pull_serving.specs.Printing.{Printed, output_of};
ghost use Rattle.pull_serving.specs.Turn.{state};
ghost use Rattle.pull_serving.specs.Turns.{IsRun, IsStep, doorway_of};

use crate::answerer::Answerer;
use crate::connection::{ConnectionEnd, serve_connection};
use crate::printing::{line, refuse};
use crate::status::ServeStatus;
use dsc_outside::{Disk, Failed, Sink, write_all};
use pull_outside::{Door, Shelf};
use std::alloc::Global;

/// Serves `count` connections, and prints a line for each.
pub fn serve_turns<A: Answerer, G: Door, S: Shelf, D: Disk, K: Sink>(
    alloc: Global,
    count: u32,
    service: &mut A,
    door: &mut G,
    shelf: &mut S,
    disk: &mut D,
    output: &mut K,
) -> ServeStatus
    requires { IsKept D.Disk disk.old (A.store service.old) }
    ensures run { IsRun A.replies D.Disk disk.old disk.new (S.holds shelf.old)
        (state D.Disk disk.old (A.store service.old) (S.faults shelf.old))
        (state D.Disk disk.new (A.store service.new) (S.faults shelf.new))
        (doorway_of G.Door door.old) (doorway_of G.Door door.new)
        (Printed count (state D.Disk disk.new (A.store service.new) (S.faults shelf.new))
        (G.faults door.old) (G.faults door.new)
        (output_of K.Ends output.old) (output_of K.Ends output.new) result) }
    ensures shelf { S.holds shelf.new ≡ S.holds shelf.old }
{
    for number in 0..count {
        let Ok(end) = serve_next(alloc, service, door, shelf, disk) else {
            return refuse(output, ServeStatus::DoorFault);
        };
        match write_all(output, line(number + 1, end).as_str().as_bytes()) {
            Ok(()) => {}
            Err(Failed) => return ServeStatus::WriteFault,
        }
        if service.is_spent() {
            return refuse(output, ServeStatus::DiskFault);
        }
    }
    ServeStatus::Done
}

// Takes the next connection, serves it, and hands it back with the parting of its end.
fn serve_next<A: Answerer, G: Door, S: Shelf, D: Disk>(
    alloc: Global,
    service: &mut A,
    door: &mut G,
    shelf: &mut S,
    disk: &mut D,
) -> Result<ConnectionEnd, Failed>
    requires { IsKept D.Disk disk.old (A.store service.old) }
    ensures ready { IsReady D.Disk disk.new (A.store service.new) }
    ensures step { IfOk result (IsStep A.replies D.Disk disk.old disk.new (S.holds shelf.old)
        (state D.Disk disk.old (A.store service.old) (S.faults shelf.old))
        (state D.Disk disk.new (A.store service.new) (S.faults shelf.new))
        (doorway_of G.Door door.old) (doorway_of G.Door door.new)) }
    ensures untouched { OnErr result ((service.new ≡ service.old) × (disk.new ≡ disk.old)
        × (shelf.new ≡ shelf.old) × (doorway_of G.Door door.new ≡ doorway_of G.Door door.old)) }
    ensures failed { OnErr result (Rose (G.faults door.old) (G.faults door.new)) }
    ensures shelf { S.holds shelf.new ≡ S.holds shelf.old }
    ensures door_count { G.faults door.old ≤ G.faults door.new }
{
    let mut conn = door.next()?;
    let end = serve_connection(alloc, &mut conn, service, disk, shelf);
    door.close(conn, end.parting());
    Ok(end)
}
