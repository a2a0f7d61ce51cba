//! Exchanges, one after the other.
ghost use Rattle.pull_store.specs.Store.{IsReady};

use crate::asking::ask;
use crate::servers::{new_disk, new_shelf};
use dsc_outside::Disk;
use fleet_view::{FleetStore, open_fleet};
use pull_outside::Shelf;
use pull_store::PullError;
use std::alloc::Global;

/// The first of the exchanges that is answered otherwise.
pub fn first_other<D: Disk, S: Shelf>(
    alloc: Global,
    service: &mut FleetStore,
    disk: &mut D,
    shelf: &mut S,
    exchanges: &[(&str, &str, u16, &str)],
) -> Option<usize>
    requires { IsReady D.Disk disk.old service.old.store }
    ensures { IsReady D.Disk disk.new service.new.store }
{
    for (place, (head, body, code, answer)) in exchanges.iter().enumerate() {
        match ask(alloc, service, disk, shelf, head, body) {
            Some(reply) if reply.code == *code && reply.body.as_slice() == answer.as_bytes() => {}
            _ => return Some(place),
        }
    }
    None
}

/// The first of the exchanges that a new server answers otherwise, or the error of its store. The calls of
/// these numbers of the disk fail.
pub fn first_other_of(
    alloc: Global,
    failing: &[u64],
    exchanges: &[(&str, &str, u16, &str)],
) -> Result<Option<usize>, PullError> {
    let mut shelf = new_shelf(alloc)?;
    let mut disk = new_disk(alloc, failing)?;
    let mut service = open_fleet(alloc, &mut disk)?;
    Ok(first_other(alloc, &mut service, &mut disk, &mut shelf, exchanges))
}
