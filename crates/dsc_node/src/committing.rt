//! Commits of a start, wherever it began and whatever it did before.
ghost use Rattle.std.specs.Prelude.{◌≡◌, IfErr, IfSome, OnOk};
ghost use Rattle.node_state.specs.Table.{IsWithin};
ghost use Rattle.node_store.specs.Store.{IsKept, TakesMemory};
ghost use Rattle.dsc_node.specs.Path.{CommitGoes, FirstGoes};

use dsc_outside::Disk;
use node_state::Event;
use node_store::{NodeStore, StoreError};

/// Commits the event that was brought, if one was.
pub(crate) fn commit_first<D: Disk>(
    event: Option<Event>,
    store: &mut NodeStore,
    disk: &mut D,
) -> Result<(), StoreError>
    requires kept { IsKept D.Disk disk.old store.old }
    requires within { IfSome event IsWithin }
    ensures kept { OnOk result (IsKept D.Disk disk.new store.new) }
    ensures goes { FirstGoes D.Disk disk.old disk.new store.old event result store.new }
{
    match event {
        Some(event) => commit(store, disk, event),
        None => Ok(()),
    }
}

/// Commits an event.
pub(crate) fn commit<D: Disk>(
    store: &mut NodeStore,
    disk: &mut D,
    event: Event,
) -> Result<(), StoreError>
    requires kept { IsKept D.Disk disk.old store.old }
    requires within { IsWithin event }
    ensures kept { OnOk result (IsKept D.Disk disk.new store.new) }
    ensures goes { CommitGoes D.Disk disk.old disk.new store.old event result store.new }
    ensures memory { IfErr result (λ error. error ≡ StoreError.Memory → TakesMemory
        store.old.reserved event) }
{
    store.commit(disk, event)
}
