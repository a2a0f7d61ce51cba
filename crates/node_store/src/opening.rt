//! The store of a disk is opened.
ghost use Rattle.std.specs.Prelude.{◌≡◌, ◌≤◌, ◌++◌, false, true, IfErr, IfOk, IfSome, OnOk};
ghost use Rattle.node_state.specs.Lists.{IsStaged};
ghost use Rattle.node_state.specs.Sound.{Sound};
ghost use Rattle.node_store.specs.Digests.{Blobs as BlobsTerm, texts_in, texts_of_node};
ghost use Rattle.node_store.specs.Growing.{AllAmong};
ghost use Rattle.gate_log.specs.Standing.{AllStand, Any, ReadsAs, StandsAtAnyMoment, StoodFor};
ghost use Rattle.node_store.specs.Stands.{Stands};
ghost use Rattle.node_store.specs.Store.{IsKept, Unopened};

use crate::bank::Bank;
use crate::blobs::Blobs;
use crate::error::StoreError;
use crate::kept_node::NODE_SHAPE;
use crate::replaying::Replaying;
use crate::store::NodeStore;
use dsc_outside::Disk;
use gate_log::{LogError, replay_log};
use mof_values::Memory;
use node_state::{Node, SharedParts};
use std::alloc::Global;

/// Opens the store of a disk; a file of at most nine bytes becomes a new store, of a node that nothing has happened to.
///
/// After `Ok` the store is of the disk, with the node that the disk read as before the call, and no memory is reserved. A crash at
/// any moment of the call leaves a node that a crash before it would have left.
///
/// # Errors
///
/// `Disk` where the disk failed; `NotAStore` with the first byte at which the file is no store of a node, and then the disk is as it was; `Memory`.
pub fn open_store<D: Disk>(alloc: Global, disk: &mut D) -> Result<NodeStore, StoreError>
    ensures kept { IfOk result (λ store. IsKept D.Disk disk.new store) }
    ensures found { IfOk result (λ store. ReadsAs D.Disk disk.old Stands store.node) }
    ensures reserved { IfOk result (λ store. store.reserved ≡ false) }
    ensures any_moment { AllStand D.Disk disk.old Stands Any
        → StandsAtAnyMoment D.Disk disk.old disk.new Stands (StoodFor D.Disk disk.old Stands) }
    ensures cause { IfErr result (Unopened D.Disk disk.old disk.new) }
    ensures count { D.faults disk.old ≤ D.faults disk.new }
{
    let mut replaying = Replaying::new(alloc);
    match replay_log(alloc, disk, NODE_SHAPE, &mut replaying) {
        Ok(log) => {
            let (node, texts, by_digests) = replaying.into_node();
            let texts = all_of(texts, &node, by_digests)?;
            let bank = Bank::of(alloc, log, texts, by_digests)?;
            Ok(NodeStore::of(alloc, bank, node)?)
        }
        Err(LogError::Disk) => Err(StoreError::Disk),
        Err(LogError::NotAStore { at }) => Err(StoreError::NotAStore { at }),
        Err(LogError::Memory) => Err(StoreError::Memory),
    }
}

// The texts of the node's parts, with those that are there. The Blobs of a bank of format 2 have them all.
fn all_of(mut texts: Blobs, node: &Node, by_digests: bool) -> Result<Blobs, Memory>
    requires sound { Sound node.now }
    requires there { by_digests ≡ true → AllAmong texts (texts_of_node node.now) }
    ensures { IfOk result (λ all. AllAmong all (texts_of_node node.now) × (by_digests ≡ true → all ≡ texts)) }
{
    if by_digests {
        return Ok(texts);
    }
    hold_slot(&mut texts, &node.pending)?;
    hold_slot(&mut texts, &node.current)?;
    hold_slot(&mut texts, &node.previous)?;
    Ok(texts)
}

// Keeps the texts of the parts of a stage.
fn hold_slot(texts: &mut Blobs, slot: &Option<SharedParts>) -> Result<(), Memory>
    requires staged { IfSome slot.now IsStaged }
    ensures { OnOk result (AllAmong texts.new (texts_in slot.now) × ((more : BlobsTerm) × (texts.new ≡ texts.old ++ more))) }
{
    match slot {
        Some(parts) => {
            texts.hold(parts.as_slice())?;
            Ok(())
        }
        None => Ok(()),
    }
}
