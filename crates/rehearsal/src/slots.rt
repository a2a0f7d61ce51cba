//! What a node holds, read from its disk.
ghost use Rattle.std.specs.Prelude.{◌≡◌, IfOk, length, option_map};
ghost use Rattle.node_state.specs.declared.node.Node.{Node};
ghost use Rattle.node_store.specs.Stands.{Stands};
ghost use Rattle.node_store.specs.declared.error.StoreError.TheVariants as errors;
ghost use Rattle.rehearsal.specs.Rows.{slots_of};

use crate::lasting::lasted;
use crate::row::Slots;
use memory_outside::ReliableDisk;
use mof_values::Memory;
use node_state::{Node, SharedParts};
use node_store::{StoreError, images_have_one_meaning, open_store};
use std::alloc::Global;

/// The numbers of the parts that the node holds for which this image stands. It is opened in a copy, since an opening may write.
pub fn read_slots(alloc: Global, image: &[u8]) -> Result<Slots, Memory>
    requires { (node : Node) × Stands image.now node }
    ensures { IfOk result (λ slots. (node : Node) × Stands image.now node
        × (slots ≡ slots_of node)) }
{
    images_have_one_meaning();
    let mut disk = ReliableDisk::new(image.to_vec(alloc)?)?;
    let opened = open_store(alloc, &mut disk);
    lasted(&disk)?;
    match opened {
        Ok(store) => Ok(slots_of(store.state())),
        Err(error) => Err(memory_of(error)),
    }
}

fn memory_of(error: StoreError) -> Memory
    requires { error ≡ errors.Memory }
{
    match error {
        StoreError::Memory => Memory,
        StoreError::Spent
        | StoreError::NotAllowed(_)
        | StoreError::Disk
        | StoreError::NotAStore { at: _ } => unreachable!(),
    }
}

fn slots_of(node: &Node) -> Slots
    ensures { result ≡ slots_of node.now }
{
    Slots {
        pending: count_of(&node.pending),
        current: count_of(&node.current),
        previous: count_of(&node.previous),
    }
}

fn count_of(parts: &Option<SharedParts>) -> Option<usize>
    ensures { result ≡ option_map length parts.now }
{
    match parts {
        Some(parts) => Some(parts.as_slice().len()),
        None => None,
    }
}
