//! The text of a stage of the store that a disk holds.
ghost use Rattle.std.specs.Prelude.{◌≡◌, IfErr, IfOk, IfSome, OnOk};
ghost use Rattle.dsc_outside.specs.Disk.{Still};
ghost use Rattle.staged_text.specs.Endings.{IsShown, IsUnread, IsUnshown};
ghost use Rattle.staged_text.specs.Texts.{Shows, ShowsNothing, unopened};
ghost use Rattle.dsc_outside.specs.Causes.{HasCause};
ghost use Rattle.dsc_terms.specs.Counts.{Rose};

use crate::ending::Unshown;
use crate::parts::text_at;
use dsc_outside::{Disk, Failed};
use memory_outside::ReliableDisk;
use mof_values::Memory;
use node_state::Stage;
use node_store::{StoreError, images_have_one_meaning, open_store};
use std::alloc::Global;

/// The text of a stage of the store that the disk holds; the disk is read alone.
pub fn text_on<D: Disk>(alloc: Global, disk: &mut D, stage: Stage) -> Result<Vec<u8>, Unshown>
    ensures still { Still D.shown D.images D.moment D.left_since disk.old disk.new }
    ensures shown { IfOk result (λ text. IsShown D.Disk stage disk.old text.items) }
    ensures cause { IfErr result (IsUnshown D.Disk stage disk.old disk.new) }
{
    let image = image_of(alloc, disk)?;
    text_in(alloc, image, stage)
}

// All that the disk holds.
fn image_of<D: Disk>(alloc: Global, disk: &mut D) -> Result<Vec<u8>, Unshown>
    ensures still { Still D.shown D.images D.moment D.left_since disk.old disk.new }
    ensures whole { IfOk result (λ image. IfSome (D.shown disk.old) (λ held. image.items ≡ held)) }
    ensures cause { IfErr result (λ why. IsUnread (Rose (D.faults disk.old) (D.faults disk.new)) why) }
{
    let length = match disk.length() {
        Ok(length) => length,
        Err(Failed) => return Err(Unshown::DiskFault),
    };
    let mut image = Vec::new(alloc);
    image.resize(length as usize, 0)?;
    match disk.read_at(0, &mut image) {
        Ok(count) => {
            image.truncate(count);
            Ok(image)
        }
        Err(Failed) => Err(Unshown::DiskFault),
    }
}

// The text of a stage of the store that these bytes are. They are opened in a copy, since an opening may write.
fn text_in(alloc: Global, image: Vec<u8>, stage: Stage) -> Result<Vec<u8>, Unshown>
    ensures shown { IfOk result (λ text. Shows stage image.items text.items) }
    ensures cause { IfErr result (ShowsNothing stage image.items) }
{
    images_have_one_meaning();
    let mut disk = ReliableDisk::new(image)?;
    let opened = open_store(alloc, &mut disk);
    lasted(&disk)?;
    match opened {
        Ok(store) => text_at(alloc, store.state(), stage),
        Err(error) => Err(unopened(error)),
    }
}

// Out of memory, where a call of the disk was.
fn lasted(disk: &ReliableDisk) -> Result<(), Memory>
    ensures { OnOk result (disk.now.count.faults ≡ 0) }
{
    if disk.short() { Err(Memory) } else { Ok(()) }
}

// Why a store that does not open has no text; an opening answers `NotAStore`, `Memory` and `Disk` alone.
fn unopened(error: StoreError) -> Unshown
    ensures { result ≡ unopened error }
{
    match error {
        StoreError::NotAStore { at } => Unshown::NotAStore { at },
        StoreError::Memory => Unshown::Memory,
        StoreError::Disk | StoreError::Spent | StoreError::NotAllowed(_) => Unshown::DiskFault,
    }
}
