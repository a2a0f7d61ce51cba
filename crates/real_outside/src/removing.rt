//! Removing a folder with all that is in it.
use crate::held_folder::HeldFolder;
use crate::identity::Identity;
use crate::mounts::Mounts;
use crate::names_below::mount_of;
use crate::spot::Spot;
use crate::tree_walk::{Barred, Task, walk_tree};
use dsc_outside::HostError;
use std::alloc::Global;
use std::fs;
use std::os::fd::AsRawFd;
use std::rt::Files;

/// Removes the folder of that name, which was seen at the spot, with all that is in it. It fails before anything is removed
/// where the node's own folder, a mount or another file system is among it. No link is followed, and the time and the
/// memory grow with what is removed, whatever its depth.
pub fn remove_folder<R: Files>(
    rt: &R,
    alloc: Global,
    above: &HeldFolder,
    name: &str,
    spot: &Spot,
    own: Option<Identity>,
) -> Result<(), HostError> {
    let top = HeldFolder::open(rt, alloc, spot)?;
    let mounts = Mounts::read(rt, alloc)?;
    if mounts.has_at(above.identity(), name) || !top.identity().is_beside(above.identity()) {
        return Err(HostError::Failed);
    }
    let mount = mount_of(rt, alloc, above.descriptor().as_raw_fd())?;
    if mount_of(rt, alloc, top.descriptor().as_raw_fd())? != mount {
        return Err(HostError::Failed);
    }
    let barred = Barred {
        own,
        mounts: &mounts,
        mount: &mount,
        top: top.identity(),
    };
    walk_tree(rt, alloc, top.descriptor().as_raw_fd(), &barred, Task::Look)?;
    walk_tree(
        rt,
        alloc,
        top.descriptor().as_raw_fd(),
        &barred,
        Task::Remove,
    )?;
    fs::remove_dir(rt, spot.place.as_str())?;
    Ok(above.sync(rt)?)
}
