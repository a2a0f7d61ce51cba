//! What a server in memory stands on.
use memory_outside::MemoryDisk;
use mof_values::{Bytes, Items, Memory};
use pull_outside::{MemoryShelf, ShelfContents};
use std::alloc::{AllocError, Global};

fn keys(alloc: Global) -> Result<Vec<Bytes>, AllocError> {
    let mut keys = Vec::new(alloc);
    keys.push(Bytes::of(b"k1".as_slice().to_vec(alloc)?))?;
    Ok(keys)
}

/// A shelf with the key k1 alone.
pub fn new_shelf(alloc: Global) -> Result<MemoryShelf, AllocError> {
    let contents = ShelfContents {
        configurations: Items::of(Vec::new(alloc)),
        packages: Items::of(Vec::new(alloc)),
        keys: Items::of(keys(alloc)?),
    };
    Ok(MemoryShelf::new(contents, Vec::new(alloc)))
}

/// A disk without bytes, whose calls of these numbers are to fail.
pub fn new_disk(alloc: Global, failing: &[u64]) -> Result<MemoryDisk, Memory> {
    MemoryDisk::new(Vec::new(alloc), failing.to_vec(alloc)?)
}
