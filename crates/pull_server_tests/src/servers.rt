//! What a server in memory stands on.
use dsc_outside::Package;
use memory_outside::MemoryDisk;
use mof_values::{Bytes, Items, Memory};
use pull_outside::{Configuration, MemoryShelf, ShelfContents};
use std::alloc::{AllocError, Global};

fn bytes(alloc: Global, text: &str) -> Result<Bytes, AllocError> {
    Ok(Bytes::of(text.as_bytes().to_vec(alloc)?))
}

fn configuration(alloc: Global) -> Result<Configuration, AllocError> {
    Ok(Configuration {
        name: bytes(alloc, "Web")?,
        content: bytes(alloc, "abc")?,
    })
}

fn package(alloc: Global) -> Result<Package, AllocError> {
    Ok(Package {
        name: bytes(alloc, "m")?,
        version: bytes(alloc, "1.0")?,
        bytes: bytes(alloc, "PK")?,
    })
}

fn put_keys(alloc: Global, keys: &mut Vec<Bytes>) -> Result<(), AllocError> {
    keys.push(bytes(alloc, "k0")?)?;
    Ok(keys.push(bytes(alloc, "k1")?)?)
}

// What is to stand on a shelf, and the numbers of its calls that are to fail.
#[derive(Drop)]
struct Lists {
    configurations: Vec<Configuration>,
    packages: Vec<Package>,
    keys: Vec<Bytes>,
    numbers: Vec<u64>,
}

impl Lists {
    fn new(alloc: Global) -> Lists {
        Lists {
            configurations: Vec::new(alloc),
            packages: Vec::new(alloc),
            keys: Vec::new(alloc),
            numbers: Vec::new(alloc),
        }
    }

    fn into_shelf(self) -> MemoryShelf {
        let contents = ShelfContents {
            configurations: Items::of(self.configurations),
            packages: Items::of(self.packages),
            keys: Items::of(self.keys),
        };
        MemoryShelf::new(contents, self.numbers)
    }
}

fn fill(alloc: Global, lists: &mut Lists, failing: &[u64]) -> Result<(), AllocError> {
    lists.configurations.push(configuration(alloc)?)?;
    lists.packages.push(package(alloc)?)?;
    put_keys(alloc, &mut lists.keys)?;
    lists.numbers.extend_from_slice(failing)
}

/// A shelf with the content `abc` of the configuration Web, a package of the module m, and the keys k0 and k1. Its calls of these
/// numbers are to fail.
pub fn new_shelf(alloc: Global, failing: &[u64]) -> Result<MemoryShelf, AllocError> {
    let mut lists = Lists::new(alloc);
    fill(alloc, &mut lists, failing)?;
    Ok(lists.into_shelf())
}

/// A disk without bytes, whose calls of these numbers are to fail.
pub fn new_disk(alloc: Global, failing: &[u64]) -> Result<MemoryDisk, Memory> {
    MemoryDisk::new(Vec::new(alloc), failing.to_vec(alloc)?)
}
