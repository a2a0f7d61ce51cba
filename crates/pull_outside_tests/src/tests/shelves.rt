use dsc_outside::Package;
use mof_values::{Bytes, Items};
use pull_outside::{Configuration, MemoryShelf, Shelf, ShelfContents, ShelfError};
use std::alloc::{AllocError, Global};
use std::rt::HostRuntime;

// How many configurations, packages and keys stand on a shelf, and the bytes of each.
fn shelves() -> &'static [(u32, usize)] {
    &[
        (0, 0),
        (1, 0),
        (1, 1),
        (1, 4_096),
        (1, 1_048_576),
        (7, 0),
        (7, 1),
        (7, 4_096),
        (7, 1_048_576),
        (300, 0),
        (300, 1),
        (300, 4_096),
    ]
}

fn name(alloc: Global, number: u32) -> Result<String, AllocError> {
    format!(in alloc; "name {number}")
}

// The byte that fills the items of this number.
fn filling(number: u32) -> u8 {
    number.to_le_bytes()[0]
}

fn filled(alloc: Global, number: u32, size: usize) -> Result<Bytes, AllocError> {
    Ok(Bytes::of(vec![in alloc; filling(number); size]?))
}

fn bytes(text: String) -> Bytes {
    Bytes::of(text.into_bytes())
}

fn configuration(alloc: Global, number: u32, size: usize) -> Result<Configuration, AllocError> {
    Ok(Configuration {
        name: bytes(name(alloc, number)?),
        content: filled(alloc, number, size)?,
    })
}

fn package(alloc: Global, number: u32, size: usize) -> Result<Package, AllocError> {
    let version = Bytes::of(b"1.0".to_vec(alloc)?);
    Ok(Package {
        name: bytes(name(alloc, number)?),
        version,
        bytes: filled(alloc, number, size)?,
    })
}

fn configurations(
    alloc: Global,
    count: u32,
    size: usize,
) -> Result<Vec<Configuration>, AllocError> {
    let mut items = Vec::new(alloc);
    for number in 0..count {
        items.push(configuration(alloc, number, size)?)?;
    }
    Ok(items)
}

fn packages(alloc: Global, count: u32, size: usize) -> Result<Vec<Package>, AllocError> {
    let mut items = Vec::new(alloc);
    for number in 0..count {
        items.push(package(alloc, number, size)?)?;
    }
    Ok(items)
}

fn keys(alloc: Global, count: u32, size: usize) -> Result<Vec<Bytes>, AllocError> {
    let mut items = Vec::new(alloc);
    for number in 0..count {
        items.push(filled(alloc, number, size)?)?;
    }
    Ok(items)
}

fn shelf(alloc: Global, count: u32, size: usize) -> Result<MemoryShelf, AllocError> {
    let contents = ShelfContents {
        configurations: Items::of(configurations(alloc, count, size)?),
        packages: Items::of(packages(alloc, count, size)?),
        keys: Items::of(keys(alloc, count, size)?),
    };
    Ok(MemoryShelf::new(contents, Vec::new(alloc)))
}

// Whether the three items of that number are there, each of that many bytes, or none of them is.
fn is_as_wanted<S: Shelf>(
    alloc: Global,
    shelf: &mut S,
    number: u32,
    there: bool,
    size: usize,
) -> Result<bool, ShelfError> {
    let name = name(alloc, number)?;
    let mut found = Vec::new(alloc);
    let are_told = shelf.configuration(&name, &mut found)? == there
        && shelf.package(&name, "1.0", &mut found)? == there
        && shelf.key(number, &mut found)? == there;
    let length = if there { size.saturating_mul(3) } else { 0 };
    let byte = filling(number);
    Ok(are_told && found.len() == length && found.iter().all(|other| *other == byte))
}

// The first number whose items are not as wanted; those below the count are there.
fn first_other<S: Shelf>(
    alloc: Global,
    shelf: &mut S,
    count: u32,
    size: usize,
) -> Result<Option<u32>, ShelfError> {
    for number in 0..count.saturating_add(1) {
        if !is_as_wanted(alloc, shelf, number, number < count, size)? {
            return Ok(Some(number));
        }
    }
    Ok(None)
}

fn first_other_of(alloc: Global, count: u32, size: usize) -> Result<Option<u32>, ShelfError> {
    let mut shelf = shelf(alloc, count, size)?;
    first_other(alloc, &mut shelf, count, size)
}

#[test]
fn each_item_is_found_on_shelves_of_each_size(rt: HostRuntime) {
    for (count, size) in shelves() {
        assert_eq!(rt;
            first_other_of(rt.alloc(), *count, *size),
            Ok(None),
            "{count} {size}"
        );
    }
}
