//! Servers that are asked one request after the other.
ghost use Rattle.pull_store.specs.Store.{IsReady};

use super::steps::{Step, body_of, head_of, is_wanted};
use crate::{ask, new_disk};
use dsc_outside::{Disk, Package};
use mof_values::{Bytes, Items};
use pull_outside::{Configuration, MemoryShelf, Shelf, ShelfContents};
use pull_store::{PullError, PullStore, open_pull};
use std::alloc::{AllocError, Global};

/// What stands on a shelf: configurations and packages of these sizes, of which the first has a name of one byte and each further
/// one of a byte more; and that many keys, of which that of this place is k0.
#[derive(Clone, Copy)]
pub struct Shelved<'a> {
    pub configurations: &'a [usize],
    pub packages: &'a [usize],
    pub keys: usize,
    pub place: usize,
}

fn filled(alloc: Global, byte: u8, size: usize) -> Result<Bytes, AllocError> {
    Ok(Bytes::of(vec![in alloc; byte; size]?))
}

fn configuration(alloc: Global, name: usize, size: usize) -> Result<Configuration, AllocError> {
    Ok(Configuration {
        name: filled(alloc, b'n', name)?,
        content: filled(alloc, b'c', size)?,
    })
}

fn put_configurations(
    items: &mut Vec<Configuration>,
    alloc: Global,
    sizes: &[usize],
) -> Result<(), AllocError> {
    for (place, size) in sizes.iter().enumerate() {
        items.push(configuration(alloc, place.saturating_add(1), *size)?)?;
    }
    Ok(())
}

fn package(alloc: Global, name: usize, size: usize) -> Result<Package, AllocError> {
    let version = Bytes::of(b"1.0".to_vec(alloc)?);
    Ok(Package {
        name: filled(alloc, b'n', name)?,
        version,
        bytes: filled(alloc, b'c', size)?,
    })
}

fn put_packages(
    items: &mut Vec<Package>,
    alloc: Global,
    sizes: &[usize],
) -> Result<(), AllocError> {
    for (place, size) in sizes.iter().enumerate() {
        items.push(package(alloc, place.saturating_add(1), *size)?)?;
    }
    Ok(())
}

// That many keys, of which that of this place is k0.
fn put_keys(
    keys: &mut Vec<Bytes>,
    alloc: Global,
    count: usize,
    place: usize,
) -> Result<(), AllocError> {
    for number in 0..count {
        let key = if number == place { b'k' } else { b'o' };
        let mut bytes = vec![in alloc; key; 1]?;
        bytes.push(b'0')?;
        keys.push(Bytes::of(bytes))?;
    }
    Ok(())
}

fn shelf(alloc: Global, shelved: Shelved<'_>) -> Result<MemoryShelf, AllocError> {
    let mut configurations = Vec::new(alloc);
    let mut packages = Vec::new(alloc);
    let mut keys = Vec::new(alloc);
    put_all(
        alloc,
        shelved,
        &mut configurations,
        &mut packages,
        &mut keys,
    )?;
    let contents = ShelfContents {
        configurations: Items::of(configurations),
        packages: Items::of(packages),
        keys: Items::of(keys),
    };
    Ok(MemoryShelf::new(contents, Vec::new(alloc)))
}

fn put_all(
    alloc: Global,
    shelved: Shelved<'_>,
    configurations: &mut Vec<Configuration>,
    packages: &mut Vec<Package>,
    keys: &mut Vec<Bytes>,
) -> Result<(), AllocError> {
    put_configurations(configurations, alloc, shelved.configurations)?;
    put_packages(packages, alloc, shelved.packages)?;
    put_keys(keys, alloc, shelved.keys, shelved.place)
}

// Whether an agent is answered so.
fn is_answered<D: Disk, S: Shelf>(
    alloc: Global,
    store: &mut PullStore,
    disk: &mut D,
    shelf: &mut S,
    agent: u32,
    step: &Step,
) -> Result<bool, AllocError>
    requires { IsReady D.Disk disk.old store.old }
    ensures { IsReady D.Disk disk.new store.new }
{
    let head = head_of(alloc, agent, step.asked)?;
    let body = body_of(alloc, step.asked)?;
    match ask(alloc, store, disk, shelf, head.as_str(), body.as_str()) {
        Some(reply) => is_wanted(alloc, &reply, step.code, step.wanted),
        None => Ok(false),
    }
}

// Whether each agent of a step is answered so.
fn are_answered<D: Disk, S: Shelf>(
    alloc: Global,
    store: &mut PullStore,
    disk: &mut D,
    shelf: &mut S,
    step: &Step,
) -> Result<bool, AllocError>
    requires { IsReady D.Disk disk.old store.old }
    ensures { IsReady D.Disk disk.new store.new }
{
    for more in 0..step.count {
        let agent = step.first.saturating_add(more);
        if !is_answered(alloc, store, disk, shelf, agent, step)? {
            return Ok(false);
        }
    }
    Ok(true)
}

// The first of the steps that is answered otherwise.
fn first_other_step<D: Disk, S: Shelf>(
    alloc: Global,
    store: &mut PullStore,
    disk: &mut D,
    shelf: &mut S,
    steps: &[Step],
) -> Result<Option<usize>, AllocError>
    requires { IsReady D.Disk disk.old store.old }
    ensures { IsReady D.Disk disk.new store.new }
{
    for (place, step) in steps.iter().enumerate() {
        if !are_answered(alloc, store, disk, shelf, step)? {
            return Ok(Some(place));
        }
    }
    Ok(None)
}

// The first of the steps in front, or else of the others, that is answered otherwise.
fn first_other_in<D: Disk, S: Shelf>(
    alloc: Global,
    store: &mut PullStore,
    disk: &mut D,
    shelf: &mut S,
    front: &[Step],
    steps: &[Step],
) -> Result<Option<usize>, AllocError>
    requires { IsReady D.Disk disk.old store.old }
{
    if let Some(place) = first_other_step(alloc, store, disk, shelf, front)? {
        return Ok(Some(place));
    }
    first_other_step(alloc, store, disk, shelf, steps)
}

/// The first of the steps in front, or else of the others, that a new server over such a shelf answers otherwise.
pub fn first_other_over(
    alloc: Global,
    shelved: Shelved<'_>,
    front: &[Step],
    steps: &[Step],
) -> Result<Option<usize>, PullError> {
    let mut shelf = shelf(alloc, shelved)?;
    let mut disk = new_disk(alloc, &[])?;
    let mut store = open_pull(alloc, &mut disk)?;
    Ok(first_other_in(alloc, &mut store, &mut disk, &mut shelf, front, steps)?)
}
