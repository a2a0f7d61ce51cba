//! Resources of one document that are about the same thing.
ghost use Rattle.std.specs.Prelude.{◌≡◌, ◌<◌, ◌^◌, ◌↔◌, IfOk, OnOk, IsTrue, length, map, ◌∷◌, option_and_then, true, false};
ghost use Rattle.std.specs.Result.{result_ok};
ghost use Rattle.resource_kinds.specs.Apart.{Apart, MeetsEarlier, Overlap, closed_path, target_of};
ghost use Rattle.resource_kinds.specs.Keys.{PutsIfAny, kept_place};
ghost use Rattle.resource_kinds.specs.OverlapSteps.{HasBelow, HasBelowIfAny, HasInside, entry_key, key_if_any, target_key};
ghost use Rattle.resource_kinds.specs.Wanted.{wanted_of};

use crate::keys::Keys;
use crate::subjects::{meets, subject_of};
use crate::utf8::Utf8;
use crate::wanted::{Wanted, WantedError, wanted_of};
use dsc_document::{Document, Resource};
use std::alloc::{AllocError, Global};

/// Returns whether two resources without a fault meet: they are about one path, one variable or one entry of the log, or
/// the path of one lies below that of the other, and the other does not ask for a folder there.
///
/// What each is about is kept by a key, once. Keys of paths below a path follow each other in the order of keys, so one
/// look-up finds whether there are any.
pub fn overlaps(alloc: Global, document: &Document) -> Result<bool, AllocError>
    requires few { length document.now.resources < 2 ^ 32 }
    ensures apart { IfOk result (λ yes. yes ≡ false → Apart document.now) }
    ensures overlap { IfOk result (λ yes. yes ≡ true → Overlap document.now) }
{
    let all = all_wanted(alloc, document.resources.as_slice())?;
    let mut keys = Keys::new(alloc);
    for place in 0..all.len() {
        if put_key(alloc, &mut keys, &all[place], place as u32)?.is_some() {
            return Ok(true);
        }
    }
    for outer in 0..all.len() {
        if has_inside(alloc, &keys, &all[outer])? {
            return Ok(true);
        }
    }
    Ok(false)
}

/// Returns whether no two resources without a fault meet; takes no memory, and compares each two.
pub fn apart(document: &Document) -> bool
    ensures apart { result ≡ true → Apart document.now }
    ensures overlap { result ≡ false → Overlap document.now }
{
    for second in 0..document.resources.as_slice().len() {
        if meets_earlier(document, second) {
            return false;
        }
    }
    true
}

// Returns whether the resource at that place meets one before it.
fn meets_earlier(document: &Document, second: usize) -> bool
    requires { second < length document.now.resources }
    ensures { IsTrue result ↔ MeetsEarlier document.now second }
{
    let resources = document.resources.as_slice();
    let Some(subject) = subject_of(&resources[second]) else {
        return false;
    };
    for first in 0..second {
        if meets(&resources[first], subject) {
            return true;
        }
    }
    false
}

// What each resource asks for, where it asks for anything.
fn all_wanted(alloc: Global, resources: &[Resource]) -> Result<Vec<Option<Wanted>>, AllocError>
    ensures { IfOk result (λ all. all.items ≡
        map (λ resource. result_ok (wanted_of resource)) resources.now) }
{
    let mut all = Vec::new(alloc);
    for resource in resources {
        all.push(wanted_if_any(alloc, resource)?)?;
    }
    Ok(all)
}

fn wanted_if_any(alloc: Global, resource: &Resource) -> Result<Option<Wanted>, AllocError>
    ensures { IfOk result (λ wanted. wanted ≡ result_ok (wanted_of resource.now)) }
{
    match wanted_of(alloc, resource) {
        Ok(wanted) => Ok(Some(wanted)),
        Err(WantedError::Fault(_)) => Ok(None),
        Err(WantedError::Memory) => Err(AllocError),
    }
}

// Gives what is asked for a place by its key, and returns the place of another one that is about the same.
fn put_key(
    alloc: Global,
    keys: &mut Keys,
    wanted: &Option<Wanted>,
    place: u32,
) -> Result<Option<u32>, AllocError>
    ensures had { IfOk result (λ had. had ≡ option_and_then (kept_place keys.old)
        (key_if_any wanted.now)) }
    ensures put { OnOk result (PutsIfAny keys.old keys.new (key_if_any wanted.now) place) }
{
    match wanted {
        Some(wanted) => keys.put(target_key(alloc, wanted)?, place),
        None => Ok(None),
    }
}

// Returns whether something has a place that is about a path below this one's, where no folder is asked for.
fn has_inside(alloc: Global, keys: &Keys, wanted: &Option<Wanted>) -> Result<bool, AllocError>
    ensures { IfOk result (λ inside. IsTrue inside ↔ HasInside keys.now wanted.now) }
{
    match wanted {
        Some(wanted) => encloses_one(alloc, keys, wanted),
        None => Ok(false),
    }
}

fn encloses_one(alloc: Global, keys: &Keys, wanted: &Wanted) -> Result<bool, AllocError>
    ensures { IfOk result (λ inside. IsTrue inside ↔
        HasBelowIfAny keys.now (closed_path wanted.now)) }
{
    match wanted {
        Wanted::File { path, .. } => has_below(alloc, keys, path),
        Wanted::NoFile { path } => has_below(alloc, keys, path),
        Wanted::NoFolder { path, .. } => has_below(alloc, keys, path),
        Wanted::Folder { .. }
        | Wanted::Variable { .. }
        | Wanted::Entries { .. }
        | Wanted::NoVariable { .. }
        | Wanted::NoEntries { .. }
        | Wanted::Logged { .. } => Ok(false),
    }
}

fn has_below(alloc: Global, keys: &Keys, path: &Utf8) -> Result<bool, AllocError>
    ensures { IfOk result (λ below. IsTrue below ↔ HasBelow keys.now path.now) }
{
    let mut front = with_sort(alloc, 0, path)?;
    front.push(b'/')?;
    Ok(keys.any_begins_with(&front))
}

// The key of what is asked for: a byte for its sort, and what it is about. Of an entry of the log the bytes of the id
// have a 0 in front of each, and the message a 1.
fn target_key(alloc: Global, wanted: &Wanted) -> Result<Vec<u8>, AllocError>
    ensures { IfOk result (λ key. key.items ≡ target_key (target_of wanted.now)) }
{
    match wanted {
        Wanted::File { path, .. } => with_sort(alloc, 0, path),
        Wanted::Folder { path } => with_sort(alloc, 0, path),
        Wanted::NoFile { path } => with_sort(alloc, 0, path),
        Wanted::NoFolder { path, .. } => with_sort(alloc, 0, path),
        Wanted::Variable { name, .. } => with_sort(alloc, 1, name),
        Wanted::Entries { name, .. } => with_sort(alloc, 1, name),
        Wanted::NoVariable { name } => with_sort(alloc, 1, name),
        Wanted::NoEntries { name, .. } => with_sort(alloc, 1, name),
        Wanted::Logged { id, message } => entry_key(alloc, id, message),
    }
}

fn with_sort(alloc: Global, sort: u8, bytes: &Utf8) -> Result<Vec<u8>, AllocError>
    ensures { IfOk result (λ key. key.items ≡ sort ∷ bytes.now) }
{
    let mut key = Vec::new(alloc);
    key.push(sort)?;
    key.extend_from_slice(bytes.as_bytes())?;
    Ok(key)
}

fn entry_key(alloc: Global, id: &Utf8, message: &Utf8) -> Result<Vec<u8>, AllocError>
    ensures { IfOk result (λ key. key.items ≡ 2 ∷ entry_key id.now message.now) }
{
    let mut key = Vec::new(alloc);
    key.push(2)?;
    for byte in id.as_bytes() {
        key.push(0)?;
        key.push(*byte)?;
    }
    key.push(1)?;
    key.extend_from_slice(message.as_bytes())?;
    Ok(key)
}
