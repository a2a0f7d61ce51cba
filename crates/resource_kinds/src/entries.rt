//! The entries of a variable that is a list of paths: the pieces between its `;`, compared byte by byte.
ghost use Rattle.std.specs.Prelude.{◌≡◌, ◌==◌, ◌||◌, ◌↔◌, ◌++◌, ◌∷◌, ◌<◌, IfOk, IsTrue, OnOk, List, Option, Some, ℕ, flat_map, length, map, not, option_map};
ghost use Rattle.std.specs.List.{list_all};
ghost use Rattle.std.specs.Option.{option_copied};
ghost use Rattle.resource_kinds.specs.Entries.{entries, entries_of, HasEntries, LacksEntries, with_entries, without_entries, missing_entries, kept_entries, each_once, joined, appended};
ghost use Rattle.resource_kinds.specs.EntrySets.{is_in};

use crate::entry_sets::EntrySet;
use std::alloc::{AllocError, Global};

/// What a Set makes of a variable is what its Test asks for. The call does nothing; its clauses are the laws.
pub fn entry_laws()
    ensures present { (old : Option (List ℕ)) (value : List ℕ)
        → HasEntries (with_entries old value) value }
    ensures absent { (old : Option (List ℕ)) (value : List ℕ)
        → LacksEntries (without_entries old value) value }
    ensures added { (old value : List ℕ) → 0 < length old
        → entries_of (with_entries (Some old) value) ≡
        entries old ++ missing_entries (Some old) value }
    ensures stays { (old value : List ℕ) → HasEntries (Some old) value
        → with_entries (Some old) value ≡ Some old }
    ensures kept { (old value : List ℕ) → entries_of (without_entries (Some old) value) ≡
        kept_entries old value }
{}

/// Returns whether the variable is there and has each entry of the value that is not empty.
pub fn has_entries(alloc: Global, old: Option<&[u8]>, value: &[u8]) -> Result<bool, AllocError>
    ensures { IfOk result (λ has. IsTrue has ↔ HasEntries (option_copied old.entry) value.now) }
{
    match old {
        Some(old) => {
            let own = EntrySet::of(alloc, old)?;
            Ok(all_in(&own, value))
        }
        None => Ok(false),
    }
}

/// Returns whether the variable has no entry of the value but empty ones.
pub fn lacks_entries(alloc: Global, old: Option<&[u8]>, value: &[u8]) -> Result<bool, AllocError>
    ensures { IfOk result (λ lacks. IsTrue lacks ↔
        LacksEntries (option_copied old.entry) value.now) }
{
    match old {
        Some(old) => {
            let own = EntrySet::of(alloc, old)?;
            Ok(none_in(&own, value))
        }
        None => Ok(true),
    }
}

/// The variable's value with the missing entries after its own.
pub fn with_entries(alloc: Global, old: Option<&[u8]>, value: &[u8]) -> Result<Vec<u8>, AllocError>
    ensures { IfOk result (λ v.
        Some v.items ≡ with_entries (option_copied old.entry) value.now) }
{
    let missing = missing_entries(alloc, old, value)?;
    appended(alloc, old.unwrap_or(&[]), missing.as_slice())
}

/// The variable's value without the entries, or `None` where none is left.
pub fn without_entries(
    alloc: Global,
    old: &[u8],
    value: &[u8],
) -> Result<Option<Vec<u8>>, AllocError>
    ensures { IfOk result (λ left. option_map (λ v. v.items) left ≡
        without_entries (Some old.now) value.now) }
{
    let kept = kept_entries(alloc, old, value)?;
    if kept.is_empty() {
        return Ok(None);
    }
    Ok(Some(joined(alloc, kept.as_slice())?))
}

// Returns whether each entry of the value that is not empty is in the set.
fn all_in(own: &EntrySet, value: &[u8]) -> bool
    ensures { result ≡ list_all (λ e. (length e == 0) || is_in own.now e) (entries value.now) }
{
    value
        .split(|b| *b == b';')
        .all(|entry| entry.is_empty() || own.has(entry))
}

// Returns whether no entry of the value that is not empty is in the set.
fn none_in(own: &EntrySet, value: &[u8]) -> bool
    ensures { result ≡ list_all (λ e. (length e == 0) || not (is_in own.now e))
        (entries value.now) }
{
    value
        .split(|b| *b == b';')
        .all(|entry| entry.is_empty() || !own.has(entry))
}

// The wanted entries that are not among the variable's, each once. A variable that is not there lacks them as an empty
// one does.
fn missing_entries<'a>(
    alloc: Global,
    old: Option<&[u8]>,
    value: &'a [u8],
) -> Result<Vec<&'a [u8]>, AllocError>
    ensures { IfOk result (λ v. map (λ e. e.now) v.items ≡
        missing_entries (option_copied old.entry) value.now) }
{
    let own = EntrySet::of(alloc, old.unwrap_or(&[]))?;
    let missing: Vec<&[u8]> = value
        .split(|b| *b == b';')
        .filter(|entry| !entry.is_empty() && !own.has(entry))
        .collect(alloc)?;
    each_once(alloc, missing.as_slice())
}

// The entries of a value that are not wanted away.
fn kept_entries<'a>(alloc: Global, old: &'a [u8], value: &[u8]) -> Result<Vec<&'a [u8]>, AllocError>
    ensures { IfOk result (λ v. map (λ e. e.now) v.items ≡ kept_entries old.now value.now) }
{
    let unwanted = EntrySet::of(alloc, value)?;
    old.split(|b| *b == b';')
        .filter(|entry| entry.is_empty() || !unwanted.has(entry))
        .collect(alloc)
}

fn each_once<'a>(alloc: Global, entries: &[&'a [u8]]) -> Result<Vec<&'a [u8]>, AllocError>
    ensures { IfOk result (λ v. map (λ e. e.now) v.items ≡
        each_once (map (λ e. e.now) entries.now)) }
{
    let mut seen = EntrySet::new(alloc);
    let mut once = Vec::new(alloc);
    for entry in entries {
        if seen.insert(*entry)? {
            once.push(*entry)?;
        }
    }
    Ok(once)
}

// A value with more entries after its own; the empty one makes way for them.
fn appended(alloc: Global, value: &[u8], more: &[&[u8]]) -> Result<Vec<u8>, AllocError>
    ensures { IfOk result (λ v. v.items ≡ appended value.now (map (λ e. e.now) more.now)) }
{
    if value.is_empty() {
        return joined(alloc, more);
    }
    let mut made = Vec::from_slice(alloc, value)?;
    push_entries(&mut made, more)?;
    Ok(made)
}

// The entries with one `;` between each two.
fn joined(alloc: Global, entries: &[&[u8]]) -> Result<Vec<u8>, AllocError>
    ensures { IfOk result (λ v. v.items ≡ joined (map (λ e. e.now) entries.now)) }
{
    let [first, more @ ..] = entries else {
        return Ok(Vec::new(alloc));
    };
    let mut made = Vec::from_slice(alloc, first)?;
    push_entries(&mut made, more)?;
    Ok(made)
}

// Each of the entries after a `;`.
fn push_entries(made: &mut Vec<u8>, entries: &[&[u8]]) -> Result<(), AllocError>
    ensures { OnOk result (made.new.items ≡ made.old.items ++
        flat_map (λ e. 59 ∷ e.now) entries.now) }
{
    for entry in entries {
        made.push(b';')?;
        made.extend_from_slice(entry)?;
    }
    Ok(())
}
