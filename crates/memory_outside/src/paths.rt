//! The paths of a host in memory.
ghost use Rattle.std.specs.Prelude.{◌≡◌, ◌&&◌, ◌+◌, ◌≤◌, ◌++◌, List, ℕ, IfOk, OnOk, OnErr, Some, if◌then◌else◌, vec_capacity, vec_len};
ghost use Rattle.std.specs.Str.{bytes_eq};
ghost use Rattle.std.specs.List.{list_any};
ghost use Rattle.std.specs.Option.{option_copied};
ghost use Rattle.memory_outside.specs.MemoryHost.{Adds, AreMissing, IsPushed, first_kind, folder_if, kind_at, kind_of, standing_at};
ghost use Rattle.dsc_outside.specs.Paths.{Folder, IsStateAt, Nothing, file_put, folder_made, is_below, is_file_of, is_nothing, is_within, removed};
ghost use Rattle.memory_outside.specs.declared.paths.PathContent.TheVariants as standings;

use dsc_outside::PathState;
use mof_values::Bytes;
use std::alloc::{AllocError, Global};

/// What stands at a path.
#[derive(Debug, Drop, PartialEq)]
pub enum PathContent {
    File(Bytes),
    Folder,

    /// Neither a file nor a folder, as a link or a pipe.
    Other,
}

/// A path of a host in memory, and what stands there.
#[derive(Debug, Drop, PartialEq)]
pub struct PathEntry {
    /// In UTF-8.
    pub path: Bytes,

    pub stands: PathContent,
}

/// The state of the path.
pub fn state_at(paths: &[PathEntry], path: &[u8]) -> PathState
    ensures { IsStateAt (kind_at paths.now) path.now result }
{
    match find_standing(paths, path) {
        None => PathState::Nothing,
        Some(PathContent::File(_)) => PathState::File,
        Some(PathContent::Folder) => folder_state(paths, path),
        Some(PathContent::Other) => PathState::Other,
    }
}

/// Answers whether a file of these bytes stands at the path.
pub fn is_file(paths: &[PathEntry], path: &[u8], bytes: &[u8]) -> bool
    ensures { result ≡ is_file_of (kind_at paths.now path.now) bytes.now }
{
    match find_standing(paths, path) {
        Some(PathContent::File(held)) => held.as_slice() == bytes,
        _ => false,
    }
}

/// Puts a file of these bytes at the path. Without memory the entries stay.
pub fn put_file(paths: &mut Vec<PathEntry>, path: &[u8], bytes: &[u8]) -> Result<(), AllocError>
    ensures ok { OnOk result (kind_at paths.new.items ≡
        file_put path.now bytes.now (kind_at paths.old.items)) }
    ensures err { OnErr result (paths.new.items ≡ paths.old.items) }
{
    let alloc = *paths.allocator();
    let file = new_file(alloc, bytes)?;
    let mut added = with_missing_above(alloc, paths, path, file)?;
    paths.reserve(added.len())?;
    remove(paths, path);
    append(paths, &mut added);
    Ok(())
}

/// Makes a folder at the path. Without memory the entries stay.
pub fn make_folder(paths: &mut Vec<PathEntry>, path: &[u8]) -> Result<(), AllocError>
    ensures ok { OnOk result (kind_at paths.new.items ≡
        folder_made path.now (kind_at paths.old.items)) }
    ensures err { OnErr result (paths.new.items ≡ paths.old.items) }
{
    let alloc = *paths.allocator();
    let mut added = with_missing_above(alloc, paths, path, PathContent::Folder)?;
    paths.reserve(added.len())?;
    paths.retain(|entry| entry.path.as_slice() != path);
    append(paths, &mut added);
    Ok(())
}

/// Takes the path and all below it away.
pub fn remove(paths: &mut Vec<PathEntry>, path: &[u8])
    ensures removed { kind_at paths.new.items ≡ removed path.now (kind_at paths.old.items) }
    ensures count { vec_len paths.new ≤ vec_len paths.old }
    ensures capacity { vec_capacity paths.new ≡ vec_capacity paths.old }
{
    paths.retain(|entry| !stands_within(path, entry.path.as_slice()));
}

fn new_file(alloc: Global, bytes: &[u8]) -> Result<PathContent, AllocError>
    ensures { IfOk result (λ s. s ≡ standings.File bytes.now) }
{
    Ok(PathContent::File(Bytes::of(bytes.to_vec(alloc)?)))
}

// The folders above the path that are missing, and after them the path itself.
fn with_missing_above(
    alloc: Global,
    paths: &[PathEntry],
    path: &[u8],
    stands: PathContent,
) -> Result<Vec<PathEntry>, AllocError>
    ensures { IfOk result (λ added. Adds path.now paths.now (kind_of (Some stands)) added.items) }
{
    let mut added = missing_above(alloc, paths, path)?;
    push(&mut added, path, stands)?;
    Ok(added)
}

// The folders above the path that are missing.
fn missing_above(
    alloc: Global,
    paths: &[PathEntry],
    path: &[u8],
) -> Result<Vec<PathEntry>, AllocError>
    ensures { IfOk result (λ missing. AreMissing path.now paths.now missing.items) }
{
    let mut missing = Vec::new(alloc);
    for at in 0..path.len() {
        if path[at] == b'/' {
            push_missing(&mut missing, paths, &path[..at])?;
        }
    }
    Ok(missing)
}

// Adds a folder where nothing stands.
fn push_missing(
    missing: &mut Vec<PathEntry>,
    paths: &[PathEntry],
    folder: &[u8],
) -> Result<(), AllocError>
    ensures { OnOk result ((other : List ℕ) → kind_at missing.new.items other ≡
        first_kind (kind_at missing.old.items other) (folder_if
        (bytes_eq folder.now other && is_nothing (kind_at paths.now other)))) }
{
    if is_free(paths, folder) {
        return push(missing, folder, PathContent::Folder);
    }
    Ok(())
}

// Adds an entry at the end.
fn push(entries: &mut Vec<PathEntry>, path: &[u8], stands: PathContent) -> Result<(), AllocError>
    ensures { OnOk result (IsPushed path.now (kind_of (Some stands))
        entries.old.items entries.new.items) }
{
    let path = Bytes::of(path.to_vec(*entries.allocator())?);
    entries.push(PathEntry { path, stands })?;
    Ok(())
}

// Appends entries for which capacity is reserved.
fn append(paths: &mut Vec<PathEntry>, added: &mut Vec<PathEntry>)
    requires { vec_len paths.old + vec_len added.old ≤ vec_capacity paths.old }
    ensures { paths.new.items ≡ paths.old.items ++ added.old.items }
{
    match paths.append(added) {
        Ok(()) => {}
        Err(_) => unreachable!(),
    }
}

fn folder_state(paths: &[PathEntry], path: &[u8]) -> PathState
    requires { kind_at paths.now path.now ≡ Folder }
    ensures { IsStateAt (kind_at paths.now) path.now result }
{
    if holds_below(paths, path) {
        PathState::Folder
    } else {
        PathState::EmptyFolder
    }
}

fn holds_below(paths: &[PathEntry], path: &[u8]) -> bool
    ensures { result ≡ list_any (λ e. is_below path.now e.path) paths.now }
{
    paths
        .iter()
        .any(|entry| stands_below(path, entry.path.as_slice()))
}

fn is_free(paths: &[PathEntry], path: &[u8]) -> bool
    ensures { result ≡ is_nothing (kind_at paths.now path.now) }
{
    match find_standing(paths, path) {
        None => true,
        Some(PathContent::File(_)) => false,
        Some(PathContent::Folder) => false,
        Some(PathContent::Other) => false,
    }
}

fn find_standing<'a>(paths: &'a [PathEntry], path: &[u8]) -> Option<&'a PathContent>
    ensures { option_copied result ≡ standing_at paths.now path.now }
{
    for entry in paths {
        if entry.path.as_slice() == path {
            return Some(&entry.stands);
        }
    }
    None
}

fn stands_within(path: &[u8], other: &[u8]) -> bool
    ensures { result ≡ is_within path.now other.now }
{
    path == other || stands_below(path, other)
}

fn stands_below(path: &[u8], other: &[u8]) -> bool
    ensures { result ≡ is_below path.now other.now }
{
    let Some(rest) = other.strip_prefix(path) else {
        return false;
    };
    match rest {
        [] => false,
        [first, ..] => *first == b'/',
    }
}
