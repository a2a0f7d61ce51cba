//! The log and the packages of a host in memory.
ghost use Rattle.std.specs.Prelude.{◌≡◌, ◌++◌, ◌∷◌, [], OnErr, OnOk};
ghost use Rattle.dsc_outside.specs.Host.{has_entry, has_package, wants_reboot};

use dsc_outside::{LogEntry, Package};
use mof_values::Bytes;
use std::alloc::AllocError;

pub fn find_entry(log: &[LogEntry], id: &[u8], message: &[u8]) -> bool
    ensures { result ≡ has_entry log.now id.now message.now }
{
    log.iter().any(|entry| entry.id.as_slice() == id && entry.message.as_slice() == message)
}

/// Adds an entry at the end. Without memory the entries stay.
pub fn add_entry(log: &mut Vec<LogEntry>, id: &[u8], message: &[u8]) -> Result<(), AllocError>
    ensures ok { OnOk result (log.new.items ≡
        log.old.items ++ record { id = id.now; message = message.now } ∷ []) }
    ensures err { OnErr result (log.new.items ≡ log.old.items) }
{
    let alloc = *log.allocator();
    log.push(LogEntry {
        id: Bytes::of(id.to_vec(alloc)?),
        message: Bytes::of(message.to_vec(alloc)?),
    })?;
    Ok(())
}

pub fn find_package(packages: &[Package], name: &[u8], version: &[u8]) -> bool
    ensures { result ≡ has_package packages.now name.now version.now }
{
    packages.iter().any(|package| package.name.as_slice() == name
        && package.version.as_slice() == version)
}

/// Adds a package at the end. Without memory the packages stay.
pub fn add_package(
    packages: &mut Vec<Package>,
    name: &[u8],
    version: &[u8],
    bytes: &[u8],
) -> Result<(), AllocError>
    ensures ok { OnOk result (packages.new.items ≡ packages.old.items ++
        record { name = name.now; version = version.now; bytes = bytes.now } ∷ []) }
    ensures err { OnErr result (packages.new.items ≡ packages.old.items) }
{
    let alloc = *packages.allocator();
    packages.push(Package {
        name: Bytes::of(name.to_vec(alloc)?),
        version: Bytes::of(version.to_vec(alloc)?),
        bytes: Bytes::of(bytes.to_vec(alloc)?),
    })?;
    Ok(())
}

pub fn find_wanting(wanting: &[Bytes], id: &[u8]) -> bool
    ensures { result ≡ wants_reboot wanting.now id.now }
{
    wanting.iter().any(|wants| wants.as_slice() == id)
}
