//! Where a folder that is a shelf keeps what it holds.
ghost use Rattle.std.specs.Prelude.{◌≡◌, IfOk};
ghost use Rattle.std.specs.Path.{path_buf_bytes};
ghost use Rattle.shelf_layout.specs.Layout.{configuration_place, is_shelf_name, keys_place, package_place};

use std::alloc::{AllocError, Global};
use std::path::PathBuf;

// The folder with a file for each configuration.
const CONFIGURATIONS: &str = "configurations";

// The folder with a file for each package of a module.
const MODULES: &str = "modules";

// The text with a key on each line that is not empty.
const KEYS: &str = "keys";

/// Answers whether something on a shelf can have the name. Another one could lead out of its folder, or is hidden there.
pub fn is_shelf_name(name: &str) -> bool
    ensures { result ≡ is_shelf_name name.now }
{
    let bytes = name.as_bytes();
    !bytes.starts_with(b".")
        && !bytes.contains(&b'/')
        && !bytes.contains(&b'\\')
        && !bytes.contains(&0)
}

/// The file of the configuration of that name.
pub fn configuration_place(alloc: Global, folder: &str, name: &str) -> Result<PathBuf, AllocError>
    ensures { IfOk result (λ place.
        path_buf_bytes place ≡ configuration_place folder.now name.now) }
{
    let mut place = PathBuf::from_str(alloc, folder)?;
    place.push(CONFIGURATIONS)?;
    place.push(format!(in alloc; "{name}.mof")?)?;
    Ok(place)
}

/// The file of the package of the module of that name and version.
pub fn package_place(
    alloc: Global,
    folder: &str,
    name: &str,
    version: &str,
) -> Result<PathBuf, AllocError>
    ensures { IfOk result (λ place.
        path_buf_bytes place ≡ package_place folder.now name.now version.now) }
{
    let mut place = PathBuf::from_str(alloc, folder)?;
    place.push(MODULES)?;
    place.push(format!(in alloc; "{name}_{version}.zip")?)?;
    Ok(place)
}

/// The file of the keys.
pub fn keys_place(alloc: Global, folder: &str) -> Result<PathBuf, AllocError>
    ensures { IfOk result (λ place. path_buf_bytes place ≡ keys_place folder.now) }
{
    let mut place = PathBuf::from_str(alloc, folder)?;
    place.push(KEYS)?;
    Ok(place)
}
