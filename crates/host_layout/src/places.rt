//! Where a folder that stands for a machine keeps what it holds: paths below it.
ghost use Rattle.std.specs.Prelude.{◌≡◌, Err, IfOk, false, string_bytes, true};
ghost use Rattle.std.specs.Path.{path_buf_bytes, path_join};
ghost use Rattle.hex.specs.Hex.{encode_upper};
ghost use Rattle.sha2.specs.Sha256.{sha256};
ghost use Rattle.host_layout.specs.Layout.{entry_place, has_line_feed, is_plain_path, package_place, root_place, staged_name, staging_place, two_lines, variable_place};
ghost use Rattle.dsc_outside.specs.declared.host.HostError.TheVariants as errors;

use crate::paths::is_plain_path;
use dsc_outside::HostError;
use sha2::{Digest, Sha256};
use std::alloc::{AllocError, Global};
use std::path::PathBuf;

// The folder for the machine's paths.
const ROOT: &str = "root";

// The folder with a file for each environment variable.
const VARIABLES: &str = "env";

// The folder with a file for each entry of the log.
const LOG: &str = "log";

// The folder with a file for each package.
const PACKAGES: &str = "packages";

/// The text of the ids that want a reboot.
pub const REBOOT: &str = "reboot";

// A file that is being written, before it takes its place in the same folder. Names that begin so are reserved.
const STAGED: &str = ".nimchout-staged";

// What has that name in the folder.
fn path_in(alloc: Global, folder: &str, name: &str) -> Result<PathBuf, AllocError>
    ensures { IfOk result (λ place. path_buf_bytes place ≡ path_join folder.now name.now) }
{
    let mut place = PathBuf::from_str(alloc, folder)?;
    place.push(name)?;
    Ok(place)
}

/// What stands for the path of the machine. A path with a name that is not plain is a failure.
pub fn root_path(alloc: Global, path: &str) -> Result<PathBuf, HostError>
    ensures place { IfOk result (λ place. path_buf_bytes place ≡ root_place path.now) }
    ensures plain { IfOk result (λ place. is_plain_path path.now ≡ true) }
    ensures refused { is_plain_path path.now ≡ false → result ≡ Err errors.Failed }
{
    if !is_plain_path(path) {
        return Err(HostError::Failed);
    }
    Ok(path_in(alloc, ROOT, path)?)
}

/// Where the file of that place is written first: in its folder, since no file is moved from one file system to another,
/// under a reserved name with the digits of the mark.
pub fn staging_path(alloc: Global, place: &str, mark: &[u8]) -> Result<PathBuf, AllocError>
    ensures { IfOk result (λ staged. path_buf_bytes staged ≡ staging_place place.now mark.now) }
{
    let name = staged_name(alloc, mark)?;
    let mut staged = PathBuf::from_str(alloc, place)?;
    staged.set_file_name(name.as_str())?;
    Ok(staged)
}

fn staged_name(alloc: Global, mark: &[u8]) -> Result<String, AllocError>
    ensures { IfOk result (λ name. string_bytes name ≡ staged_name mark.now) }
{
    let digits = hex::encode_upper(alloc, mark)?;
    let mut name = String::from_str(alloc, STAGED)?;
    name.push('-')?;
    name.push_str(digits.as_str())?;
    Ok(name)
}

/// The file of the variable: its name is the upper-case hexadecimal digits of the variable's.
pub fn variable_path(alloc: Global, name: &str) -> Result<PathBuf, AllocError>
    ensures { IfOk result (λ place. path_buf_bytes place ≡ variable_place name.now) }
{
    let name = hex::encode_upper(alloc, name)?;
    path_in(alloc, VARIABLES, name.as_str())
}

/// The file of the log's entry with these bytes: its id, a line feed, and its message. Their digest names it.
pub fn entry_path(alloc: Global, entry: &[u8]) -> Result<PathBuf, AllocError>
    ensures { IfOk result (λ place. path_buf_bytes place ≡ entry_place entry.now) }
{
    let name = digest_text(alloc, entry)?;
    path_in(alloc, LOG, name.as_str())
}

/// The file of the package: the digest of its name, a line feed, and its version names it.
pub fn package_path(alloc: Global, name: &str, version: &str) -> Result<PathBuf, HostError>
    ensures place { IfOk result (λ place.
        path_buf_bytes place ≡ package_place name.now version.now) }
    ensures refused { has_line_feed name.now ≡ true → result ≡ Err errors.Failed }
{
    let both = join_lines(alloc, name, version)?;
    let name = digest_text(alloc, &both)?;
    Ok(path_in(alloc, PACKAGES, name.as_str())?)
}

/// Two texts with a line feed between. A line feed in the first is a failure: another pair would have the same bytes.
pub fn join_lines(alloc: Global, first: &str, second: &str) -> Result<Vec<u8>, HostError>
    ensures lines { IfOk result (λ both. both.items ≡ two_lines first.now second.now) }
    ensures refused { has_line_feed first.now ≡ true → result ≡ Err errors.Failed }
{
    if first.as_bytes().contains(&b'\n') {
        return Err(HostError::Failed);
    }
    let mut both = first.as_bytes().to_vec(alloc)?;
    both.push(b'\n')?;
    both.extend_from_slice(second.as_bytes())?;
    Ok(both)
}

// The digest in upper-case hexadecimal digits.
fn digest_text(alloc: Global, bytes: &[u8]) -> Result<String, AllocError>
    ensures { IfOk result (λ text. string_bytes text ≡ encode_upper (sha256 bytes.now)) }
{
    let digest = Sha256::digest(bytes);
    hex::encode_upper(alloc, &digest)
}
