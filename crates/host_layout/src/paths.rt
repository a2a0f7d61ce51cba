//! Paths of the machine.
ghost use Rattle.std.specs.Prelude.{◌≡◌};
ghost use Rattle.host_layout.specs.Layout.{is_plain_name, is_plain_path, is_single_name, is_staging_name};

/// Answers whether each name of the path is plain. What has another one, as `..`, may lead out of the root.
pub fn is_plain_path(path: &str) -> bool
    ensures { result ≡ is_plain_path path.now }
{
    path.split('/').all(|name| is_plain_name(name))
}

// Neither empty, nor `.`, nor `..`, without a NUL, and none that is reserved for staging.
fn is_plain_name(name: &str) -> bool
    ensures { result ≡ is_plain_name name.now }
{
    !name.is_empty()
        && name != "."
        && name != ".."
        && !name.as_bytes().contains(&0)
        && !is_staging_name(name.as_bytes())
}

/// Answers whether it is one plain name, without a `/`.
pub fn is_single_name(name: &str) -> bool
    ensures { result ≡ is_single_name name.now }
{
    is_plain_name(name) && !name.as_bytes().contains(&b'/')
}

/// Answers whether the name is reserved for files that are being written. No path of the machine has such a name, and
/// a folder with nothing else in it is empty.
pub fn is_staging_name(name: &[u8]) -> bool
    ensures { result ≡ is_staging_name name.now }
{
    name.starts_with(b".nimchout-staged")
}
