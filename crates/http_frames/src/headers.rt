//! Headers by their names, which are the same in any case of ASCII letters (RFC 9110, section 5.1).
ghost use Rattle.std.specs.Prelude.{◌≡◌};
ghost use Rattle.std.specs.List.{find};
ghost use Rattle.std.specs.Option.{option_copied};
ghost use Rattle.http_frames.specs.Headers.{is_same, is_named, has_named, count_named};

use crate::Header;

/// The first header of that name.
pub fn first_named<'a>(headers: &'a [Header], name: &[u8]) -> Option<&'a Header>
    ensures { option_copied result ≡ find (is_named name.now) headers.now }
{
    headers.iter().find(|h| is_named(h, name))
}

/// The number of headers of that name.
pub fn count_named(headers: &[Header], name: &[u8]) -> usize
    ensures { result ≡ count_named name.now headers.now }
{
    headers.iter().filter(|h| is_named(h, name)).count()
}

/// Whether there is a header of that name.
pub(crate) fn has_named(headers: &[Header], name: &[u8]) -> bool
    ensures { result ≡ has_named name.now headers.now }
{
    headers.iter().any(|h| is_named(h, name))
}

pub(crate) fn is_named(header: &Header, name: &[u8]) -> bool
    ensures { result ≡ is_named name.now header.now }
{
    is_same(header.name.as_slice(), name)
}

/// Whether the two are the same but for the case of ASCII letters.
pub(crate) fn is_same(a: &[u8], b: &[u8]) -> bool
    ensures { result ≡ is_same a.now b.now }
{
    a.eq_ignore_ascii_case(b)
}
