//! Signatures of registrations.
ghost use Rattle.std.specs.Prelude.{◌≡◌, ◌≤◌, IfOk, Some, codes, length, take};
ghost use Rattle.std.specs.Option.{option_copied};
ghost use Rattle.dsc_outside.specs.Causes.{HasCauseOf};
ghost use Rattle.pull_server.specs.Asked.{Over};
ghost use Rattle.pull_server.specs.Signed.{after_front, is_signed, most_keys, single};

use http_frames::{Header, Request, count_named, first_named};
use mof_values::Bytes;
use pull_outside::{Shelf, ShelfError};
use shared_key::verify;
use std::alloc::Global;

// The most keys of a shelf that count.
const MOST_KEYS: u32 = 64;

/// Whether the request is signed under a key of the shelf. Where a header of the signature is missing, no key is asked for.
pub fn is_signed<S: Shelf>(
    alloc: Global,
    shelf: &mut S,
    request: &Request,
) -> Result<bool, ShelfError>
    ensures signed { IfOk result (λ yes. Over (S.holds shelf.old) (λ contents.
        yes ≡ is_signed contents.keys request.now)) }
    ensures same { S.holds shelf.new ≡ S.holds shelf.old }
    ensures cause { HasCauseOf ShelfError.Failed (S.faults shelf.old) (S.faults shelf.new) result }
{
    let Some(date) = single(request.headers.as_slice(), b"x-ms-date") else {
        return Ok(false);
    };
    let Some(value) = single(request.headers.as_slice(), b"Authorization") else {
        return Ok(false);
    };
    let Some(signature) = after_shared(value) else {
        return Ok(false);
    };
    let keys = read_keys(alloc, shelf)?;
    Ok(verify(&keys, request.body.as_slice(), date, signature).is_some())
}

// The value of the one header of that name.
fn single<'a>(headers: &'a [Header], name: &[u8]) -> Option<&'a [u8]>
    ensures { option_copied result ≡ single name.now headers.now }
{
    if count_named(headers, name) != 1 {
        return None;
    }
    match first_named(headers, name) {
        Some(header) => Some(header.value.as_slice()),
        None => None,
    }
}

fn after_shared(value: &[u8]) -> Option<&[u8]>
    ensures { option_copied result ≡ after_front (codes "Shared ") value.now }
{
    value.strip_prefix(b"Shared ")
}

// The keys of the shelf that count: up to the first that is not there, and at most `MOST_KEYS`.
fn read_keys<S: Shelf>(alloc: Global, shelf: &mut S) -> Result<Vec<Bytes>, ShelfError>
    ensures keys { IfOk result (λ keys. Over (S.holds shelf.old) (λ contents.
        keys.items ≡ take most_keys contents.keys)) }
    ensures few { IfOk result (λ keys. length keys.items ≤ most_keys) }
    ensures same { S.holds shelf.new ≡ S.holds shelf.old }
    ensures cause { HasCauseOf ShelfError.Failed (S.faults shelf.old) (S.faults shelf.new) result }
{
    let mut keys = Vec::new(alloc);
    for index in 0..MOST_KEYS {
        let mut key = Vec::new(alloc);
        if !shelf.key(index, &mut key)? {
            return Ok(keys);
        }
        keys.push(Bytes::of(key))?;
    }
    Ok(keys)
}
