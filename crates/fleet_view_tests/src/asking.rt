//! Requests as texts.
ghost use Rattle.std.specs.Prelude.{◌≤◌, IfSome, length};
ghost use Rattle.pull_store.specs.Sound.{most_bytes};
ghost use Rattle.pull_store.specs.Store.{IsReady};

use dsc_outside::Disk;
use fleet_view::{FleetStore, answer_fleet};
use http_frames::{Reply, Request, RequestReader};
use mof_values::Memory;
use pull_outside::Shelf;
use std::alloc::{AllocError, Global};

// The bytes of a request with this head, in which a length is added, and this body.
fn request_bytes(alloc: Global, head: &str, body: &str) -> Result<Vec<u8>, AllocError> {
    let mut bytes = head.as_bytes().to_vec(alloc)?;
    let length = format!(in alloc; "{}", body.len())?;
    bytes.extend_from_slice(b"Content-Length: ")?;
    bytes.extend_from_slice(length.as_bytes())?;
    bytes.extend_from_slice(b"\r\n\r\n")?;
    bytes.extend_from_slice(body.as_bytes())?;
    Ok(bytes)
}

fn request_of(alloc: Global, head: &str, body: &str) -> Option<Request>
    ensures { IfSome result (λ request. length request.body ≤ most_bytes) }
{
    let bytes = match request_bytes(alloc, head, body) {
        Ok(bytes) => bytes,
        Err(_) => return None,
    };
    let mut reader = RequestReader::new(alloc);
    match reader.feed(&bytes) {
        Ok(request) => request,
        Err(_) => None,
    }
}

/// What a request with this head and body is answered; none where it is no request.
pub fn ask<D: Disk, S: Shelf>(
    alloc: Global,
    service: &mut FleetStore,
    disk: &mut D,
    shelf: &mut S,
    head: &str,
    body: &str,
) -> Option<Reply>
    requires { IsReady D.Disk disk.old service.old.store }
    ensures { IsReady D.Disk disk.new service.new.store }
{
    match request_of(alloc, head, body) {
        Some(request) => match answer_fleet(alloc, service, disk, shelf, &request) {
            Ok(reply) => Some(reply),
            Err(Memory) => None,
        },
        None => None,
    }
}
