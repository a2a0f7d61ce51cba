//! Fetches the contents of configurations and the packages of modules.
ghost use Rattle.std.specs.Prelude.{◌≡◌, true, IfOk};
ghost use Rattle.dsc_outside.specs.LinkView.{view_of};
ghost use Rattle.pull_client.specs.Asks.{Asks};
ghost use Rattle.pull_client.specs.Content.{GivesBody, GivesPart, items_in};
ghost use Rattle.pull_client.specs.Heard.{SaysOr};
ghost use Rattle.pull_client.specs.Requests.{content_request, module_request};

use crate::PeerError;
use crate::content::{checked_body, part_in};
use crate::exchange::exchange;
use crate::requests::{content_request, module_request};
use dsc_outside::Link;
use http_frames::Reply;
use meta_config::Server;
use mof_values::Text;
use partial_merge::Part;
use std::alloc::Global;

/// Asks the server for the content of the configuration of that name, and gives it as a part under that name.
///
/// # Errors
///
/// The first of these that holds: `NotServed` for a server of https, which is not asked; `Link` where the link failed;
/// `TooLong` where the answer is; `Frame` where it is no message of HTTP; `Status` where its code is not accepted;
/// `NoChecksum` where no digest is announced as it must be; `Mismatch` where it is not that of the body; `TooLong` where
/// the body is longer than a document may be. `Memory` may come in the place of each but the first.
pub fn fetch<L: Link>(
    alloc: Global,
    link: &mut L,
    server: &Server,
    agent: u128,
    name: &Text,
) -> Result<Part, PeerError>
    ensures asks { Asks server.now (content_request server.now agent name.now) (GivesPart name.now)
        (view_of L.Link link.old) (view_of L.Link link.new) result }
    ensures becomes { L.may_become link.old link.new }
    ensures named { IfOk result (λ part. part.name ≡ name.now) }
    ensures unsent { server.now.https ≡ true → link.new ≡ link.old }
{
    if server.https {
        return Err(PeerError::NotServed);
    }
    let request = content_request(alloc, server, agent, name)?;
    let reply = exchange(alloc, link, server, &request)?;
    part_in(alloc, name, reply)
}

/// Asks the server for the package of the module of that name and version, and gives its bytes.
///
/// The agent is not sent, since the address of a package names no agent. It is a parameter so that each call of this
/// crate says for whom it asks.
///
/// # Errors
///
/// Those of [`fetch`] in the same order, but that a package may be longer than a document.
pub fn fetch_module<L: Link>(
    alloc: Global,
    link: &mut L,
    server: &Server,
    _agent: u128,
    name: &Text,
    version: &Text,
) -> Result<Vec<u8>, PeerError>
    ensures asks { Asks server.now (module_request server.now name.now version.now) GivesBody
        (view_of L.Link link.old) (view_of L.Link link.new) (items_in result (λ v. v.items)) }
    ensures becomes { L.may_become link.old link.new }
    ensures unsent { server.now.https ≡ true → link.new ≡ link.old }
{
    if server.https {
        return Err(PeerError::NotServed);
    }
    let request = module_request(alloc, server, name, version)?;
    let reply = exchange(alloc, link, server, &request)?;
    body_in(reply)
}

fn body_in(reply: Reply) -> Result<Vec<u8>, PeerError>
    ensures { SaysOr GivesBody reply (items_in result (λ v. v.items)) }
{
    Ok(checked_body(reply)?.into_vec())
}
