//! What agents are to do.
ghost use Rattle.std.specs.Prelude.{◌≡◌, if◌then◌else◌, IfOk, OnOk, Some, bytes_eq, codes, map, option_map};
ghost use Rattle.std.specs.List.{AllByRecursion, list_any};
ghost use Rattle.sha2.specs.Sha256.{sha256};
ghost use Rattle.dsc_outside.specs.Causes.{HasCauseOf};
ghost use Rattle.pull_outside.specs.Shelf.{Contents};
ghost use Rattle.pull_server.specs.Contents.{content_for};
ghost use Rattle.pull_server.specs.SeenContents.{IsSeen};
ghost use Rattle.pull_server.specs.Actions.{action_for, action_with, asks_unnamed, clients_of, detail_for, first_name, has_status, is_unnamed, node_status, status_with, with_name, without_checksum};

use crate::fetching::content;
use crate::seen::{Seen, is_same, known};
use mof_values::{Items, Text, is_spelled};
use pull_messages::{ActionAnswer, ActionQuery, Client, Detail};
use pull_outside::{Shelf, ShelfError};
use shared_key::read_checksum;
use std::alloc::{AllocError, Global};

/// Whether a client has an empty name, and the agent's names are not one.
pub fn asks_unnamed(names: &[Text], query: &ActionQuery) -> bool
    ensures { result ≡ asks_unnamed names.now query.now }
{
    if names.len() == 1 {
        return false;
    }
    has_unnamed(query.clients.as_slice())
}

fn has_unnamed(clients: &[Client]) -> bool
    ensures { result ≡ list_any is_unnamed clients.now }
{
    clients.iter().any(|client| is_unnamed(client))
}

fn is_unnamed(client: &Client) -> bool
    ensures { result ≡ is_unnamed client.now }
{
    client.name.as_slice().is_empty()
}

/// What an agent with these names is to do: a detail for each client of the query.
pub fn action<S: Shelf>(
    alloc: Global,
    shelf: &mut S,
    names: &[Text],
    query: &ActionQuery,
) -> Result<ActionAnswer, ShelfError>
    ensures action { IfOk result (λ answer. (contents : Contents)
        → S.holds shelf.old ≡ Some contents
        → answer ≡ action_for contents names.now query.now) }
    ensures same { S.holds shelf.new ≡ S.holds shelf.old }
    ensures cause { HasCauseOf ShelfError.Failed (S.faults shelf.old) (S.faults shelf.new) result }
{
    let clients = clients_of(alloc, names, query.clients.as_slice())?;
    let details = details(alloc, shelf, names, &clients)?;
    Ok(ActionAnswer {
        node: status_text(alloc, node_status(&details))?,
        details: Items::of(details),
    })
}

// The clients of a query; no clients stand for one of each name that holds nothing.
fn clients_of(alloc: Global, names: &[Text], clients: &[Client]) -> Result<Vec<Client>, AllocError>
    ensures { IfOk result (λ found. found.items ≡ clients_of names.now clients.now) }
{
    if clients.is_empty() {
        return unheld(alloc, names);
    }
    named(alloc, names, clients)
}

fn unheld(alloc: Global, names: &[Text]) -> Result<Vec<Client>, AllocError>
    ensures { IfOk result (λ found. found.items ≡ map without_checksum names.now) }
{
    let mut found = Vec::new(alloc);
    for name in names {
        found.push(without_checksum(alloc, name)?)?;
    }
    Ok(found)
}

fn without_checksum(alloc: Global, name: &Text) -> Result<Client, AllocError>
    ensures { IfOk result (λ client. client ≡ without_checksum name.now) }
{
    Ok(Client {
        checksum: Text::of(Vec::new(alloc)),
        name: name.clone()?,
    })
}

fn named(alloc: Global, names: &[Text], clients: &[Client]) -> Result<Vec<Client>, AllocError>
    ensures { IfOk result (λ found. found.items ≡ map (with_name names.now) clients.now) }
{
    let mut found = Vec::new(alloc);
    for client in clients {
        found.push(with_name(alloc, names, client)?)?;
    }
    Ok(found)
}

// An empty name stands for the agent's one name.
fn with_name(alloc: Global, names: &[Text], client: &Client) -> Result<Client, AllocError>
    ensures { IfOk result (λ found. found ≡ with_name names.now client.now) }
{
    if is_unnamed(client) {
        return Ok(Client {
            checksum: client.checksum.clone()?,
            name: first_name(alloc, names)?,
        });
    }
    client.clone()
}

fn first_name(alloc: Global, names: &[Text]) -> Result<Text, AllocError>
    ensures { IfOk result (λ name. name ≡ first_name names.now) }
{
    match names {
        [name, ..] => name.clone(),
        [] => Ok(Text::of(Vec::new(alloc))),
    }
}

// A detail for each client. A content of which several hold something is looked at once, or twice where the first holds nothing.
fn details<S: Shelf>(
    alloc: Global,
    shelf: &mut S,
    names: &[Text],
    clients: &[Client],
) -> Result<Vec<Detail>, ShelfError>
    ensures details { IfOk result (λ details. (contents : Contents)
        → S.holds shelf.old ≡ Some contents
        → details.items ≡ map (detail_for contents names.now) clients.now) }
    ensures same { S.holds shelf.new ≡ S.holds shelf.old }
    ensures cause { HasCauseOf ShelfError.Failed (S.faults shelf.old) (S.faults shelf.new) result }
{
    let mut details = Vec::new(alloc);
    let mut seen = Vec::new(alloc);
    for client in clients {
        details.push(detail_for(alloc, shelf, names, client, &mut seen)?)?;
    }
    Ok(details)
}

fn detail_for<S: Shelf>(
    alloc: Global,
    shelf: &mut S,
    names: &[Text],
    client: &Client,
    seen: &mut Vec<Seen>,
) -> Result<Detail, ShelfError>
    ensures detail { IfOk result (λ detail. (contents : Contents)
        → S.holds shelf.old ≡ Some contents
        → AllByRecursion (IsSeen contents names.now) seen.old.items
        → detail ≡ detail_for contents names.now client.now) }
    ensures seen { OnOk result ((contents : Contents)
        → S.holds shelf.old ≡ Some contents
        → AllByRecursion (IsSeen contents names.now) seen.old.items
        → AllByRecursion (IsSeen contents names.now) seen.new.items) }
    ensures same { S.holds shelf.new ≡ S.holds shelf.old }
    ensures cause { HasCauseOf ShelfError.Failed (S.faults shelf.old) (S.faults shelf.new) result }
{
    let status = status_for(alloc, shelf, names, client, seen)?;
    Ok(Detail {
        name: client.name.clone()?,
        status: status_text(alloc, status)?,
    })
}

// The status of a content that the agent may have, or of none, where it holds one of this checksum.
fn status_for<S: Shelf>(
    alloc: Global,
    shelf: &mut S,
    names: &[Text],
    client: &Client,
    seen: &mut Vec<Seen>,
) -> Result<&'static str, ShelfError>
    ensures status { IfOk result (λ status. (contents : Contents)
        → S.holds shelf.old ≡ Some contents
        → AllByRecursion (IsSeen contents names.now) seen.old.items
        → status.now ≡ status_with client.now.checksum (content_for contents names.now client.now.name)) }
    ensures seen { OnOk result ((contents : Contents)
        → S.holds shelf.old ≡ Some contents
        → AllByRecursion (IsSeen contents names.now) seen.old.items
        → AllByRecursion (IsSeen contents names.now) seen.new.items) }
    ensures same { S.holds shelf.new ≡ S.holds shelf.old }
    ensures cause { HasCauseOf ShelfError.Failed (S.faults shelf.old) (S.faults shelf.new) result }
{
    let text = client.checksum.to_utf8()?;
    let held = read_checksum(text.as_bytes());
    if let Some(same) = known(seen, &client.name, held) {
        return Ok(status_of(same));
    }
    let Some(content) = content(alloc, shelf, names, &client.name)? else {
        return Ok("RETRY");
    };
    let digest = digest_for(shelf, held, &content);
    let name = copied(&client.name)?;
    seen.push(Seen { name, digest })?;
    Ok(status_of(is_same(held, digest)))
}

fn copied(name: &Text) -> Result<Text, AllocError>
    ensures { IfOk result (λ copy. copy ≡ name.now) }
{
    name.clone()
}

fn status_of(same: bool) -> &'static str
    ensures { result.now ≡ (if same then codes "Ok" else codes "GetConfiguration") }
{
    if same { "Ok" } else { "GetConfiguration" }
}

// The digest of a content, where one is held.
fn digest_for<S: Shelf>(shelf: &mut S, held: Option<[u8; 32]>, content: &[u8]) -> Option<[u8; 32]>
    ensures digest { result ≡ option_map (λ digest. sha256 content.now) held }
    ensures same { S.holds shelf.new ≡ S.holds shelf.old }
    ensures faults { S.faults shelf.new ≡ S.faults shelf.old }
{
    match held {
        Some(_) => Some(shelf.digest(content)),
        None => None,
    }
}

// What the agent is to do as a whole.
fn node_status(details: &[Detail]) -> &'static str
    ensures { result.now ≡ node_status details.now }
{
    if has_status("GetConfiguration", details) {
        "GetConfiguration"
    } else if has_status("RETRY", details) {
        "RETRY"
    } else {
        "Ok"
    }
}

fn has_status(status: &str, details: &[Detail]) -> bool
    ensures { result ≡ has_status status.now details.now }
{
    details.iter().any(|detail| has_this_status(detail, status))
}

fn has_this_status(detail: &Detail, status: &str) -> bool
    ensures { result ≡ bytes_eq detail.now.status status.now }
{
    is_spelled(detail.status.as_slice(), status)
}

fn status_text(alloc: Global, status: &str) -> Result<Text, AllocError>
    ensures { IfOk result (λ text. text ≡ status.now) }
{
    Text::from_latin1(alloc, status.as_bytes())
}
