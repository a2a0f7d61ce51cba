//! Queries: what a node holds under the names of its configurations.
ghost use Rattle.std.specs.Prelude.{◌≡◌, IfOk, map};
ghost use Rattle.mof_values.specs.Fold.{same_name};
ghost use Rattle.pull_client.specs.Queries.{checksum_or_empty, client_of, held_under, query_of};

use mof_values::{Items, Text, folds_equal};
use pull_messages::{ActionQuery, Client};
use report_log::PartMark;
use shared_key::checksum_text;
use std::alloc::{AllocError, Global};

/// The query for these names, of a node that holds these parts.
pub fn query_of(alloc: Global, held: &[PartMark], names: &[Text]) -> Result<ActionQuery, AllocError>
    ensures { IfOk result (λ query. query ≡ query_of held.now names.now) }
{
    Ok(ActionQuery {
        clients: Items::of(clients(alloc, held, names)?),
    })
}

fn clients(alloc: Global, held: &[PartMark], names: &[Text]) -> Result<Vec<Client>, AllocError>
    ensures { IfOk result (λ clients. clients.items ≡ map (client_of held.now) names.now) }
{
    let mut clients = Vec::new(alloc);
    for name in names {
        clients.push(client_of(alloc, held, name)?)?;
    }
    Ok(clients)
}

fn client_of(alloc: Global, held: &[PartMark], name: &Text) -> Result<Client, AllocError>
    ensures { IfOk result (λ client. client ≡ client_of held.now name.now) }
{
    let checksum = checksum_or_empty(alloc, held_under(held, name))?;
    Ok(Client {
        checksum,
        name: name.clone()?,
    })
}

fn checksum_or_empty(alloc: Global, digest: Option<[u8; 32]>) -> Result<Text, AllocError>
    ensures { IfOk result (λ text. text ≡ checksum_or_empty digest) }
{
    match digest {
        Some(digest) => Text::from_latin1(alloc, &checksum_text(&digest)),
        None => Ok(Text::of(Vec::new(alloc))),
    }
}

/// The digest of the first part that is held under the name, by fold.
pub fn held_under(held: &[PartMark], name: &Text) -> Option<[u8; 32]>
    ensures { result ≡ held_under held.now name.now }
{
    let mut left = held;
    while let [part, rest @ ..] = left {
        if is_under(part, name) {
            return Some(part.digest);
        }
        left = rest;
    }
    None
}

// Names of parts compare by fold.
fn is_under(part: &PartMark, name: &Text) -> bool
    ensures { result ≡ same_name part.now.name name.now }
{
    folds_equal(part.name.as_slice(), name.as_slice())
}
