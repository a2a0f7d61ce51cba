//! Queries of agents: what they hold, and what they shall do.
ghost use Rattle.std.specs.Prelude.{◌≡◌, ◌≤◌, IfOk, OnOk, length, map};
ghost use Rattle.std.specs.List.{zip};
ghost use Rattle.serde_json.specs.View.{view};
ghost use Rattle.pull_messages.specs.Bodies.{ReadsBy, Says};
ghost use Rattle.pull_messages.specs.declared.limits.TheConstants.{MAX_LIST_ITEMS};
ghost use Rattle.pull_messages.specs.Recoding.{recoded_client};
ghost use Rattle.pull_messages.specs.Results.{Gives};
ghost use Rattle.pull_messages.specs.Tables.{query_of, client};
ghost use Rattle.pull_messages.specs.Writing.{client_data, query_data, query_text};

use crate::body::value_of;
use crate::lists::{each_optional, required_objects, test_hashes};
use crate::members::object;
use crate::values::text_value;
use crate::{Field, MessageError};
use mof_values::{Items, Memory, Text};
use serde_json::{Value, json};
use std::alloc::{AllocError, Global};

/// What an agent holds.
#[derive(Debug, Drop, PartialEq)]
pub struct ActionQuery {
    pub clients: Items<Client>,
}

/// One configuration that an agent holds: the checksum of its document, empty where there is none, and its name.
#[derive(Clone, Debug, Drop, PartialEq)]
pub struct Client {
    pub checksum: Text,
    pub name: Text,
}

/// Reads a query from the body of a request.
pub fn read_query(alloc: Global, body: &[u8]) -> Result<ActionQuery, MessageError>
    ensures answers { ReadsBy query_of body.now result }
    ensures few { IfOk result (λ x. length x.clients ≤ MAX_LIST_ITEMS) }
{
    query_in(alloc, &value_of(alloc, body)?)
}

#[tactic(auto, unfolding(crate::specs::Tables::query_of))]
fn query_in(alloc: Global, body: &Value) -> Result<ActionQuery, MessageError>
    ensures { Gives (λ x. x) result (query_of (view body.now)) }
{
    let top = object(body, Field::Body)?;
    let objects = required_objects(top, Field::ClientStatus)?;
    let checksums = each_optional(alloc, objects, Field::Checksum)?;
    let names = each_optional(alloc, objects, Field::ConfigurationName)?;
    test_hashes(objects, Field::ChecksumAlgorithm)?;
    Ok(ActionQuery {
        clients: Items::of(clients(alloc, checksums, names)?),
    })
}

fn clients(alloc: Global, checksums: Vec<Text>, names: Vec<Text>) -> Result<Vec<Client>, AllocError>
    ensures { IfOk result (λ v. v.items ≡ map client (zip checksums.items names.items)) }
{
    checksums
        .into_iter()
        .zip(names.into_iter())
        .map(|(checksum, name)| Client { checksum, name })
        .collect(alloc)
}

/// Writes a query as compact JSON, its members in byte order.
pub fn write_query(alloc: Global, x: &ActionQuery) -> Result<Vec<u8>, Memory>
    ensures text { IfOk result (λ body. body.items ≡ query_text x.now) }
    ensures reads_back { IfOk result (λ body. length x.now.clients ≤ MAX_LIST_ITEMS
        → Says query_of body.items (Ok x.now)) }
{
    Ok(query_value(alloc, x)?.to_vec(alloc)?)
}

fn query_value(alloc: Global, x: &ActionQuery) -> Result<Value, AllocError>
    ensures value { IfOk result (λ value. view value ≡ query_data x.now) }
    ensures recoded { OnOk result (map recoded_client x.now.clients ≡ x.now.clients) }
{
    let clients = Value::Array(client_values(alloc, x.clients.as_slice())?);
    json!(in alloc; {"ClientStatus": clients})
}

fn client_values(alloc: Global, clients: &[Client]) -> Result<Vec<Value>, AllocError>
    ensures value { IfOk result (λ values. map view values.items ≡ map client_data clients.now) }
    ensures recoded { OnOk result (map recoded_client clients.now ≡ clients.now) }
{
    let mut values = Vec::new(alloc);
    for client in clients {
        values.push(client_value(alloc, client)?)?;
    }
    Ok(values)
}

fn client_value(alloc: Global, client: &Client) -> Result<Value, AllocError>
    ensures value { IfOk result (λ value. view value ≡ client_data client.now) }
    ensures recoded { OnOk result (recoded_client client.now ≡ client.now) }
{
    let checksum = text_value(&client.checksum)?;
    let name = text_value(&client.name)?;
    json!(in alloc; {"Checksum": checksum, "ChecksumAlgorithm": "SHA-256", "ConfigurationName": name})
}
