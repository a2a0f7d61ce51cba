//! Answers to queries: what agents shall do.
ghost use Rattle.std.specs.Prelude.{◌≡◌, IfOk, OnOk, map};
ghost use Rattle.std.specs.List.{zip};
ghost use Rattle.serde_json.specs.View.{view};
ghost use Rattle.pull_messages.specs.Bodies.{ReadsBy, Says};
ghost use Rattle.pull_messages.specs.Recoding.{recoded, recoded_detail};
ghost use Rattle.pull_messages.specs.Results.{Gives};
ghost use Rattle.pull_messages.specs.Tables.{action_of, detail};
ghost use Rattle.pull_messages.specs.Writing.{action_data, action_text, detail_data};

use crate::body::value_of;
use crate::lists::{each_optional, each_required, optional_objects};
use crate::members::{object, required_text};
use crate::values::text_value;
use crate::{Field, MessageError};
use mof_values::{Items, Memory, Text};
use serde_json::{Value, json};
use std::alloc::{AllocError, Global};

/// What an agent shall do, as a whole and for each configuration.
#[derive(Debug, Drop, PartialEq)]
pub struct ActionAnswer {
    pub node: Text,
    pub details: Items<Detail>,
}

/// What an agent shall do about one configuration.
#[derive(Debug, Drop, PartialEq)]
pub struct Detail {
    pub name: Text,
    pub status: Text,
}

/// Reads an answer to a query.
pub fn read_action(alloc: Global, body: &[u8]) -> Result<ActionAnswer, MessageError>
    ensures { ReadsBy action_of body.now result }
{
    action_in(alloc, &value_of(alloc, body)?)
}

#[tactic(auto, unfolding(crate::specs::Tables::action_of))]
fn action_in(alloc: Global, body: &Value) -> Result<ActionAnswer, MessageError>
    ensures { Gives (λ x. x) result (action_of (view body.now)) }
{
    let top = object(body, Field::Body)?;
    let node = required_text(alloc, top, Field::NodeStatus)?;
    let objects = optional_objects(top, Field::Details)?;
    let names = each_optional(alloc, objects, Field::ConfigurationName)?;
    let statuses = each_required(alloc, objects, Field::Status)?;
    Ok(ActionAnswer {
        node,
        details: Items::of(details(alloc, names, statuses)?),
    })
}

fn details(alloc: Global, names: Vec<Text>, statuses: Vec<Text>) -> Result<Vec<Detail>, AllocError>
    ensures { IfOk result (λ v. v.items ≡ map detail (zip names.items statuses.items)) }
{
    names
        .into_iter()
        .zip(statuses.into_iter())
        .map(|(name, status)| Detail { name, status })
        .collect(alloc)
}

/// Writes an answer as compact JSON, its members in byte order.
pub fn write_action(alloc: Global, x: &ActionAnswer) -> Result<Vec<u8>, Memory>
    ensures text { IfOk result (λ body. body.items ≡ action_text x.now) }
    ensures reads_back { IfOk result (λ body. Says action_of body.items (Ok x.now)) }
{
    Ok(action_value(alloc, x)?.to_vec(alloc)?)
}

fn action_value(alloc: Global, x: &ActionAnswer) -> Result<Value, AllocError>
    ensures value { IfOk result (λ value. view value ≡ action_data x.now) }
    ensures node { OnOk result (recoded x.now.node ≡ x.now.node) }
    ensures details { OnOk result (map recoded_detail x.now.details ≡ x.now.details) }
{
    let details = Value::Array(detail_values(alloc, x.details.as_slice())?);
    let node = text_value(&x.node)?;
    json!(in alloc; {"Details": details, "NodeStatus": node})
}

fn detail_values(alloc: Global, details: &[Detail]) -> Result<Vec<Value>, AllocError>
    ensures value { IfOk result (λ values. map view values.items ≡ map detail_data details.now) }
    ensures recoded { OnOk result (map recoded_detail details.now ≡ details.now) }
{
    let mut values = Vec::new(alloc);
    for detail in details {
        values.push(detail_value(alloc, detail)?)?;
    }
    Ok(values)
}

fn detail_value(alloc: Global, detail: &Detail) -> Result<Value, AllocError>
    ensures value { IfOk result (λ value. view value ≡ detail_data detail.now) }
    ensures recoded { OnOk result (recoded_detail detail.now ≡ detail.now) }
{
    let name = text_value(&detail.name)?;
    let status = text_value(&detail.status)?;
    json!(in alloc; {"ConfigurationName": name, "Status": status})
}
