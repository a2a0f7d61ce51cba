//! Registrations of agents.
ghost use Rattle.std.specs.Prelude.{◌≡◌, ◌≤◌, IfOk, OnOk, length, map};
ghost use Rattle.serde_json.specs.View.{view};
ghost use Rattle.pull_messages.specs.Bodies.{ReadsBy, Says};
ghost use Rattle.pull_messages.specs.Recoding.{recoded};
ghost use Rattle.pull_messages.specs.Results.{Gives};
ghost use Rattle.pull_messages.specs.Sizes.{IsSized, registration_size};
ghost use Rattle.pull_messages.specs.Tables.{registration_of};
ghost use Rattle.pull_messages.specs.Writing.{registration_data, registration_text};

use crate::body::value_of;
use crate::limits::Limit;
use crate::lists::optional_names;
use crate::members::{object, optional_text, required_member};
use crate::values::{text_value, texts_value};
use crate::{Field, MessageError};
use mof_values::{Items, Memory, Text};
use serde_json::{Value, json};
use std::alloc::{AllocError, Global};

/// What an agent says of itself, and the names of the configurations that it asks for.
#[derive(Clone, Debug, Drop, PartialEq)]
pub struct Registration {
    pub lcm_version: Text,
    pub node_name: Text,
    pub ip_address: Text,
    pub names: Items<Text>,
}

/// Reads a registration from the body of a request.
pub fn read_registration(alloc: Global, body: &[u8]) -> Result<Registration, MessageError>
    ensures answers { ReadsBy registration_of body.now result }
    ensures sized { IfOk result IsSized }
    ensures weighed { IfOk result (λ x. registration_size x ≤ length body.now) }
{
    registration_in(alloc, &value_of(alloc, body)?)
}

#[tactic(auto, unfolding(crate::specs::Tables::registration_of))]
fn registration_in(alloc: Global, body: &Value) -> Result<Registration, MessageError>
    ensures { Gives (λ x. x) result (registration_of (view body.now)) }
{
    let top = object(body, Field::Body)?;
    let agent = object(
        required_member(top, Field::AgentInformation)?,
        Field::AgentInformation,
    )?;
    let lcm_version = optional_text(alloc, agent, Field::LCMVersion, Limit::Short)?;
    let node_name = optional_text(alloc, agent, Field::NodeName, Limit::Short)?;
    let ip_address = optional_text(alloc, agent, Field::IPAddress, Limit::Short)?;
    let names = optional_names(alloc, top, Field::ConfigurationNames)?;
    Ok(Registration {
        lcm_version,
        node_name,
        ip_address,
        names,
    })
}

/// Writes a registration as compact JSON, its members in byte order.
pub fn write_registration(alloc: Global, x: &Registration) -> Result<Vec<u8>, Memory>
    ensures text { IfOk result (λ body. body.items ≡ registration_text x.now) }
    ensures reads_back { IfOk result (λ body. IsSized x.now
        → Says registration_of body.items (Ok x.now)) }
{
    Ok(registration_value(alloc, x)?.to_vec(alloc)?)
}

fn registration_value(alloc: Global, x: &Registration) -> Result<Value, AllocError>
    ensures value { IfOk result (λ value. view value ≡ registration_data x.now) }
    ensures version { OnOk result (recoded x.now.lcm_version ≡ x.now.lcm_version) }
    ensures node { OnOk result (recoded x.now.node_name ≡ x.now.node_name) }
    ensures address { OnOk result (recoded x.now.ip_address ≡ x.now.ip_address) }
    ensures names { OnOk result (map recoded x.now.names ≡ x.now.names) }
{
    let lcm_version = text_value(&x.lcm_version)?;
    let node_name = text_value(&x.node_name)?;
    let ip_address = text_value(&x.ip_address)?;
    let names = texts_value(alloc, &x.names)?;
    json!(in alloc; {
        "AgentInformation": {"IPAddress": ip_address, "LCMVersion": lcm_version, "NodeName": node_name},
        "ConfigurationNames": names,
        "RegistrationInformation": {"RegistrationMessageType": "ConfigurationRepository"}
    })
}
