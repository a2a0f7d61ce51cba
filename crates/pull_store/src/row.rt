//! What is kept of an agent.
use mof_values::{Bytes, Items};
use pull_messages::Registration;

/// A report that an agent sent, as it sent it.
#[derive(Clone, Debug, Drop, PartialEq)]
pub struct StoredReport {
    pub job: u128,
    pub body: Bytes,
}

/// An agent with its last registration and its reports, the newest last: at most four, of different jobs.
#[derive(Debug, Drop, PartialEq)]
pub struct Row {
    pub agent: u128,
    pub registration: Registration,
    pub reports: Items<StoredReport>,
}
