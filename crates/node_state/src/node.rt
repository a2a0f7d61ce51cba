//! The state of a node.
use crate::SharedParts;
use meta_config::Meta;
use mof_values::Items;
use report_log::Report;

/// A report that the node keeps.
#[derive(Debug, Drop)]
pub struct Kept {
    pub report: Report,

    /// The server accepted it.
    pub sent: bool,
}

/// The state of a node.
#[derive(Debug, Drop)]
pub struct Node {
    /// The agent's identifier, once it has one.
    pub agent: Option<u128>,

    pub meta: Meta,

    /// The meta-configuration's server accepted the agent.
    pub registered: bool,

    /// The parts that are to be applied.
    pub pending: Option<SharedParts>,

    /// The parts that were applied last.
    pub current: Option<SharedParts>,

    /// The parts that were applied before these.
    pub previous: Option<SharedParts>,

    /// A reboot was asked for, and no boot came after it.
    pub reboot: bool,

    /// The number of the next report.
    pub next_job: u64,

    /// The newest `MAX_REPORTS`, the oldest first.
    pub reports: Items<Kept>,
}
