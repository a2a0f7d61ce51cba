//! The kinds of targets.
use mof_values::Text;

/// What a request is about.
#[derive(Debug, Drop, PartialEq)]
pub enum Target {
    /// The registration of an agent.
    Node(u128),

    /// What an agent shall do.
    Action(u128),

    /// The document of a configuration for an agent.
    Content(u128, Text),

    /// The package of a module, by its name and version.
    Module(Text, Text),

    /// A report of an agent.
    SendReport(u128),
}

/// What a request of two further forms is about: what the server tells of the agents.
#[derive(Clone, Copy, Debug, PartialEq, Eq)]
pub enum FleetTarget {
    /// A report that is kept of an agent, by its job.
    Report(u128, u128),

    /// The summary of all agents.
    Summary,
}
