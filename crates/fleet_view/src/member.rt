//! What a fleet knows of an agent.
use agent_class::Class;

/// An agent and its class.
#[derive(Clone, Copy, Debug, PartialEq, Eq)]
pub struct Member {
    pub agent: u128,
    pub class: Class,
}
