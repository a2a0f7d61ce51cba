//! What a node is asked to do.
use meta_config::Meta;
use mof_values::{Bytes, Text};
use node_state::Stage;

/// What a node is asked to do.
#[derive(Debug, Drop)]
pub enum Command {
    /// Become the node of this agent.
    Init(u128),

    /// Behave as this meta-configuration says; the server has not accepted the agent under it yet.
    Meta(Meta),

    /// Register the agent at the pull server, under this name of its node.
    Register(Text),

    /// Bring what the pull server has for the node: make a new list of parts Pending, and apply it.
    Pull,

    /// Make the document with these bytes Pending, and apply it; under a name, as the part of the partial configuration that has
    /// the name, over the parts of the others.
    Push(Option<Text>, Bytes),

    /// Apply Pending; without it, look after Current as the meta-configuration says.
    Consistency,

    /// The machine booted: do the same, also where a reboot was asked for.
    Boot,

    /// Print what the node is and holds.
    Get,

    /// Make a copy of Previous Pending, and apply it.
    Restore,

    /// Drop the parts that are kept there, if any.
    Remove(Stage),

    /// Print the reports that are kept, the oldest first.
    Reports,
}
