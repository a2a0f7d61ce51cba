//! What a command asks of a start.
ghost use Rattle.std.specs.Prelude.{◌≡◌};
ghost use Rattle.dsc_node.specs.Commands.{prints, runs};

use mof_values::{Bytes, Text};
use node_state::{Event, Staged};
use partial_merge::OrderedDocument;

/// What a command asks of a start: `preparing` has one for each command.
#[derive(Drop)]
pub(crate) struct Plan {
    /// What it needs of the node.
    pub(crate) needs: Needs,

    /// Whether it waits for the boot, where a reboot was asked for.
    pub(crate) waits: bool,

    /// Whether it reads the clock, which gives the time of its start.
    pub(crate) reads_clock: bool,

    /// What it brings first.
    pub(crate) brings: Bring,

    /// Whether it stops there, where a reboot was asked for and the node is to stop after it.
    pub(crate) stops: bool,

    /// What follows.
    pub(crate) follows: Follows,
}

impl Plan {
    /// Brings this, and prints a text.
    pub(crate) fn prints(needs: Needs, brings: Bring, text: Printed) -> Plan
        ensures { result ≡ prints needs brings text }
    {
        Plan {
            needs,
            waits: false,
            reads_clock: false,
            brings,
            stops: false,
            follows: Follows::Text(text),
        }
    }

    /// Brings this, and comes to a run.
    pub(crate) fn runs(needs: Needs, brings: Bring) -> Plan
        ensures { result ≡ runs needs brings }
    {
        Plan {
            needs,
            waits: true,
            reads_clock: true,
            brings,
            stops: false,
            follows: Follows::Run,
        }
    }
}

/// What a command needs of the node.
#[derive(Drop)]
pub(crate) enum Needs {
    /// It has no agent yet.
    NoAgent,

    /// It has an agent.
    Agent,

    /// An agent, and a server in its meta-configuration.
    Server,

    /// An agent, and a refresh mode that is not Disabled.
    Run,

    /// What a run needs, and that no partial configurations are declared.
    NoPartials,

    /// What a run needs, and a partial configuration that has this name, whose mode is Push.
    PushedPartial(Text),

    /// What a run needs, something to pull (the mode of a partial configuration is Pull, or, where none is declared, the refresh
    /// mode), a server to pull from that accepted the agent, and names to ask for.
    Pull,

    /// What a run needs, and that Previous is kept.
    Previous,
}

/// What a command brings, before anything follows.
#[derive(Drop)]
pub(crate) enum Bring {
    Nothing,

    /// This event.
    Event(Event),

    /// These parts are staged, which are merged to this document.
    Push {
        staged: Staged,
        document: OrderedDocument,
    },

    /// The part with these bytes, of the partial configuration that has the name, is laid over the parts that the node holds, and
    /// the list is staged.
    PushPart {
        name: Text,
        bytes: Bytes,
    },

    /// The boot is kept, where a reboot was asked for.
    Boot,

    /// The parts that the server has for the node are staged, where they are new.
    Pull,

    /// The agent is registered at the server, under this name of its node.
    Registration(Text),
}

/// What follows what a command brings.
#[derive(Clone, Copy)]
pub(crate) enum Follows {
    /// A run, if there is something to run.
    Run,

    /// A text is printed.
    Text(Printed),
}

/// What is printed where nothing is run.
#[derive(Clone, Copy)]
pub(crate) enum Printed {
    /// That all is done.
    Done,

    /// What the node is and holds.
    Node,

    /// The reports that are kept, the oldest first.
    Reports,
}
