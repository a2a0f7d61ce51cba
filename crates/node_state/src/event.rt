//! The events that change a node, the stages of its lists, and why an event is not allowed.
use crate::Staged;
use meta_config::Meta;
use report_log::Report;

/// What a node keeps parts in.
#[derive(Clone, Copy, Debug, PartialEq, Eq)]
pub enum Stage {
    Pending,
    Current,
    Previous,
}

/// What can happen to a node.
#[derive(Debug, Drop)]
pub enum Event {
    /// It becomes the node of an agent.
    Init(u128),

    /// It is given a meta-configuration.
    SetMeta(Meta),

    /// The server accepted the agent.
    Registered,

    /// It is given parts.
    Stage(Staged),

    /// Each resource of Pending succeeded.
    Promote(Report),

    /// A run ended that does not promote Pending, and in which no resource asked for a reboot.
    Note(Report),

    /// A run ended with a resource that asked for a reboot.
    AskReboot(Report),

    /// The machine booted.
    Boot,

    /// The server accepted the report of this job.
    Sent(u64),

    /// Parts are dropped.
    Remove(Stage),

    /// Previous is to be applied again.
    Restore,
}

/// Why an event, or a command, is not allowed.
#[derive(Clone, Copy, Debug, PartialEq, Eq)]
pub enum Why {
    /// The node has no agent.
    NoAgent,

    /// The node has an agent already.
    HasAgent,

    /// The refresh mode is Disabled.
    Disabled,

    /// The refresh mode is not Pull or, where partial configurations are declared, that of none of them is.
    NotPull,

    /// The meta-configuration has no server.
    NoServer,

    /// The server has not accepted the agent.
    NotRegistered,

    /// No partial configuration is declared, and not exactly one name.
    NoName,

    /// Partial configurations are declared, and none is named.
    PartsDeclared,

    /// No partial configuration has the name of the part.
    NoPartial,

    /// The mode of the partial configuration is not Push.
    PartNotPush,

    /// There is no Previous.
    NoPrevious,

    /// There is no Pending.
    NoPending,

    /// There is neither Pending nor Current.
    NoDocument,

    /// No reboot was asked for.
    NoReboot,

    /// The report's job is not the next one, or is 2^64 - 1.
    WrongJob,

    /// No report of this job is kept and unsent.
    NoReport,
}
