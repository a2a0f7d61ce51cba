//! How the program ends.
ghost use Rattle.std.specs.Prelude.{◌≡◌};
ghost use Rattle.dsc_node.specs.Status.{name_of, number_of};

use config_script::CompileError;
use meta_config::MetaError;
use mof_codec::MofError;
use mof_values::Items;
use node_pull::PeerFault;
use node_state::{FitError, Why};
use partial_merge::MergeError;

/// Why the input was refused.
#[derive(Debug, Drop, PartialEq)]
pub enum InputError {
    /// It is longer than the command takes: 8,388,608 bytes of a document or of a configuration script, 262,144 bytes of a
    /// meta-configuration, 4,194,304 bytes of a rehearsal, 67,108,864 bytes for a checksum.
    TooLong,

    /// It spells no instances. `MofError::TooLong` and `MofError::Memory` are never reported so.
    Mof(MofError),

    /// It declares no document, or, pushed under a name, the list of parts that it comes to is merged to none: then parts and
    /// resources are counted in that list. `MergeError::Memory` is never reported so.
    Merge(MergeError),

    /// It declares no meta-configuration. `MetaError::Memory` is never reported so.
    Meta(MetaError),

    /// Its partial configurations have no order: each at these places depends on the next, and the last on the first.
    Parts(Items<u32>),

    /// The list of parts that it comes to, pushed under a name, does not fit the meta-configuration.
    Fit(FitError),

    /// That list has more than 16,777,216 bytes together: this many.
    ListTooLong { bytes: u64 },

    /// It is no script that gives the node a document. `CompileError::TooLong` and `CompileError::Memory` are never reported
    /// so.
    Compile(CompileError),

    /// It is no script of a rehearsal: the first line, counted from 0, that is in no form or names an unknown text, or the
    /// number of the lines where a text does not end.
    Script { line: u32 },
}

/// How the program ended.
#[derive(Debug, Drop, PartialEq)]
pub enum Status {
    Done,

    /// How many resources did not succeed: their last Test did not answer yes.
    NotCompliant { count: u32 },

    /// The arguments fit no command; `word` is the place of the first argument that no command goes on with, or their count.
    Usage { word: u32 },

    InputRefused(InputError),

    /// Reading the input failed.
    ReadFault,

    /// Writing the output failed.
    WriteFault,

    /// A call of the disk failed.
    DiskFault,

    /// The clock's first reading failed.
    ClockFault,

    /// The link to the pull server failed.
    LinkFault,

    /// A call on the host's packages failed.
    HostFault,

    /// The disk holds no store of a node; `at` is the first byte at which it is none.
    NotAStore { at: u64 },

    /// What the pull server gave is refused.
    PeerRefused(PeerFault),

    /// The node does not allow the command, or the event that it came to.
    NotAllowed(Why),

    /// A reboot was asked for, and the command waits for the boot.
    RebootWaiting,

    /// The Set of the resource at this place asked for a reboot; `now` says whether the node is to reboot at once.
    RebootAsked { index: u32, now: bool },

    /// Memory ran out.
    Memory,
}

impl Status {
    /// The name of the status, without its values.
    pub fn name(&self) -> &'static str
        ensures { result.now ≡ name_of self.now }
    {
        match self {
            Status::Done => "Done",
            Status::NotCompliant { .. } => "NotCompliant",
            Status::Usage { .. } => "Usage",
            Status::InputRefused(_) => "InputRefused",
            Status::ReadFault => "ReadFault",
            Status::WriteFault => "WriteFault",
            Status::DiskFault => "DiskFault",
            Status::ClockFault => "ClockFault",
            Status::LinkFault => "LinkFault",
            Status::HostFault => "HostFault",
            Status::NotAStore { .. } => "NotAStore",
            Status::PeerRefused(_) => "PeerRefused",
            Status::NotAllowed(_) => "NotAllowed",
            Status::RebootWaiting => "RebootWaiting",
            Status::RebootAsked { .. } => "RebootAsked",
            Status::Memory => "Memory",
        }
    }

    /// The exit status of the program.
    pub fn number(&self) -> u8
        ensures { result ≡ number_of self.now }
    {
        match self {
            Status::Done => 0,
            Status::NotCompliant { .. } => 1,
            Status::Usage { .. } => 2,
            Status::InputRefused(_) => 3,
            Status::ReadFault
            | Status::WriteFault
            | Status::DiskFault
            | Status::ClockFault
            | Status::LinkFault
            | Status::HostFault => 4,
            Status::NotAStore { .. } => 5,
            Status::PeerRefused(_) => 6,
            Status::NotAllowed(_) => 7,
            Status::Memory => 8,
            Status::RebootWaiting => 9,
            Status::RebootAsked { now: false, .. } => 10,
            Status::RebootAsked { now: true, .. } => 11,
        }
    }
}
