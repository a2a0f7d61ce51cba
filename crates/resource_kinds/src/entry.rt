//! What a run keeps of each call: which resource was tested or set, and with which answer.
ghost use Rattle.std.specs.Prelude.{◌≡◌};

use mof_values::Ident;

/// Why a resource could not be tested or set.
#[derive(Clone, Debug, Drop, PartialEq)]
pub enum Failure {
    /// Its kind is not known.
    NoSuchResource,

    /// The property of this name, as it is spelled, is none of its kind, or its value may not stand there; or a key of
    /// this name is missing.
    OutOfProfile(Ident),

    /// The text of its destination is no path.
    BadPath,

    /// What stands at its path, or above it, is in the way of a Set.
    InTheWay,

    /// A call of the host failed.
    HostFailed,
}

impl Failure {
    ghost use Rattle.resource_kinds.specs.Names.{failure_name};

    pub fn name(&self) -> &'static str
        ensures { result.now ≡ failure_name self.now }
    {
        match self {
            Failure::NoSuchResource => "NoSuchResource",
            Failure::OutOfProfile(_) => "OutOfProfile",
            Failure::BadPath => "BadPath",
            Failure::InTheWay => "InTheWay",
            Failure::HostFailed => "HostFailed",
        }
    }
}

/// What the Test of a resource answers.
#[derive(Clone, Debug, Drop, PartialEq)]
pub enum TestAnswer {
    Yes,
    No,
    Fault(Failure),
    Memory,
}

/// What the Set of a resource answers.
#[derive(Clone, Debug, Drop, PartialEq)]
pub enum SetAnswer {
    Done,

    /// Done, and the machine has to be rebooted.
    Reboot,
    Fault(Failure),
    Memory,
}

/// One call of a run; `place` is the resource's place in the document, counted from 0.
#[derive(Debug, Drop, PartialEq)]
pub enum Entry {
    Tested { place: u32, answer: TestAnswer },
    Set { place: u32, answer: SetAnswer },
}

impl Entry {
    ghost use Rattle.resource_kinds.specs.Trace.{entry_is_yes, place_of};

    pub fn place(&self) -> u32
        ensures { result ≡ place_of self.now }
    {
        match self {
            Entry::Tested { place, .. } | Entry::Set { place, .. } => *place,
        }
    }
    /// Returns whether it is a Test that answered yes.
    pub fn is_yes(&self) -> bool
        ensures { result ≡ entry_is_yes self.now }
    {
        match self {
            Entry::Tested { answer, .. } => matches!(answer, TestAnswer::Yes),
            Entry::Set { .. } => false,
        }
    }
}
