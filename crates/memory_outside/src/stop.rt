//! Stops in the middle of a call.

/// A stop: from a call on each call fails, and nothing more is done but the stated part of that first one. It leaves
/// its part also where it is in the list of those that are to fail.
#[derive(Clone, Copy, Debug, PartialEq, Eq)]
pub struct Stop {
    /// The number of the call that it comes in, counted from 0.
    pub call: u64,

    /// What that call still does, where it is a change.
    pub done: Done,
}

/// How much of a change is done where it is stopped.
#[derive(Clone, Copy, Debug, PartialEq, Eq)]
pub enum Done {
    Nothing,

    /// Of a file that is put, the first half of its bytes, rounded down; of any other change, the whole.
    Half,
    All,
}

/// How a change goes.
#[derive(Clone, Copy, Debug, PartialEq, Eq)]
pub enum Course {
    /// It is done.
    Runs,

    /// It fails, and nothing is done.
    Fails,

    /// It fails, and the first half is done.
    StopsHalf,

    /// It fails, and the whole is done.
    StopsWhole,
}
