//! What an agent asks to be kept.
use mof_values::Bytes;
use pull_messages::Registration;

/// A registration, or a report of a job.
#[derive(Debug, Drop, PartialEq)]
pub enum Change {
    Register {
        agent: u128,
        registration: Registration,
    },
    Report {
        agent: u128,
        job: u128,
        body: Bytes,
    },
}

/// Why a change is not accepted.
#[derive(Clone, Copy, Debug, PartialEq, Eq)]
pub enum Refusal {
    /// A new agent, while there are 512 rows.
    TooMany,
    /// A report of an agent that has no row.
    Unknown,
}
