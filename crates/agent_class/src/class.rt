//! The class of an agent.
ghost use Rattle.std.specs.Prelude.{◌≡◌, IfOk};
ghost use Rattle.agent_class.specs.Classes.{class_by, class_of_body, class_of_row as row_class};
ghost use Rattle.agent_class.specs.LastMessage.{class_told};

use crate::message::message_of;
use mof_values::{Memory, Text, is_named};
use pull_messages::ReportMessage;
use pull_store::Row;
use std::alloc::Global;

/// What the last report of an agent says.
#[derive(Clone, Copy, Debug, PartialEq, Eq)]
pub enum Class {
    /// The agent has sent no report.
    Silent,

    /// The Status is `Success`.
    Compliant,

    /// The Status is `Failure`.
    Failed,

    /// There is another Status, or what was sent is no report.
    Other,
}

/// The class of an agent whose last report has this body.
#[tactic(auto, using(crate::proofs::Classed::told_class))]
pub fn class_of(alloc: Global, body: &[u8]) -> Result<Class, Memory>
    ensures { IfOk result (λ class. class ≡ class_of_body body.now) }
{
    let message = message_of(alloc, body)?;
    Ok(class_told(&message))
}

/// The class that a message gives; what was sent is no report where there is none.
pub(crate) fn class_told(message: &Option<ReportMessage>) -> Class
    ensures { result ≡ class_told message.now }
{
    match message {
        Some(message) => class_by(&message.status),
        None => Class::Other,
    }
}

fn class_by(status: &Text) -> Class
    ensures { result ≡ class_by status.now }
{
    let chars = status.as_slice();
    if is_named(chars, "Success") {
        Class::Compliant
    } else if is_named(chars, "Failure") {
        Class::Failed
    } else {
        Class::Other
    }
}

/// The class of the agent of a row.
pub fn class_of_row(alloc: Global, row: &Row) -> Result<Class, Memory>
    ensures { IfOk result (λ class. class ≡ row_class row.now) }
{
    match row.reports.as_slice().last() {
        Some(report) => class_of(alloc, report.body.as_slice()),
        None => Ok(Class::Silent),
    }
}
