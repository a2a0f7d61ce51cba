//! The message of the last report of an agent.
ghost use Rattle.std.specs.Prelude.{◌≡◌, IfOk};
ghost use Rattle.agent_class.specs.Classes.{class_of_body, class_of_row};
ghost use Rattle.agent_class.specs.LastMessage.{last_message as message_of_row, message_of_body};

use crate::class::{Class, class_told};
use mof_values::Memory;
use pull_messages::{MessageError, ReportMessage, read_report};
use pull_store::Row;
use std::alloc::Global;

/// The message of the last report of the agent of a row; none where it sent none, or what was sent is no report.
pub fn last_message(alloc: Global, row: &Row) -> Result<Option<ReportMessage>, Memory>
    ensures { IfOk result (λ message. message ≡ message_of_row row.now) }
{
    match row.reports.as_slice().last() {
        Some(report) => message_of(alloc, report.body.as_slice()),
        None => Ok(None),
    }
}

/// The class of the agent of a row, and the message of its last report, as `class_of_row` and `last_message` have them; that report
/// is read once.
pub fn class_and_message(alloc: Global, row: &Row) -> Result<(Class, Option<ReportMessage>), Memory>
    ensures class { IfOk result (λ said. said.0 ≡ class_of_row row.now) }
    ensures message { IfOk result (λ said. said.1 ≡ message_of_row row.now) }
{
    let Some(report) = row.reports.as_slice().last() else {
        return Ok((Class::Silent, None));
    };
    class_and_message_in(alloc, report.body.as_slice())
}

/// The class that a report gives which was sent with this body, and its message, where it is one; the body is read once.
#[tactic(auto, using(crate::proofs::Classed::told_class))]
pub fn class_and_message_in(
    alloc: Global,
    body: &[u8],
) -> Result<(Class, Option<ReportMessage>), Memory>
    ensures class { IfOk result (λ said. said.0 ≡ class_of_body body.now) }
    ensures message { IfOk result (λ said. said.1 ≡ message_of_body body.now) }
{
    let message = message_of(alloc, body)?;
    Ok((class_told(&message), message))
}

/// The message that a report was sent as.
pub(crate) fn message_of(alloc: Global, body: &[u8]) -> Result<Option<ReportMessage>, Memory>
    ensures { IfOk result (λ message. message ≡ message_of_body body.now) }
{
    match read_report(alloc, body) {
        Ok(report) => Ok(Some(report)),
        Err(MessageError::Memory) => Err(Memory),
        Err(MessageError::Json) => Ok(None),
        Err(MessageError::Missing(_)) => Ok(None),
        Err(MessageError::Wrong(_)) => Ok(None),
    }
}
