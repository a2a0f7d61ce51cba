//! What is seen of an agent: its class, its last report, and whether it is stale.
ghost use Rattle.std.specs.Prelude.{◌≡◌, IfOk};
ghost use Rattle.store_lines.specs.Told.{is_alarm_by, is_alarm_seen, is_since, is_stale, seen_of};

use agent_class::{Class, class_and_message};
use agent_line::moment_in;
use mof_values::Memory;
use pull_messages::ReportMessage;
use pull_store::Row;
use std::alloc::Global;

/// What is seen of an agent.
#[derive(Drop)]
pub struct Seen {
    /// What its last report says.
    pub class: Class,

    /// That report, where it is one.
    pub message: Option<ReportMessage>,

    /// It does not say that it ended at the moment in question or later.
    pub stale: bool,
}

/// What is seen of the agent of a row. It is stale where a moment is given, in seconds since 1970 by UTC, and its last report does not
/// say that it ended then or later.
#[tactic(auto, unfolding(crate::specs::Told::seen_of))]
pub fn seen_of(alloc: Global, since: Option<u64>, row: &Row) -> Result<Seen, Memory>
    ensures { IfOk result (λ seen. seen ≡ seen_of since row.now) }
{
    let (class, message) = class_and_message(alloc, row)?;
    let stale = is_stale(since, &message)?;
    Ok(Seen {
        class,
        message,
        stale,
    })
}

/// Whether what is seen of an agent is an alarm: it failed, is silent or is stale.
#[tactic(auto, unfolding(crate::specs::Told::is_alarm_seen))]
pub fn is_alarm(seen: &Seen) -> bool
    ensures { result ≡ is_alarm_seen seen.now }
{
    is_alarm_by(seen.class, seen.stale)
}

/// Whether an agent of that class is an alarm.
pub(crate) fn is_alarm_by(class: Class, stale: bool) -> bool
    ensures { result ≡ is_alarm_by class stale }
{
    match class {
        Class::Failed | Class::Silent => true,
        Class::Compliant | Class::Other => stale,
    }
}

fn is_stale(since: Option<u64>, message: &Option<ReportMessage>) -> Result<bool, Memory>
    ensures { IfOk result (λ stale. stale ≡ is_stale since message.now) }
{
    match since {
        Some(since) => match message {
            Some(message) => Ok(!is_since(since, moment_in(&message.end)?)),
            None => Ok(true),
        },
        None => Ok(false),
    }
}

// Whether there is a moment, and it is this one or later.
fn is_since(since: u64, moment: Option<u64>) -> bool
    ensures { result ≡ is_since since moment }
{
    match moment {
        Some(moment) => since <= moment,
        None => false,
    }
}
