//! Which agents a store is to forget.
ghost use Rattle.std.specs.Prelude.{◌≡◌, IfOk};
ghost use Rattle.store_lines.specs.Choice.{chosen_agents, ended_before, first_unknown, forgotten_text, has_row, is_among, is_before, is_chosen, is_silent_since, never_reported};

use crate::told::push_last;
use agent_class::last_message;
use agent_line::{moment_in, push_forgotten};
use mof_values::{Items, Memory, Text};
use pull_messages::ReportMessage;
use pull_store::{Row, StoredReport};
use std::alloc::Global;

/// Which agents are to be forgotten: each that one of these says.
#[derive(Drop)]
pub struct Choice {
    /// Those with these ids.
    pub agents: Items<u128>,

    /// Those whose last report ended more than so many days ago.
    pub silent_days: Option<u32>,

    /// Those that never reported.
    pub never_reported: bool,
}

/// Agents that are to be forgotten, and what is printed once they are.
#[derive(Drop)]
pub struct Forgotten {
    pub agents: Vec<u128>,
    pub text: Vec<u8>,
}

/// The first of these agents that has no row.
pub fn first_unknown(rows: &[Row], agents: &[u128]) -> Option<u128>
    ensures { result ≡ first_unknown rows.now agents.now }
{
    agents.iter().copied().find(|agent| !has_row(rows, *agent))
}

fn has_row(rows: &[Row], agent: u128) -> bool
    ensures { result ≡ has_row rows.now agent }
{
    rows.iter().any(|row| row.agent == agent)
}

/// The agents of these rows that are to be forgotten. Where a moment is given, in seconds since 1970 by UTC, these are also the agents
/// whose last report says that it ended before.
#[tactic(auto, using(std::proofs::lemmas::List::Elements::filter_more, std::proofs::lemmas::List::flat_map_more))]
pub fn choose(
    alloc: Global,
    store: &Text,
    choice: &Choice,
    since: Option<u64>,
    rows: &[Row],
) -> Result<Forgotten, Memory>
    ensures agents { IfOk result (λ forgotten. forgotten.agents.items
        ≡ chosen_agents choice.now since rows.now) }
    ensures text { IfOk result (λ forgotten. forgotten.text.items
        ≡ forgotten_text store.now choice.now since rows.now) }
{
    let mut agents = Vec::new(alloc);
    let mut text = Vec::new(alloc);
    for row in rows {
        if is_chosen(alloc, choice, since, row)? {
            agents.push(row.agent)?;
            push_forgotten(&mut text, alloc, store, row)?;
        }
    }
    let left = rows.len().saturating_sub(agents.len());
    push_last(&mut text, alloc, store, left)?;
    Ok(Forgotten { agents, text })
}

fn is_chosen(alloc: Global, choice: &Choice, since: Option<u64>, row: &Row) -> Result<bool, Memory>
    ensures { IfOk result (λ chosen. chosen ≡ is_chosen choice.now since row.now) }
{
    if is_among(choice.agents.as_slice(), row.agent) {
        return Ok(true);
    }
    if choice.never_reported && never_reported(row.reports.as_slice()) {
        return Ok(true);
    }
    is_silent_since(alloc, since, row)
}

fn is_among(agents: &[u128], agent: u128) -> bool
    ensures { result ≡ is_among agents.now agent }
{
    agents.iter().any(|named| *named == agent)
}

fn never_reported(reports: &[StoredReport]) -> bool
    ensures { result ≡ never_reported reports.now }
{
    match reports {
        [] => true,
        [_, ..] => false,
    }
}

fn is_silent_since(alloc: Global, since: Option<u64>, row: &Row) -> Result<bool, Memory>
    ensures { IfOk result (λ silent. silent ≡ is_silent_since since row.now) }
{
    match since {
        Some(since) => ended_before(since, &last_message(alloc, row)?),
        None => Ok(false),
    }
}

fn ended_before(since: u64, message: &Option<ReportMessage>) -> Result<bool, Memory>
    ensures { IfOk result (λ ended. ended ≡ ended_before since message.now) }
{
    match message {
        Some(message) => Ok(is_before(since, moment_in(&message.end)?)),
        None => Ok(false),
    }
}

fn is_before(since: u64, moment: Option<u64>) -> bool
    ensures { result ≡ is_before since moment }
{
    match moment {
        Some(moment) => moment < since,
        None => false,
    }
}
