//! What is counted of the agents of a store.
ghost use Rattle.std.specs.Prelude.{◌≡◌, ◌≤◌, IfOk, count_by, length};
ghost use Rattle.store_lines.specs.Gauges.{has_alarm, is_alarm_of, is_of, is_stale_one, standing_of, standings_of};

use crate::seen::{is_alarm_by, seen_of};
use crate::told::same_class;
use agent_class::Class;
use mof_values::{Items, Memory, Text};
use pull_store::Row;
use std::alloc::Global;

/// The class of an agent, and whether it is stale.
#[derive(Clone, Copy, Debug, PartialEq, Eq)]
pub struct Standing {
    pub class: Class,
    pub stale: bool,
}

/// The path of a store, and what is counted of its agents, where it was read.
#[derive(Drop)]
pub struct StoreStandings {
    pub path: Text,
    pub standings: Option<Items<Standing>>,
}

/// What is counted of the agents of these rows. An agent is stale where a moment is given, in seconds since 1970 by UTC, and its last
/// report does not say that it ended then or later.
pub fn standings_of(
    alloc: Global,
    since: Option<u64>,
    rows: &[Row],
) -> Result<Items<Standing>, Memory>
    ensures { IfOk result (λ standings. standings ≡ standings_of since rows.now) }
{
    let mut standings = Vec::new(alloc);
    for row in rows {
        standings.push(standing_of(alloc, since, row)?)?;
    }
    Ok(Items::of(standings))
}

#[tactic(auto, unfolding(crate::specs::Told::seen_of))]
fn standing_of(alloc: Global, since: Option<u64>, row: &Row) -> Result<Standing, Memory>
    ensures { IfOk result (λ standing. standing ≡ standing_of since row.now) }
{
    let seen = seen_of(alloc, since, row)?;
    Ok(Standing {
        class: seen.class,
        stale: seen.stale,
    })
}

/// Whether some agent failed, is silent or is stale.
pub fn has_alarm(standings: &[Standing]) -> bool
    ensures { result ≡ has_alarm standings.now }
{
    standings.iter().any(|standing| is_alarm_of(*standing))
}

fn is_alarm_of(standing: Standing) -> bool
    ensures { result ≡ is_alarm_of standing }
{
    is_alarm_by(standing.class, standing.stale)
}

/// How many agents are of that class.
pub(crate) fn count_of_class(standings: &[Standing], class: Class) -> usize
    ensures { result ≡ count_by (is_of class) standings.now }
{
    standings
        .iter()
        .filter(|standing| same_class(class, standing.class))
        .count()
}

/// How many agents are stale.
pub(crate) fn count_of_stale(standings: &[Standing]) -> usize
    ensures { result ≡ count_by is_stale_one standings.now }
{
    standings.iter().filter(|standing| standing.stale).count()
}
