//! A change that is made to the rows in place, as an opening makes many.
ghost use Rattle.std.specs.Prelude.{◌≡◌, IfOk, OnOk, None, map, length, [], ◌≤◌};
ghost use Rattle.pull_store.specs.Rows.{after, after_registration, after_report, refusal, with_report};
ghost use Rattle.pull_store.specs.Steps.{agent_in, place_in};

use crate::change::{Change, Refusal};
use crate::limits::{MAX_REPORTS, MAX_ROWS};
use crate::row::{Row, StoredReport};
use crate::rows::{add, place_of_job};
use mof_values::{Bytes, Items};
use pull_messages::Registration;
use std::alloc::{AllocError, Global};
use std::mem;

/// The rows, and the agent of each beside them, which lie together, so that a look for one is short.
#[derive(Drop)]
pub struct GrowingRows {
    pub rows: Vec<Row>,
    agents: Vec<u128>,
    ghost beside: { agents.items ≡ map agent_in rows.items },
}

impl GrowingRows {
    pub fn new(alloc: Global) -> GrowingRows
        ensures { result.rows.items ≡ [] }
    {
        GrowingRows {
            rows: Vec::new(alloc),
            agents: Vec::new(alloc),
        }
    }

    /// Why the rows do not accept a change.
    pub fn refusal(&self, change: &Change) -> Option<Refusal>
        ensures { result ≡ refusal change.now self.now.rows.items }
    {
        match change {
            Change::Register {
                agent,
                registration: _,
            } => {
                if place_in(&self.agents, *agent) == self.rows.len()
                    && MAX_ROWS <= self.rows.len()
                {
                    return Some(Refusal::TooMany);
                }
            }
            Change::Report {
                agent,
                job: _,
                body: _,
            } => {
                if place_in(&self.agents, *agent) == self.rows.len() {
                    return Some(Refusal::Unknown);
                }
            }
        }
        None
    }

    /// Makes a change. Nothing that a row holds is copied.
    pub fn apply(&mut self, alloc: Global, change: Change) -> Result<(), AllocError>
        ensures { OnOk result (self.new.rows.items ≡ after change self.old.rows.items) }
    {
        match change {
            Change::Register {
                agent,
                registration,
            } => self.register(alloc, agent, registration),
            Change::Report { agent, job, body } => self.report(alloc, agent, job, body),
        }
    }

    fn register(
        &mut self,
        alloc: Global,
        agent: u128,
        registration: Registration,
    ) -> Result<(), AllocError>
        ensures { OnOk result (self.new.rows.items ≡ after_registration agent registration self.old.rows.items) }
    {
        let at = place_in(&self.agents, agent);
        if at < self.rows.len() {
            self.rows[at].registration = registration;
            return Ok(());
        }
        self.rows.reserve(1)?;
        self.agents.push(agent)?;
        add(&mut self.rows, new_row(alloc, agent, registration));
        Ok(())
    }

    fn report(
        &mut self,
        alloc: Global,
        agent: u128,
        job: u128,
        body: Bytes,
    ) -> Result<(), AllocError>
        ensures { OnOk result (self.new.rows.items ≡ after_report agent job body self.old.rows.items) }
    {
        let at = place_in(&self.agents, agent);
        if at < self.rows.len() {
            add_report(alloc, &mut self.rows[at], job, body)?;
        }
        Ok(())
    }
}

// The place of an agent, or the number of agents.
fn place_in(agents: &[u128], agent: u128) -> usize
    ensures place { result ≡ place_in agent agents.now }
    ensures within { result ≤ length agents.now }
{
    for at in 0..agents.len() {
        if agents[at] == agent {
            return at;
        }
    }
    agents.len()
}

fn new_row(alloc: Global, agent: u128, registration: Registration) -> Row
    ensures { result ≡ record { agent = agent; registration = registration; reports = [] } }
{
    Row {
        agent,
        registration,
        reports: Items::of(Vec::new(alloc)),
    }
}

// Adds a report to a row. Out of memory its other reports are gone.
fn add_report(alloc: Global, row: &mut Row, job: u128, body: Bytes) -> Result<(), AllocError>
    ensures agent { row.new.agent ≡ row.old.agent }
    ensures made { OnOk result (row.new ≡ record row.old { reports = with_report job body row.old.reports }) }
{
    let reports = mem::replace(&mut row.reports, Items::of(Vec::new(alloc)));
    row.reports = Items::of(with_report(reports.into_vec(), job, body)?);
    Ok(())
}

/// The reports after one more: it takes the place of the last one of its job, or comes after the newest.
pub fn with_report(
    mut reports: Vec<StoredReport>,
    job: u128,
    body: Bytes,
) -> Result<Vec<StoredReport>, AllocError>
    ensures { IfOk result (λ v. v.items ≡ with_report job body reports.items) }
{
    let at = place_of_job(&reports, job);
    if at < reports.len() {
        reports[at] = StoredReport { job, body };
        return Ok(reports);
    }
    let oldest = reports.len().saturating_sub(MAX_REPORTS - 1);
    reports.rotate_left(oldest);
    reports.truncate(reports.len() - oldest);
    reports.push(StoredReport { job, body })?;
    Ok(reports)
}
