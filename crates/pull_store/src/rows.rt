//! Rows as a list.
ghost use Rattle.std.specs.Prelude.{◌≡◌, ◌++◌, ◌∷◌, [], ◌+◌, ◌<◌, ◌≤◌, IfOk, length, None, Some, option_map, vec_len, vec_capacity};
ghost use Rattle.std.specs.List.{AllByRecursion};
ghost use Rattle.pull_store.specs.Rows.{row_of, refusal};
ghost use Rattle.pull_store.specs.Sound.{IsRow};
ghost use Rattle.pull_store.specs.Steps.{agent_of, place_of, place_of_job, with_row, tail_of, reports_in, Makes};

use crate::applying::with_report;
use crate::change::{Change, Refusal};
use crate::limits::MAX_ROWS;
use crate::row::{Row, StoredReport};
use mof_values::{Bytes, Items};
use pull_messages::Registration;
use std::alloc::{AllocError, Global};

/// The row of an agent.
pub fn find(rows: &[Row], agent: u128) -> Option<&Row>
    ensures { option_map (λ row. row.now) result ≡ row_of agent rows.now }
{
    match rows {
        [] => None,
        [first, rest @ ..] => {
            if first.agent == agent {
                Some(first)
            } else {
                find(rest, agent)
            }
        }
    }
}

/// The place of an agent's row, or the number of rows.
pub fn place_of(rows: &[Row], agent: u128) -> usize
    ensures place { result ≡ place_of agent rows.now }
    ensures within { result ≤ length rows.now }
{
    match rows {
        [] => 0,
        [first, rest @ ..] => {
            if first.agent == agent {
                0
            } else {
                place_of(rest, agent) + 1
            }
        }
    }
}

/// Why the rows do not accept a change.
pub fn refusal(rows: &[Row], change: &Change) -> Option<Refusal>
    ensures { result ≡ refusal change.now rows.now }
{
    match change {
        Change::Register {
            agent,
            registration: _,
        } => {
            if find(rows, *agent).is_none() && MAX_ROWS <= rows.len() {
                return Some(Refusal::TooMany);
            }
        }
        Change::Report {
            agent,
            job: _,
            body: _,
        } => {
            if find(rows, *agent).is_none() {
                return Some(Refusal::Unknown);
            }
        }
    }
    None
}

/// Puts a row in the place of its agent's, or at the end.
pub fn place(rows: &mut Vec<Row>, row: Row)
    requires { vec_len rows.old < vec_capacity rows.old }
    ensures { rows.new.items ≡ with_row row rows.old.items }
{
    let at = place_of(rows, row.agent);
    if at < rows.len() {
        rows[at] = row;
    } else {
        add(rows, row);
    }
}

/// Puts a row at the end.
pub fn add(rows: &mut Vec<Row>, row: Row)
    requires { vec_len rows.old < vec_capacity rows.old }
    ensures { rows.new.items ≡ rows.old.items ++ row ∷ [] }
{
    match rows.push(row) {
        Ok(()) => {}
        Err(_) => unreachable!(),
    }
}

/// The rows in front of an agent's row, and those after it.
#[tactic(auto, using(crate::proofs::Placing::around_row, crate::proofs::Placing::around_sound, crate::proofs::Placing::around_short))]
pub fn around(rows: &[Row], agent: u128) -> (&[Row], &[Row])
    ensures parts { (row : Row) → row.agent ≡ agent → with_row row rows.now ≡ result.0.now ++ row ∷ result.1.now }
    ensures sound { AllByRecursion IsRow rows.now → AllByRecursion IsRow result.0.now × AllByRecursion IsRow result.1.now }
    ensures short { length result.0.now + length result.1.now ≤ length rows.now }
{
    let at = place_of(rows, agent);
    let (front, rest) = rows.split_at(at);
    (front, tail_of(rest))
}

#[tactic(auto, using(crate::proofs::Placing::tail_split))]
fn tail_of(rows: &[Row]) -> &[Row]
    ensures { result.now ≡ tail_of rows.now }
{
    match rows {
        [] => rows,
        [_, rest @ ..] => rest,
    }
}

/// What an accepted change makes of its agent's row.
pub fn row_after(alloc: Global, rows: &[Row], change: &Change) -> Result<Row, AllocError>
    requires { refusal change.now rows.now ≡ None }
    ensures { IfOk result (Makes change.now (row_of (agent_of change.now) rows.now)) }
{
    match change {
        Change::Register {
            agent,
            registration,
        } => registered(alloc, rows, *agent, registration),
        Change::Report { agent, job, body } => {
            let Some(row) = find(rows, *agent) else {
                unreachable!()
            };
            reported(alloc, row, *agent, *job, body)
        }
    }
}

fn registered(
    alloc: Global,
    rows: &[Row],
    agent: u128,
    registration: &Registration,
) -> Result<Row, AllocError>
    ensures { IfOk result (Makes (Change.Register agent registration.now) (row_of agent rows.now)) }
{
    let registration = registration.clone()?;
    let reports = reports_of(alloc, rows, agent)?;
    Ok(Row {
        agent,
        registration,
        reports,
    })
}

fn reported(
    alloc: Global,
    row: &Row,
    agent: u128,
    job: u128,
    body: &Bytes,
) -> Result<Row, AllocError>
    ensures { IfOk result (Makes (Change.Report agent job body.now) (Some row.now)) }
{
    let registration = row.registration.clone()?;
    let reports = copied(alloc, row.reports.as_slice())?;
    let reports = Items::of(with_report(reports, job, body.clone()?)?);
    Ok(Row {
        agent,
        registration,
        reports,
    })
}

// The reports that an agent's row holds, none where there is no row.
fn reports_of(alloc: Global, rows: &[Row], agent: u128) -> Result<Items<StoredReport>, AllocError>
    ensures { IfOk result (λ reports. reports ≡ reports_in (row_of agent rows.now)) }
{
    match find(rows, agent) {
        Some(row) => row.reports.clone(),
        None => Ok(Items::of(Vec::new(alloc))),
    }
}

/// The place of a job's report, or the number of reports.
pub fn place_of_job(reports: &[StoredReport], job: u128) -> usize
    ensures place { result ≡ place_of_job job reports.now }
    ensures within { result ≤ length reports.now }
{
    match reports {
        [] => 0,
        [first, rest @ ..] => {
            if first.job == job {
                0
            } else {
                place_of_job(rest, job) + 1
            }
        }
    }
}

fn copied(alloc: Global, reports: &[StoredReport]) -> Result<Vec<StoredReport>, AllocError>
    ensures { IfOk result (λ v. v.items ≡ reports.now) }
{
    let mut out = Vec::new(alloc);
    for report in reports {
        out.push(copy(report)?)?;
    }
    Ok(out)
}

fn copy(report: &StoredReport) -> Result<StoredReport, AllocError>
    ensures { IfOk result (λ r. r ≡ report.now) }
{
    report.clone()
}
