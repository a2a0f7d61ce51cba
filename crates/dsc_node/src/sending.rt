//! The sending of reports, at the end of a start.
ghost use Rattle.std.specs.Prelude.{◌≡◌, ◌<◌, ◌++◌, ℕ, Bool, false, true, List, Some, option_map, IfSome, codes, cond, string_bytes, IfErr, OnOk, Result, Ok, Err};
ghost use Rattle.report_log.specs.Sizes.{ReportInSize};
ghost use Rattle.node_state.specs.Sound.{Sound};
ghost use Rattle.node_store.specs.Store.{IsKept};
ghost use Rattle.node_pull.specs.Reporting.{SendsReport};
ghost use Rattle.dsc_outside.specs.LinkView.{view_of};
ghost use Rattle.dsc_node.specs.Path.{SendsOn};
ghost use Rattle.dsc_node.specs.Sending.{PrintsTried, attempt_of, not_accepted, Tried, ToSend, first_unsent, to_send, to_send_by, tried_line, unsent_count};

use crate::committing::commit;
use dsc_outside::{Disk, Link};
use meta_config::Server;
use node_pull::send_report;
use node_state::{Event, Kept, Node};
use node_store::{NodeStore, StoreError};
use pull_client::PeerError;
use report_log::Report;
use std::alloc::{AllocError, Global};

// A report that is to be sent, of the agent to the server.
#[derive(Drop)]
struct Next<'a> {
    server: &'a Server,
    agent: u128,
    report: &'a Report,
}

// What came of sending a report.
#[derive(Clone, Copy, Debug, PartialEq, Eq)]
pub(crate) enum Attempt {
    Accepted,
    NotAccepted,
    NoMemory,
}

/// Sends each report that was not sent, the oldest first, up to the first that the server does not accept, and appends a line for each that
/// was tried; where no report manager is declared or the node is not registered nothing is sent.
///
/// # Errors
///
/// Those of the commit that marks a report as sent; `Memory` also where it is refused for a request or a line.
pub(crate) fn send_reports<D: Disk, L: Link>(
    alloc: Global,
    store: &mut NodeStore,
    disk: &mut D,
    link: &mut L,
    lines: &mut String,
) -> Result<(), StoreError>
    requires kept { IsKept D.Disk disk.old store.old }
    ensures sends { (tried : Result (List Tried) StoreError) × PrintsTried tried result
        (string_bytes lines.old) (string_bytes lines.new) × SendsOn D.Disk disk.old disk.new
        store.old (view_of L.Link link.old) (view_of L.Link link.new) tried }
    ensures becomes { L.may_become link.old link.new }
{
    let Some(next) = to_send(store.state()) else {
        return Ok(());
    };
    let job = next.report.job;
    match try_report(alloc, link, next) {
        Attempt::Accepted => {}
        Attempt::NotAccepted => return print_tried(lines, job, false),
        Attempt::NoMemory => return Err(StoreError::Memory),
    }
    if let Err(error) = commit(store, disk, Event::Sent(job)) {
        return Err(error);
    }
    if let Err(error) = print_tried(lines, job, true) {
        return Err(error);
    }
    send_reports(alloc, store, disk, link, lines)
}

fn try_report<L: Link>(alloc: Global, link: &mut L, next: Next<'_>) -> Attempt
    requires size { ReportInSize next.report.now }
    ensures tried { (answer : Result (Unit {0}) PeerError) × SendsReport next.entry.server.now
        next.entry.agent next.entry.report.now (view_of L.Link link.old) (view_of L.Link link.new)
        answer × (result ≡ attempt_of answer) }
    ensures becomes { L.may_become link.old link.new }
{
    match send_report(alloc, link, next.server, next.agent, next.report) {
        Ok(()) => Attempt::Accepted,
        Err(error) => not_accepted(error),
    }
}

fn not_accepted(error: PeerError) -> Attempt
    ensures { result ≡ not_accepted error }
{
    match error {
        PeerError::Memory => Attempt::NoMemory,
        _ => Attempt::NotAccepted,
    }
}

fn to_send(node: &Node) -> Option<Next<'_>>
    ensures { option_map (λ next. record {
      server = next.server.now;
      agent = next.agent;
      report = next.report.now;
    }) result ≡ to_send node.now }
{
    if !(node.meta.reports && node.registered) {
        return None;
    }
    let server = node.meta.server.as_ref()?;
    let agent = node.agent?;
    let report = first_unsent(node.reports.as_slice())?;
    Some(Next {
        server,
        agent,
        report,
    })
}

fn first_unsent(reports: &[Kept]) -> Option<&Report>
    ensures { option_map (λ report. report.now) result ≡ first_unsent reports.now }
{
    let mut left = reports;
    while let [kept, later @ ..] = left {
        if !kept.sent {
            return Some(&kept.report);
        }
        left = later;
    }
    None
}

fn print_tried(lines: &mut String, job: u64, sent: bool) -> Result<(), StoreError>
    ensures printed { OnOk result (string_bytes lines.new
        ≡ string_bytes lines.old ++ tried_line (record { job = job; sent = sent })) }
    ensures memory { IfErr result (λ error. error ≡ StoreError.Memory) }
{
    match push_tried(lines, job, sent) {
        Ok(()) => Ok(()),
        Err(AllocError) => Err(StoreError::Memory),
    }
}

fn push_tried(lines: &mut String, job: u64, sent: bool) -> Result<(), AllocError>
    ensures { OnOk result (string_bytes lines.new
        ≡ string_bytes lines.old ++ tried_line (record { job = job; sent = sent })) }
{
    if sent {
        write!(lines, "report {job} sent\n")
    } else {
        write!(lines, "report {job} not sent\n")
    }
}
