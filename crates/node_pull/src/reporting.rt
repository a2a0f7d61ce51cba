//! The sending of reports.
ghost use Rattle.report_log.specs.Sizes.{ReportInSize};
ghost use Rattle.node_pull.specs.Reporting.{SendsReport};
ghost use Rattle.dsc_outside.specs.Link.{GoesOn};
ghost use Rattle.dsc_outside.specs.LinkView.{view_of};

use dsc_outside::Link;
use meta_config::Server;
use pull_client::{PeerError, message_of, report as send};
use report_log::Report;
use std::alloc::Global;

/// Sends the server the message of a report of the agent.
///
/// # Errors
///
/// Those of `pull_client::report`, in its order.
pub fn send_report<L: Link>(
    alloc: Global,
    link: &mut L,
    server: &Server,
    agent: u128,
    report: &Report,
) -> Result<(), PeerError>
    requires size { ReportInSize report.now }
    ensures sends { SendsReport server.now agent report.now
        (view_of L.Link link.old) (view_of L.Link link.new) result }
    ensures becomes { L.may_become link.old link.new }
    ensures goes_on { GoesOn (view_of L.Link link.old) (view_of L.Link link.new) }
{
    let message = message_of(alloc, report, agent)?;
    send(alloc, link, server, agent, &message)
}
