//! Sends the report of a run.
ghost use Rattle.std.specs.Prelude.{◌≡◌, true};
ghost use Rattle.dsc_outside.specs.LinkView.{view_of};
ghost use Rattle.pull_client.specs.Asks.{Asks};
ghost use Rattle.pull_client.specs.Heard.{IsDone};
ghost use Rattle.pull_client.specs.Requests.{report_request};

use crate::PeerError;
use crate::exchange::exchange;
use crate::requests::report_request;
use dsc_outside::Link;
use meta_config::Server;
use pull_messages::ReportMessage;
use std::alloc::Global;

/// Sends the server a report of the agent.
///
/// # Errors
///
/// Those of [`register`](crate::register), in the same order.
pub fn report<L: Link>(
    alloc: Global,
    link: &mut L,
    server: &Server,
    agent: u128,
    message: &ReportMessage,
) -> Result<(), PeerError>
    ensures asks { Asks server.now (report_request server.now agent message.now) IsDone
        (view_of L.Link link.old) (view_of L.Link link.new) result }
    ensures becomes { L.may_become link.old link.new }
    ensures unsent { server.now.https ≡ true → link.new ≡ link.old }
{
    if server.https {
        return Err(PeerError::NotServed);
    }
    let request = report_request(alloc, server, agent, message)?;
    exchange(alloc, link, server, &request)?;
    Ok(())
}
