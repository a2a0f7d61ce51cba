//! Registers an agent.
ghost use Rattle.std.specs.Prelude.{◌≡◌, ◌≤◌, true, Some, List, ℕ};
ghost use Rattle.dsc_outside.specs.LinkView.{view_of};
ghost use Rattle.pull_client.specs.Asks.{Asks};
ghost use Rattle.pull_client.specs.Heard.{IsDone};
ghost use Rattle.dsc_outside.specs.Clock.{last_moment};
ghost use Rattle.pull_client.specs.Moments.{IsMomentText};
ghost use Rattle.pull_client.specs.Requests.{registration_of, registration_request};

use crate::PeerError;
use crate::exchange::exchange;
use crate::moments::moment_text;
use crate::requests::registration_request;
use dsc_outside::Link;
use meta_config::Server;
use mof_values::Text;
use std::alloc::Global;

/// Registers the agent with these names of configurations, signed under the server's key at that moment, in seconds
/// since 1970-01-01T00:00:00Z.
///
/// # Errors
///
/// The first of these that holds: `NotServed` for a server of https, which is sent nothing; `Link` where the link failed;
/// `TooLong` where the answer is; `Frame` where it is no message of HTTP; `Status` where its code is not accepted.
/// `Memory` may come in the place of each but the first.
pub fn register<L: Link>(
    alloc: Global,
    link: &mut L,
    server: &Server,
    agent: u128,
    node_name: &Text,
    names: &[Text],
    moment: u64,
) -> Result<(), PeerError>
    requires { moment ≤ last_moment }
    ensures asks { (date : List ℕ) × IsMomentText (Some 7) moment date
        × Asks server.now
        (registration_request server.now agent (registration_of node_name.now names.now) date)
        IsDone (view_of L.Link link.old) (view_of L.Link link.new) result }
    ensures becomes { L.may_become link.old link.new }
    ensures unsent { server.now.https ≡ true → link.new ≡ link.old }
{
    register_at(
        alloc,
        link,
        server,
        agent,
        node_name,
        names,
        moment_text(moment, 7).as_str().as_bytes(),
    )
}

fn register_at<L: Link>(
    alloc: Global,
    link: &mut L,
    server: &Server,
    agent: u128,
    node_name: &Text,
    names: &[Text],
    date: &[u8],
) -> Result<(), PeerError>
    ensures asks { Asks server.now
        (registration_request server.now agent (registration_of node_name.now names.now) date.now)
        IsDone (view_of L.Link link.old) (view_of L.Link link.new) result }
    ensures becomes { L.may_become link.old link.new }
    ensures unsent { server.now.https ≡ true → link.new ≡ link.old }
{
    if server.https {
        return Err(PeerError::NotServed);
    }
    let request = registration_request(alloc, server, agent, node_name, names, date)?;
    exchange(alloc, link, server, &request)?;
    Ok(())
}
