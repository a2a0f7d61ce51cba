//! The replies to the targets of the fleet.
ghost use Rattle.std.specs.Prelude.{◌≡◌, IfOk, bytes_eq, codes, option_map};
ghost use Rattle.pull_store.specs.Laws.{body_under};
ghost use Rattle.fleet_view.specs.FleetReplies.{fleet_reply, kept_body, told};
ghost use Rattle.fleet_view.specs.Members.{members_of};

use crate::fleet::Fleet;
use http_frames::{Reply, Request};
use mof_values::Memory;
use pull_messages::FleetTarget;
use pull_server::{is_known, is_of_version, message_reply, plain};
use pull_store::{PullStore, StoredReport};
use std::alloc::Global;

/// Answers a request of that target.
#[tactic(auto, unfolding(crate::specs::FleetReplies::fleet_reply))]
pub fn fleet_reply(
    alloc: Global,
    store: &PullStore,
    fleet: &Fleet,
    request: &Request,
    target: FleetTarget,
) -> Result<Reply, Memory>
    requires { fleet.now.members ≡ members_of store.now.rows }
    ensures { IfOk result (λ reply. reply ≡ fleet_reply target request.now store.now.rows) }
{
    if !is_known(request.method.as_slice()) {
        return Ok(plain(alloc, 501));
    }
    if request.method.as_slice() != b"GET".as_slice() {
        return Ok(plain(alloc, 405));
    }
    if !is_of_version(request.headers.as_slice()) {
        return Reply::saying(alloc, 400, b"wrong ProtocolVersion");
    }
    told(alloc, store, fleet, target)
}

// What is there of the target.
fn told(
    alloc: Global,
    store: &PullStore,
    fleet: &Fleet,
    target: FleetTarget,
) -> Result<Reply, Memory>
    requires { fleet.now.members ≡ members_of store.now.rows }
    ensures { IfOk result (λ reply. reply ≡ told target store.now.rows) }
{
    match target {
        FleetTarget::Report(agent, job) => match kept_body(store, agent, job) {
            Some(body) => message_reply(alloc, body.to_vec(alloc)?),
            None => Ok(plain(alloc, 404)),
        },
        FleetTarget::Summary => message_reply(alloc, fleet.summary(alloc)?),
    }
}

// The body that is kept of a job of an agent.
fn kept_body(store: &PullStore, agent: u128, job: u128) -> Option<&[u8]>
    ensures { option_map (λ body. body.now) result ≡ kept_body agent job store.now.rows }
{
    match store.reports(agent) {
        Some(reports) => body_under(reports, job),
        None => None,
    }
}

fn body_under(reports: &[StoredReport], job: u128) -> Option<&[u8]>
    ensures { option_map (λ body. body.now) result ≡ body_under job reports.now }
{
    match reports {
        [] => None,
        [first, rest @ ..] => {
            if first.job == job {
                Some(first.body.as_slice())
            } else {
                body_under(rest, job)
            }
        }
    }
}
