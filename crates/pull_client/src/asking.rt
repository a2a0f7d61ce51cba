//! What a node asks its server about its configurations.
ghost use Rattle.std.specs.Prelude.{◌≡◌, IfOk, true};
ghost use Rattle.dsc_outside.specs.LinkView.{view_of};
ghost use Rattle.pull_client.specs.Asks.{Asks};
ghost use Rattle.pull_client.specs.Content.{items_in};
ghost use Rattle.pull_client.specs.Queries.{AreAnswers, Tells, query_of};
ghost use Rattle.pull_client.specs.Requests.{query_request};

use crate::PeerError;
use crate::exchange::exchange;
use crate::requests::query_request;
use crate::statuses::fetches_in;
use dsc_outside::Link;
use meta_config::Server;
use mof_values::Text;
use report_log::PartMark;
use std::alloc::Global;

/// Asks the server what is to be done about the configurations of these names, and gives for each name, in their order,
/// whether its content is to be fetched; where it is not, a part is held under the name. The query has the checksum of the
/// part that is held under each name.
///
/// # Errors
///
/// The first of these that holds: `NotServed` for a server of https, which is not asked; `Link` where the link failed;
/// `TooLong` where the answer is; `Frame` where it is no message of HTTP; `Status` where its code is not accepted;
/// `TooLong` where its body is longer than is read of an answer to a query; `Message` where its body is no such answer;
/// `Retry` or `Uncovered` with the first name of which the answer says so. `Memory` may come in the place of each but
/// the first.
pub fn ask<L: Link>(
    alloc: Global,
    link: &mut L,
    server: &Server,
    agent: u128,
    held: &[PartMark],
    names: &[Text],
) -> Result<Vec<bool>, PeerError>
    ensures asks { Asks server.now (query_request server.now agent (query_of held.now names.now))
        (Tells held.now names.now) (view_of L.Link link.old) (view_of L.Link link.new)
        (items_in result (λ v. v.items)) }
    ensures answers { IfOk result (λ fetches. AreAnswers held.now names.now fetches.items) }
    ensures becomes { L.may_become link.old link.new }
    ensures unsent { server.now.https ≡ true → link.new ≡ link.old }
{
    if server.https {
        return Err(PeerError::NotServed);
    }
    let request = query_request(alloc, server, agent, held, names)?;
    let reply = exchange(alloc, link, server, &request)?;
    fetches_in(alloc, &reply, held, names)
}
