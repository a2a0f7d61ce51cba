//! Registers a node's agent with the names of its meta-configuration.
ghost use Rattle.std.specs.Prelude.{◌≤◌};
ghost use Rattle.dsc_outside.specs.Clock.{last_moment};
ghost use Rattle.node_pull.specs.Registering.{Registers};
ghost use Rattle.dsc_outside.specs.Link.{GoesOn};
ghost use Rattle.dsc_outside.specs.LinkView.{view_of};

use crate::PullFault;
use crate::error::error_of;
use crate::names::registered_names;
use dsc_outside::Link;
use meta_config::{Meta, Server};
use mof_values::Text;
use pull_client::register;
use std::alloc::Global;

/// Registers the agent at the server under this name of its node, with the names of its meta-configuration, signed under the server's key at
/// that moment, in seconds since 1970-01-01T00:00:00Z.
///
/// # Errors
///
/// `Link` where the link failed; `Refused` with the answer, the first error of `pull_client::register` that holds.
/// `Memory` may come in the place of each, and before the request.
pub fn register_node<L: Link>(
    alloc: Global,
    link: &mut L,
    meta: &Meta,
    server: &Server,
    agent: u128,
    node_name: &Text,
    moment: u64,
) -> Result<(), PullFault>
    requires moment { moment ≤ last_moment }
    ensures registers { Registers meta.now server.now agent node_name.now moment
        (view_of L.Link link.old) (view_of L.Link link.new) result }
    ensures becomes { L.may_become link.old link.new }
    ensures goes_on { GoesOn (view_of L.Link link.old) (view_of L.Link link.new) }
{
    let names = registered_names(alloc, meta)?;
    match register(alloc, link, server, agent, node_name, &names, moment) {
        Ok(()) => Ok(()),
        Err(error) => Err(error_of(error)),
    }
}
