//! Fetches the packages of modules, and keeps them on a machine.
ghost use Rattle.std.specs.Prelude.{◌≡◌, ◌≤◌};
ghost use Rattle.node_pull.specs.Packages.{OnePackage, Packages};
ghost use Rattle.dsc_outside.specs.LinkView.{view_of};

use crate::error::{error_of, host_error};
use crate::{Module, PullFault};
use dsc_outside::Link;
use meta_config::Server;
use pull_client::fetch_module;
use resource_kinds::Machine;
use std::alloc::Global;

/// Fetches each package that the machine does not have and keeps it there, one after the other, up to the first that does not come.
pub(crate) fn packages<L: Link, M: Machine>(
    alloc: Global,
    link: &mut L,
    machine: &mut M,
    server: &Server,
    agent: u128,
    modules: &[Module],
) -> Result<(), PullFault>
    ensures packages { Packages M.packages M.faults server.now modules.now (view_of L.Link link.old)
        (view_of L.Link link.new) machine.old machine.new result }
    ensures becomes { L.may_become link.old link.new }
    ensures trace { M.trace machine.new ≡ M.trace machine.old }
    ensures changed { M.packages_changed machine.old machine.new }
    ensures later { M.faults machine.old ≤ M.faults machine.new }
{
    let [wanted, rest @ ..] = modules else {
        return Ok(());
    };
    one_package(alloc, link, machine, server, agent, wanted)?;
    packages(alloc, link, machine, server, agent, rest)
}

// The package of one module.
fn one_package<L: Link, M: Machine>(
    alloc: Global,
    link: &mut L,
    machine: &mut M,
    server: &Server,
    agent: u128,
    wanted: &Module,
) -> Result<(), PullFault>
    ensures one { OnePackage M.packages M.faults server.now wanted.now (view_of L.Link link.old)
        (view_of L.Link link.new) machine.old machine.new result }
    ensures becomes { L.may_become link.old link.new }
    ensures trace { M.trace machine.new ≡ M.trace machine.old }
    ensures changed { M.packages_changed machine.old machine.new }
    ensures later { M.faults machine.old ≤ M.faults machine.new }
{
    let name = wanted.name.to_utf8()?;
    let version = wanted.version.to_utf8()?;
    match machine.package_has(&name, &version) {
        Ok(true) => return Ok(()),
        Ok(false) => {}
        Err(error) => return Err(host_error(error)),
    }
    match fetch_module(alloc, link, server, agent, &wanted.name, &wanted.version) {
        Ok(body) => match machine.package_put(&name, &version, &body) {
            Ok(()) => Ok(()),
            Err(error) => Err(host_error(error)),
        },
        Err(error) => Err(error_of(error)),
    }
}
