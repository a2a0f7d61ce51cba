//! Where a plan is allowed, and where it waits or stops.
ghost use Rattle.std.specs.Prelude.{◌≡◌, option_copied};
ghost use Rattle.std.specs.List.{list_any};
ghost use Rattle.meta_config.specs.Parts.{is_pulled};
ghost use Rattle.node_state.specs.Table.{check};
ghost use Rattle.dsc_node.specs.Commands.{declares_partials, has_names, has_source, is_disabled, is_one, is_push, is_stop, pulls_some, stops, waits, why_no_agent, why_no_pull, why_no_push, why_no_run, why_not};

use crate::plan::{Needs, Plan};
use meta_config::{AfterReboot, Meta, Partial, RefreshMode};
use mof_values::Text;
use node_state::{Node, Why};

/// Why the node does not have what is needed, where it does not: the first condition that fails.
pub(crate) fn why_not(node: &Node, needs: &Needs) -> Option<Why>
    ensures { result ≡ why_not node.now needs.now }
{
    match needs {
        Needs::NoAgent => check(node.agent.is_none(), Why::HasAgent, None),
        Needs::Agent => why_no_agent(node, None),
        Needs::Server => {
            let served = node.meta.server.is_some();
            why_no_agent(node, check(served, Why::NoServer, None))
        }
        Needs::Run => why_no_run(node, None),
        Needs::NoPartials => {
            let whole = !declares_partials(node);
            why_no_run(node, check(whole, Why::PartsDeclared, None))
        }
        Needs::PushedPartial(name) => {
            let partial = node.meta.partial_named(name);
            why_no_run(node, why_no_push(&node.meta, partial))
        }
        Needs::Pull => why_no_run(node, why_no_pull(node)),
        Needs::Previous => {
            let kept = node.previous.is_some();
            why_no_run(node, check(kept, Why::NoPrevious, None))
        }
    }
}

fn why_no_agent(node: &Node, rest: Option<Why>) -> Option<Why>
    ensures { result ≡ why_no_agent node.now rest }
{
    check(node.agent.is_some(), Why::NoAgent, rest)
}

fn why_no_run(node: &Node, rest: Option<Why>) -> Option<Why>
    ensures { result ≡ why_no_run node.now rest }
{
    let enabled = !is_disabled(node.meta.refresh);
    why_no_agent(node, check(enabled, Why::Disabled, rest))
}

// What a push under a name asks after these, of the partial configuration that has the name, where one is declared.
fn why_no_push(meta: &Meta, partial: Option<&Partial>) -> Option<Why>
    ensures { result ≡ why_no_push meta.now (option_copied partial.entry) }
{
    match partial {
        Some(partial) => check(is_push(partial.mode(meta)), Why::PartNotPush, None),
        None => Some(Why::NoPartial),
    }
}

// What a pull asks after these.
fn why_no_pull(node: &Node) -> Option<Why>
    ensures { result ≡ why_no_pull node.now }
{
    let named = check(has_names(node), Why::NoName, None);
    let registered = check(node.registered, Why::NotRegistered, named);
    let served = check(has_source(node), Why::NoServer, registered);
    check(pulls_some(&node.meta), Why::NotPull, served)
}

fn check(holds: bool, why: Why, rest: Option<Why>) -> Option<Why>
    ensures { result ≡ check holds why rest }
{
    if holds { rest } else { Some(why) }
}

fn is_disabled(refresh: RefreshMode) -> bool
    ensures { result ≡ is_disabled refresh }
{
    match refresh {
        RefreshMode::Disabled => true,
        RefreshMode::Push | RefreshMode::Pull => false,
    }
}

fn is_push(refresh: RefreshMode) -> bool
    ensures { result ≡ is_push refresh }
{
    match refresh {
        RefreshMode::Push => true,
        RefreshMode::Pull | RefreshMode::Disabled => false,
    }
}

// There is something to pull.
fn pulls_some(meta: &Meta) -> bool
    ensures { result ≡ pulls_some meta.now }
{
    let partials = meta.partials.as_slice();
    if partials.is_empty() {
        meta.refresh.is_pull()
    } else {
        any_pulled(meta, partials)
    }
}

fn any_pulled(meta: &Meta, partials: &[Partial]) -> bool
    ensures { result ≡ list_any (is_pulled meta.now) partials.now }
{
    partials.iter().any(|partial| partial.is_pulled(meta))
}

// There are names to ask the server for.
fn has_names(node: &Node) -> bool
    ensures { result ≡ has_names node.now }
{
    declares_partials(node) || is_one(node.meta.names.as_slice())
}

fn is_one(names: &[Text]) -> bool
    ensures { result ≡ is_one names.now }
{
    matches!(names, [_])
}

// There is a server to pull from.
fn has_source(node: &Node) -> bool
    ensures { result ≡ has_source node.now }
{
    node.meta.server.is_some() && node.meta.pulls
}

fn declares_partials(node: &Node) -> bool
    ensures { result ≡ declares_partials node.now }
{
    !node.meta.partials.as_slice().is_empty()
}

/// Returns whether the plan waits for a reboot that was asked for.
pub(crate) fn waits(node: &Node, plan: &Plan) -> bool
    ensures { result ≡ waits node.now plan.now }
{
    plan.waits && node.reboot
}

/// Returns whether the plan stops: a boot that was asked for, after which the node is to stop.
pub(crate) fn stops(node: &Node, plan: &Plan) -> bool
    ensures { result ≡ stops node.now plan.now }
{
    plan.stops && is_stop(node.meta.after, node.reboot)
}

fn is_stop(after: AfterReboot, marked: bool) -> bool
    ensures { result ≡ is_stop after marked }
{
    match after {
        AfterReboot::ContinueConfiguration => false,
        AfterReboot::StopConfiguration => marked,
    }
}
