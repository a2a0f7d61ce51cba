//! Pulls, and what comes of them as texts.
ghost use Rattle.std.specs.Prelude.{◌≡◌, IsTrue};
ghost use Rattle.std.specs.List.{list_any};
ghost use Rattle.meta_config.specs.Parts.{IsMeta, is_pulled};
ghost use Rattle.node_state.specs.Metas.{IsNodeMeta};
ghost use Rattle.node_pull.specs.Names.{CanAsk};

use super::made::{AGENT, Answer, Held, link, meta, parts};
use memory_outside::{MemoryHost, MemoryLink};
use meta_config::{Meta, Partial, parts_order};
use mof_values::Memory;
use node_pull::{PullFault, PullOutcome, pull};
use partial_merge::Part;
use resource_kinds::{Kinds, Machine};
use std::alloc::{AllocError, Global};

/// A meta-configuration, the parts that are held, what the server answers, the numbers of the exchanges that fail, how many there are, and
/// what comes of it: `nothing`, the names of the parts that are brought, or the error as `Debug` writes it.
pub type Row = (
    &'static str,
    &'static [Held],
    &'static [Answer],
    &'static [u64],
    usize,
    &'static str,
);

/// Returns whether a pull comes to what the row says.
pub fn comes_to(alloc: Global, row: &Row) -> bool {
    let (declared, held, answers, failing, exchanges, wanted) = *row;
    let Ok(mut link) = link(alloc, answers, failing) else {
        return false;
    };
    match outcome(alloc, &mut link, declared, held) {
        Ok(text) => link.exchanges().len() == exchanges && text.as_str() == wanted,
        Err(_) => false,
    }
}

fn outcome(
    alloc: Global,
    link: &mut MemoryLink,
    declared: &str,
    held: &[Held],
) -> Result<String, Memory> {
    let meta = meta(alloc, declared)?;
    let held = parts(alloc, held)?;
    let mut machine = Kinds::new(alloc, MemoryHost::new(Vec::new(alloc), Vec::new(alloc)));
    Ok(outcome_over(alloc, link, &mut machine, &meta, &held)?)
}

/// What comes of a pull on the machine.
pub fn outcome_over<M: Machine>(
    alloc: Global,
    link: &mut MemoryLink,
    machine: &mut M,
    meta: &Meta,
    held: &[Part],
) -> Result<String, AllocError>
    requires { IsMeta meta.now }
{
    if !can_ask(meta) {
        return String::from_str(alloc, "no name");
    }
    match parts_order(alloc, meta) {
        Ok(_) => of_node(alloc, link, machine, meta, held),
        Err(_) => String::from_str(alloc, "no order"),
    }
}

fn of_node<M: Machine>(
    alloc: Global,
    link: &mut MemoryLink,
    machine: &mut M,
    meta: &Meta,
    held: &[Part],
) -> Result<String, AllocError>
    requires meta { IsNodeMeta meta.now }
    requires names { CanAsk meta.now }
{
    match &meta.server {
        Some(server) => {
            let pulled = pull(alloc, link, machine, meta, server, AGENT, held);
            shown(alloc, &pulled)
        }
        None => String::from_str(alloc, "no server"),
    }
}

fn can_ask(meta: &Meta) -> bool
    ensures { IsTrue result → CanAsk meta.now }
{
    match meta.partials.as_slice() {
        [] => meta.names.as_slice().len() == 1,
        partials => is_any_pulled(meta, partials),
    }
}

fn is_any_pulled(meta: &Meta, partials: &[Partial]) -> bool
    ensures { result ≡ list_any (is_pulled meta.now) partials.now }
{
    partials.iter().any(|partial| partial.is_pulled(meta))
}

fn shown(alloc: Global, pulled: &Result<PullOutcome, PullFault>) -> Result<String, AllocError> {
    match pulled {
        Ok(
            PullOutcome {
                list: Some(staged),
                ..
            },
        ) => names_of(alloc, staged.parts()),
        Ok(PullOutcome { list: None, .. }) => String::from_str(alloc, "nothing"),
        Err(error) => format!(in alloc; "{error:?}"),
    }
}

/// The names of the parts, each with a `;`.
pub fn names_of(alloc: Global, parts: &[Part]) -> Result<String, AllocError> {
    let mut names = String::new(alloc);
    for part in parts {
        names.push_str(part.name.to_utf8()?.as_str())?;
        names.push(';')?;
    }
    Ok(names)
}
