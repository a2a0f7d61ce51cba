//! The list of parts that a server's answers come to.
ghost use Rattle.std.specs.Prelude.{◌≡◌, ◌++◌, IfOk};
ghost use Rattle.pull_client.specs.Content.{items_in};
ghost use Rattle.node_state.specs.Lists.{AreNamed};
ghost use Rattle.node_state.specs.Metas.{IsNodeMeta};
ghost use Rattle.node_pull.specs.Contents.{ContentsAfter, to_fetch};
ghost use Rattle.node_pull.specs.Listing.{Fetched, Listed};
ghost use Rattle.node_pull.specs.Names.{CanAsk};
ghost use Rattle.dsc_outside.specs.LinkView.{view_of};

use crate::laying::laid_over;
use crate::marks::marks_of;
use crate::names::{asked_of, part_names};
use dsc_outside::Link;
use meta_config::{Meta, Server};
use mof_values::Text;
use partial_merge::Part;
use pull_client::{PeerError, ask, fetch};
use std::alloc::{AllocError, Global};

/// Asks the server once about the names of the meta-configuration whose parts are pulled, and fetches each content that
/// the server says is to be fetched. The list has the fetched parts, and for each other name the part that is held, where
/// there is one.
pub(crate) fn listed<L: Link>(
    alloc: Global,
    link: &mut L,
    meta: &Meta,
    server: &Server,
    agent: u128,
    held: &[Part],
) -> Result<Vec<Part>, PeerError>
    requires meta { IsNodeMeta meta.now }
    requires names { CanAsk meta.now }
    ensures listed { Listed meta.now server.now agent held.now (view_of L.Link link.old)
        (view_of L.Link link.new) (items_in result (λ v. v.items)) }
    ensures becomes { L.may_become link.old link.new }
    ensures named { IfOk result (λ parts. AreNamed parts.items) }
{
    let names = part_names(alloc, meta)?;
    let asked = asked_of(alloc, meta, &names)?;
    let marks = marks_of(alloc, held)?;
    let fetches = ask(alloc, link, server, agent, &marks, &asked)?;
    fetched(alloc, link, server, agent, held, &names, &asked, &fetches)
}

// The contents that are to be fetched, laid over the parts that are held.
fn fetched<L: Link>(
    alloc: Global,
    link: &mut L,
    server: &Server,
    agent: u128,
    held: &[Part],
    names: &[Text],
    asked: &[Text],
    fetches: &[bool],
) -> Result<Vec<Part>, PeerError>
    ensures fetched { Fetched server.now agent held.now names.now (to_fetch asked.now fetches.now)
        (view_of L.Link link.old) (view_of L.Link link.new) (items_in result (λ v. v.items)) }
    ensures becomes { L.may_become link.old link.new }
{
    let wanted = to_fetch(alloc, asked, fetches)?;
    let parts = contents(alloc, link, server, agent, &wanted, Vec::new(alloc))?;
    Ok(laid_over(alloc, names, &parts, held)?)
}

// Those of the names whose content is to be fetched.
fn to_fetch(alloc: Global, names: &[Text], fetches: &[bool]) -> Result<Vec<Text>, AllocError>
    ensures { IfOk result (λ wanted. wanted.items ≡ to_fetch names.now fetches.now) }
{
    let mut wanted = Vec::new(alloc);
    let (mut left, mut answers) = (names, fetches);
    while let ([name, rest @ ..], [fetch, others @ ..]) = (left, answers) {
        if *fetch {
            wanted.push(name.copy()?)?;
        }
        (left, answers) = (rest, others);
    }
    Ok(wanted)
}

// The contents of these names, after those of earlier ones.
fn contents<L: Link>(
    alloc: Global,
    link: &mut L,
    server: &Server,
    agent: u128,
    names: &[Text],
    mut earlier: Vec<Part>,
) -> Result<Vec<Part>, PeerError>
    ensures contents { ContentsAfter server.now agent names.now earlier.items
        (view_of L.Link link.old) (view_of L.Link link.new) (items_in result (λ v. v.items)) }
    ensures becomes { L.may_become link.old link.new }
{
    let [name, rest @ ..] = names else {
        return Ok(earlier);
    };
    let part = fetch(alloc, link, server, agent, name)?;
    earlier.push(part)?;
    contents(alloc, link, server, agent, rest, earlier)
}
