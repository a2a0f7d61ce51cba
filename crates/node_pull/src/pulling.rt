//! Pulls the parts of a node's configurations, with the packages that they name.
ghost use Rattle.std.specs.Prelude.{◌≡◌, ◌≤◌, IfOk, IfSome, Ok};
ghost use Rattle.meta_config.specs.Parts.{IsMeta};
ghost use Rattle.node_state.specs.Lists.{AreNamed};
ghost use Rattle.node_state.specs.Metas.{IsNodeMeta};
ghost use Rattle.node_state.specs.StagedParts.{parts_of};
ghost use Rattle.partial_merge.specs.Merged.{IsDocumentOf};
ghost use Rattle.node_pull.specs.Contents.{AreHeldOrAccepted};
ghost use Rattle.node_pull.specs.Listing.{Listed};
ghost use Rattle.node_pull.specs.Names.{CanAsk};
ghost use Rattle.node_pull.specs.Pulling.{Pulled, brought_of, list_of, parts_after};
ghost use Rattle.dsc_outside.specs.Link.{GoesOn, LinkView};
ghost use Rattle.dsc_outside.specs.LinkView.{view_of};

use crate::PullFault;
use crate::error::{error_of, staging_error};
use crate::listing::listed;
use crate::marks::{same_marks, same_parts};
use crate::modules::modules_of;
use crate::packages::packages;
use depend_order::OrderedDocument;
use dsc_outside::Link;
use meta_config::{Meta, Server};
use node_state::{Staged, staged_in_order};
use partial_merge::Part;
use resource_kinds::Machine;
use std::alloc::Global;

/// What a pull brings.
#[derive(Debug, Drop)]
pub struct PullOutcome {
    /// The new list of parts, where its names and digests are not those of the parts that are held.
    pub list: Option<Staged>,

    /// The document of the new list, or without one that of the parts that are held. It is not known where a part came again with other bytes
    /// under the digest that is held.
    pub document: Option<OrderedDocument>,
}

/// Asks the server once about the names of the meta-configuration whose parts are pulled, fetches each content that it is to
/// fetch, and each package that the machine does not have of those that the new list's document names; and gives the new list
/// of parts, where its names and digests are not those of the parts that are held, with the document that was merged for it.
///
/// # Errors
///
/// That of the first step that gives nothing, in this order: the request about the names and those for the contents
/// (`Link`, or `Refused` with the answer); the merge of the parts (`Refused` with `Document`, `Fit` or `ListTooLong`);
/// then for each package the look at the machine (`Host`), the request (`Link` or `Refused`) and the keeping (`Host`).
/// `Memory` may come in the place of each.
pub fn pull<L: Link, M: Machine>(
    alloc: Global,
    link: &mut L,
    machine: &mut M,
    meta: &Meta,
    server: &Server,
    agent: u128,
    held: &[Part],
) -> Result<PullOutcome, PullFault>
    requires meta { IsNodeMeta meta.now }
    requires names { CanAsk meta.now }
    ensures pulled { Pulled M.packages M.faults meta.now server.now agent held.now
        (view_of L.Link link.old) (view_of L.Link link.new) machine.old machine.new
        (list_of result) }
    ensures accepted { IfOk result (λ brought. IfSome brought.list (λ staged.
        AreHeldOrAccepted server.now agent held.now (view_of L.Link link.old)
        (view_of L.Link link.new) (parts_of staged))) }
    ensures document { IfOk result (λ brought.
        IfSome brought.document (IsDocumentOf (parts_after held.now brought.list))) }
    ensures goes_on { GoesOn (view_of L.Link link.old) (view_of L.Link link.new) }
    ensures becomes { L.may_become link.old link.new }
    ensures trace { M.trace machine.new ≡ M.trace machine.old }
    ensures changed { M.packages_changed machine.old machine.new }
    ensures later { M.faults machine.old ≤ M.faults machine.new }
{
    match listed(alloc, link, meta, server, agent, held) {
        Ok(parts) => brought(alloc, link, machine, meta, server, agent, held, parts),
        Err(error) => Err(error_of(error)),
    }
}

// Stages the parts, and brings them with the packages that their document names.
fn brought<L: Link, M: Machine>(
    alloc: Global,
    link: &mut L,
    machine: &mut M,
    meta: &Meta,
    server: &Server,
    agent: u128,
    held: &[Part],
    parts: Vec<Part>,
) -> Result<PullOutcome, PullFault>
    requires named { AreNamed parts.items }
    requires meta { IsMeta meta.now }
    ensures pulled { (before : LinkView) → Listed meta.now server.now agent held.now before
        (view_of L.Link link.old) (Ok parts.items)
        → Pulled M.packages M.faults meta.now server.now agent held.now before
        (view_of L.Link link.new) machine.old machine.new (list_of result) }
    ensures document { IfOk result (λ brought.
        IfSome brought.document (IsDocumentOf (parts_after held.now brought.list))) }
    ensures becomes { L.may_become link.old link.new }
    ensures trace { M.trace machine.new ≡ M.trace machine.old }
    ensures changed { M.packages_changed machine.old machine.new }
    ensures later { M.faults machine.old ≤ M.faults machine.new }
{
    let (staged, document) = match staged_in_order(alloc, meta, parts) {
        Ok(pair) => pair,
        Err(error) => return Err(staging_error(error)),
    };
    let modules = modules_of(alloc, &document.document)?;
    packages(alloc, link, machine, server, agent, &modules)?;
    Ok(brought_of(held, staged, document))
}

// The list and its document, where its names and digests are not those of the parts that are held; else the document, where it is theirs.
fn brought_of(held: &[Part], staged: Staged, document: OrderedDocument) -> PullOutcome
    requires document { IsDocumentOf (parts_of staged) document }
    ensures list { result.list ≡ brought_of held.now staged }
    ensures document { IfSome result.document (IsDocumentOf (parts_after held.now result.list)) }
{
    if !same_marks(held, staged.parts()) {
        return PullOutcome {
            list: Some(staged),
            document: Some(document),
        };
    }
    let document = if same_parts(held, staged.parts()) {
        Some(document)
    } else {
        None
    };
    PullOutcome {
        list: None,
        document,
    }
}
