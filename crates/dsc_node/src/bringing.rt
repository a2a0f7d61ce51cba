//! What a command brings, before anything follows.
ghost use Rattle.std.specs.Prelude.{◌≡◌, ◌≤◌, None, IfOk, IfSome, option_map};
ghost use Rattle.meta_config.specs.Parts.{IsPartName};
ghost use Rattle.node_state.specs.Metas.{IsNodeMeta};
ghost use Rattle.node_state.specs.Sound.{Sound};
ghost use Rattle.node_state.specs.StagedParts.{parts_of};
ghost use Rattle.partial_merge.specs.Merged.{IsDocumentOf};
ghost use Rattle.partial_merge.specs.Parts.{text_part};
ghost use Rattle.dsc_outside.specs.Clock.{last_moment};
ghost use Rattle.dsc_outside.specs.LinkView.{view_of};
ghost use Rattle.dsc_node.specs.Bringing.{Brought, IsPull, IsPushedPart, IsRegistration, Lays, boot_of, event_by, held_of, list_by, registered_by, status_of_pull, status_of_unbrought};
ghost use Rattle.dsc_node.specs.Commands.{why_not};
ghost use Rattle.dsc_node.specs.Documents.{IsOfHeldAfter};
ghost use Rattle.dsc_node.specs.Plans.{CanBring};
ghost use Rattle.node_state.specs.Table.{IsWithin};

use crate::answer::status_of_staging;
use crate::plan::{Bring, Needs};
use crate::status::Status;
use depend_order::OrderedDocument;
use dsc_outside::Link;
use meta_config::Partial;
use mof_values::{Bytes, Text};
use node_pull::{PullFault, PullOutcome, lay_push, pull, register_node};
use node_state::{Event, Node, StageError, Staged};
use partial_merge::{Part, part_of};
use resource_kinds::Machine;
use std::alloc::Global;

/// What was brought.
#[derive(Debug, Drop)]
pub(crate) struct First {
    /// The event that comes first, if one does.
    pub(crate) event: Option<Event>,

    /// The document of the parts that the node holds after it, where it is known.
    pub(crate) document: Option<OrderedDocument>,
}

impl First {
    // An event that comes without a document.
    fn plain(event: Option<Event>) -> First
        ensures { result ≡ record { event = event; document = None } }
    {
        First {
            event,
            document: None,
        }
    }

    // The list that a pull brought is staged.
    fn pulled(brought: PullOutcome) -> First
        ensures { result
            ≡ record { event = option_map Event.Stage brought.list; document = brought.document } }
    {
        let PullOutcome { list, document } = brought;
        First {
            event: staging_event(list),
            document,
        }
    }
}

/// Why nothing was brought.
#[derive(Debug, Drop)]
pub(crate) enum Unbrought {
    /// The server did not give what it was asked for.
    Pull(PullFault),

    /// The parts that a pushed part comes to are not staged.
    Staging(StageError),
}

fn staging_event(list: Option<Staged>) -> Option<Event>
    ensures { result ≡ option_map Event.Stage list }
{
    match list {
        Some(staged) => Some(Event::Stage(staged)),
        None => None,
    }
}

/// Brings it: an event, if it comes to one, and the document of what is staged, where it is known. Only a pull and a registration ask the
/// server, only a pull adds packages to the machine, and only a pushed part is laid over others and may be refused for that.
pub(crate) fn bring<L: Link, M: Machine>(
    alloc: Global,
    brings: Bring,
    start: u64,
    node: &Node,
    link: &mut L,
    machine: &mut M,
) -> Result<First, Unbrought>
    requires sound { Sound node.now }
    requires fits { CanBring node.now brings }
    requires moment { start ≤ last_moment }
    ensures brought { Brought M.Resources M.Machine.own node.now brings start (view_of L.Link link.old)
        (view_of L.Link link.new) machine.old machine.new (event_by result) }
    ensures becomes { L.may_become link.old link.new }
    ensures within { IfOk result (λ first. IfSome first.event IsWithin) }
    ensures document { IfOk result (λ first.
        IfSome first.document (IsOfHeldAfter node.now first.event)) }
    ensures trace { M.trace machine.new ≡ M.trace machine.old }
    ensures packages { M.packages_changed machine.old machine.new }
    ensures later { M.faults machine.old ≤ M.faults machine.new }
{
    match brings {
        Bring::Nothing => Ok(First::plain(None)),
        Bring::Event(event) => Ok(First::plain(Some(event))),
        Bring::Push { staged, document } => Ok(First {
            event: Some(Event::Stage(staged)),
            document: Some(document),
        }),
        Bring::PushPart { name, bytes } => pushed(alloc, node, &name, bytes),
        Bring::Boot => Ok(First::plain(boot_event(node.reboot))),
        Bring::Pull => pulled(alloc, node, link, machine),
        Bring::Registration(name) => match registered(alloc, &name, start, node, link) {
            Ok(()) => Ok(First::plain(Some(Event::Registered))),
            Err(error) => Err(Unbrought::Pull(error)),
        },
    }
}

fn boot_event(marked: bool) -> Option<Event>
    ensures { result ≡ boot_of marked }
{
    if marked { Some(Event::Boot) } else { None }
}

// The list of the node's parts with the one that is pushed, of the partial configuration that has the name, is staged.
fn pushed(alloc: Global, node: &Node, name: &Text, bytes: Bytes) -> Result<First, Unbrought>
    requires sound { Sound node.now }
    requires allowed { why_not node.now (Needs.PushedPartial name.now) ≡ None }
    ensures brought { IsPushedPart node.now name.now bytes (event_by result) }
    ensures within { IfOk result (λ first. IfSome first.event IsWithin) }
    ensures document { IfOk result (λ first.
        IfSome first.document (IsOfHeldAfter node.now first.event)) }
{
    let Some(partial) = node.meta.partial_named(name) else {
        unreachable!()
    };
    match laid(alloc, node, partial, bytes) {
        Ok((staged, document)) => Ok(First {
            event: Some(Event::Stage(staged)),
            document: Some(document),
        }),
        Err(error) => Err(Unbrought::Staging(error)),
    }
}

// The part with these bytes of a partial configuration, under its name, laid over the parts that the node holds.
fn laid(
    alloc: Global,
    node: &Node,
    partial: &Partial,
    bytes: Bytes,
) -> Result<(Staged, OrderedDocument), StageError>
    requires meta { IsNodeMeta node.now.meta }
    requires declared { IsPartName node.now.meta.partials partial.now.name }
    ensures laid { Lays node.now (text_part partial.now.name bytes) (list_by result) }
    ensures document { IfOk result (λ pair. IsDocumentOf (parts_of pair.0) pair.1) }
{
    let name = partial.name.copy()?;
    let part = part_of(alloc, name, bytes)?;
    lay_push(alloc, &node.meta, part, held_of(node))
}

fn pulled<L: Link, M: Machine>(
    alloc: Global,
    node: &Node,
    link: &mut L,
    machine: &mut M,
) -> Result<First, Unbrought>
    requires sound { Sound node.now }
    requires allowed { why_not node.now Needs.Pull ≡ None }
    ensures brought { IsPull M.Machine.own M.Resources.faults node.now (view_of L.Link link.old)
        (view_of L.Link link.new) machine.old machine.new (event_by result) }
    ensures becomes { L.may_become link.old link.new }
    ensures within { IfOk result (λ first. IfSome first.event IsWithin) }
    ensures document { IfOk result (λ first.
        IfSome first.document (IsOfHeldAfter node.now first.event)) }
    ensures trace { M.trace machine.new ≡ M.trace machine.old }
    ensures packages { M.packages_changed machine.old machine.new }
    ensures later { M.faults machine.old ≤ M.faults machine.new }
{
    let (Some(server), Some(agent)) = (&node.meta.server, node.agent) else {
        unreachable!()
    };
    let held = held_of(node);
    match pull(alloc, link, machine, &node.meta, server, agent, held) {
        Ok(brought) => Ok(First::pulled(brought)),
        Err(error) => Err(Unbrought::Pull(error)),
    }
}

// Registers the node's agent at its server.
fn registered<L: Link>(
    alloc: Global,
    name: &Text,
    start: u64,
    node: &Node,
    link: &mut L,
) -> Result<(), PullFault>
    requires allowed { why_not node.now Needs.Server ≡ None }
    requires moment { start ≤ last_moment }
    ensures registers { IsRegistration node.now name.now start (view_of L.Link link.old)
        (view_of L.Link link.new) (registered_by result) }
    ensures becomes { L.may_become link.old link.new }
{
    let (Some(server), Some(agent)) = (&node.meta.server, node.agent) else {
        unreachable!()
    };
    register_node(alloc, link, &node.meta, server, agent, name, start)
}

// The parts that the node holds.
fn held_of(node: &Node) -> &[Part]
    ensures { result.now ≡ held_of node.now }
{
    match (&node.pending, &node.current) {
        (Some(parts), _) => parts.as_slice(),
        (None, Some(parts)) => parts.as_slice(),
        (None, None) => &[],
    }
}

/// The status of a start to which nothing was brought.
pub(crate) fn status_of_unbrought(error: Unbrought) -> Status
    ensures { result ≡ status_of_unbrought error }
{
    match error {
        Unbrought::Pull(error) => status_of_pull(error),
        Unbrought::Staging(error) => status_of_staging(error),
    }
}

// The status of a start to which the server did not give what it was asked for.
fn status_of_pull(error: PullFault) -> Status
    ensures { result ≡ status_of_pull error }
{
    match error {
        PullFault::Link => Status::LinkFault,
        PullFault::Host => Status::HostFault,
        PullFault::Refused(fault) => Status::PeerRefused(fault),
        PullFault::Memory => Status::Memory,
    }
}
