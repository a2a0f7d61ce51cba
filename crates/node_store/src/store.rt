//! The store of a node.
ghost use Rattle.std.specs.Prelude.{◌≡◌, ◌≤◌, ◌⊎◌, ℕ, Bool, List, false, true, IfErr, IfOk, OnErr, OnOk, None, length, option_map};
ghost use Rattle.gate_log.specs.Text.{IsLive, cells};
ghost use Rattle.gate_log.specs.Log.{AtAnyMoment, capacity_in};
ghost use Rattle.gate_log.specs.Standing.{StandsAtAnyMoment};
ghost use Rattle.node_state.specs.Supply.{Supplies};
ghost use Rattle.node_state.specs.Table.{IsWithin, refusal};
ghost use Rattle.node_store.specs.Bank.{blobs_of_bank};
ghost use Rattle.node_store.specs.Digests.{HaveOneDigest, texts_of_node};
ghost use Rattle.node_store.specs.Growing.{AllAmong};
ghost use Rattle.node_store.specs.Stands.{BeforeOrAfter, Stands};
ghost use Rattle.node_store.specs.Store.{AddsBodies, AreAdded, Committed, IsByDigests, IsKept, IsReady, IsRewritten, IsTextOf, MustRewrite, NeedsFormat, Supplied, TakesMemory, text_or};

use crate::bank::Bank;
use crate::error::StoreError;
use dsc_outside::{Disk, Failed};
use meta_config::write_meta;
use mof_values::Memory;
use node_state::{Event, Node, Room, Supply};
use std::alloc::Global;
use std::marker::Model;
use std::mem;

/// The state of a node, kept on a disk.
#[derive(Drop)]
pub struct NodeStore {
    alloc: Global,
    bank: Bank,
    node: Node,
    // the canonical text of the node's meta-configuration
    text: Vec<u8>,
    // capacity for the reports of the next node
    room: Option<Room>,
}

impl Model for NodeStore {
    ghost use Rattle.std.specs.Prelude.{◌≡◌, false, is_some};
    ghost use Rattle.meta_config.specs.Writing.{text_of_meta};
    ghost use Rattle.node_store.specs.Bank.{blobs_of_bank};
    ghost use Rattle.node_store.specs.Digests.{texts_of_node};
    ghost use Rattle.node_store.specs.Growing.{AllAmong};
    ghost use Rattle.node_store.specs.Store.{StoreTerm};

    ghost Value = { StoreTerm };

    ghost view = { λ s. record { log = s.bank.log; node = s.node; reserved = is_some s.room; blobs = blobs_of_bank s.bank } };

    ghost invariant = { λ s. (s.text.items ≡ text_of_meta s.node.meta)
        × (s.bank.log.spent ≡ false → AllAmong s.bank.texts (texts_of_node s.node)) };
}

impl NodeStore {
    /// A store of this bank and this node. The memory is the text of its meta-configuration.
    pub(crate) fn of(alloc: Global, bank: Bank, node: Node) -> Result<NodeStore, Memory>
        requires { AllAmong bank.texts (texts_of_node node) }
        ensures { IfOk result (λ store. store ≡ record { log = bank.log; node = node; reserved = false; blobs = blobs_of_bank bank }) }
    {
        let text = write_meta(alloc, &node.meta)?;
        Ok(NodeStore {
            alloc,
            bank,
            node,
            text,
            room: None,
        })
    }

    /// The state of the node. Takes no memory.
    pub fn state(&self) -> &Node
        ensures { result.now ≡ self.now.node }
    {
        &self.node
    }

    /// Whether a commit answered `Disk`; then the store must be opened again.
    pub fn is_spent(&self) -> bool
        ensures { result ≡ self.now.log.spent }
    {
        self.bank.is_spent()
    }

    /// Reserves the memory for the next report: after it the next commit of `Promote`, `Note` or `AskReboot` takes none. Commits of
    /// `Init`, `Registered`, `Boot`, `Sent` and `Remove` never take any.
    pub fn reserve(&mut self) -> Result<(), Memory>
        ensures reserved { OnOk result (self.new ≡ record self.old { reserved = true }) }
        ensures refused { OnErr result (self.new ≡ self.old) }
    {
        if self.room.is_none() {
            self.room = Some(Room::new(self.alloc)?);
        }
        Ok(())
    }

    /// Commits an event: one step of the node.
    ///
    /// A crash at any moment leaves the node before the event or after it; after `Ok` it leaves the node after it.
    ///
    /// An event is added to the live bank, to an empty one after a Format, so that it is of format 2, which has the bytes of equal parts
    /// once (nimchout-store(5)). A `Stage` in a bank of format 2 adds the bytes that the bank lacks, and then its parts' names and
    /// digests. Where the bank has no room, where a `Stage` has a part whose digest is that of other bytes of the bank, and for each
    /// `Stage` in a bank of format 1, the whole node after the event is written into the other bank instead, so a store never fills up.
    /// It is written in format 2, but in format 1 where two of its own parts have one SHA-256 digest and different bytes.
    ///
    /// # Errors
    ///
    /// The first of `Spent`, exactly where an earlier commit of this store answered `Disk`; `NotAllowed`, exactly where the node
    /// does not allow the event; `Memory`, which leaves store and disk untouched; `Disk`, which leaves the node as it was in memory.
    /// A store keeps the bytes of its node's parts, which both share, so a `Stage` takes memory.
    pub fn commit<D: Disk>(&mut self, disk: &mut D, event: Event) -> Result<(), StoreError>
        requires ready { IsReady D.Disk disk.old self.old }
        requires within { IsWithin event }
        ensures answer { Committed D.Disk self.old event disk.old disk.new result self.new }
        ensures ready { IsReady D.Disk disk.new self.new }
        ensures any_moment { IsKept D.Disk disk.old self.old
            → StandsAtAnyMoment D.Disk disk.old disk.new Stands
            (BeforeOrAfter self.old.node event) }
        ensures same_bank { IsKept D.Disk disk.old self.old
            → (added : List (List ℕ)) → AreAdded self.old.blobs self.old.node event added
            → length (cells added) ≤ capacity_in self.old.log
            → AtAnyMoment D.Disk disk.old disk.new (IsLive self.old.log.second) }
        ensures adds { IsKept D.Disk disk.old self.old
            → AddsBodies D.Disk disk.old disk.new self.old event result self.new }
        ensures format { IsKept D.Disk disk.old self.old
            → NeedsFormat self.old.blobs self.old.log self.old.node event
            → OnOk result (IsByDigests D.Disk disk.new self.new ⊎ HaveOneDigest (texts_of_node self.new.node)) }
        ensures rewrites { IsKept D.Disk disk.old self.old
            → MustRewrite self.old.blobs self.old.log self.old.node event
            → OnOk result (IsRewritten D.Disk disk.new self.old.log self.new.log self.new.blobs self.new.node) }
        ensures count { D.faults disk.old ≤ D.faults disk.new }
    {
        if self.bank.is_spent() {
            return Err(StoreError::Spent);
        }
        if let Some(why) = self.node.why(&event) {
            return Err(StoreError::NotAllowed(why));
        }
        let text = match text_of(self.alloc, &event) {
            Ok(text) => text,
            Err(Memory) => return Err(StoreError::Memory),
        };
        let supply = match self.supply(&event) {
            Ok(supply) => supply,
            Err(Memory) => return Err(StoreError::Memory),
        };
        let grown = match self.bank.grow(&event) {
            Ok(grown) => grown,
            Err(Memory) => return Err(StoreError::Memory),
        };
        let after = text_after(&text, &self.text);
        if let Err(Failed) = self.bank.write(disk, &self.node, &event, after, grown) {
            return Err(StoreError::Disk);
        }
        let node = mem::replace(&mut self.node, Node::new(self.alloc));
        self.node = node.apply(event, supply);
        if let Some(text) = text {
            self.text = text;
        }
        Ok(())
    }
}

impl NodeStore {
    // The memory that the event needs.
    fn supply(&mut self, event: &Event) -> Result<Supply, Memory>
        requires allowed { refusal self.old.node event.now ≡ None }
        ensures supplied { IfOk result (Supplies self.old.node event.now) }
        ensures same { Supplied self.old event.now result self.new }
    {
        match event {
            Event::Promote(_) | Event::Note(_) | Event::AskReboot(_) => match self.room.take() {
                Some(room) => Ok(Supply::Room(room)),
                None => self.node.supply(self.alloc, event),
            },
            Event::Restore => self.node.supply(self.alloc, event),
            _ => Ok(Supply::Nothing),
        }
    }
}

// The canonical text of the event's meta-configuration, where it brings one.
fn text_of(alloc: Global, event: &Event) -> Result<Option<Vec<u8>>, Memory>
    ensures text { IfOk result (λ text. IsTextOf event.now (option_map (λ text. text.items) text)) }
    ensures memory { IfErr result (λ error. (reserved : Bool) → TakesMemory reserved event.now) }
{
    match event {
        Event::SetMeta(meta) => Ok(Some(write_meta(alloc, meta)?)),
        _ => Ok(None),
    }
}

// The text that the event brings, or the one before it.
fn text_after<'a>(brought: &'a Option<Vec<u8>>, before: &'a Vec<u8>) -> &'a [u8]
    ensures { result.now ≡ text_or (option_map (λ text. text.items) brought.now) before.now.items }
{
    match brought {
        Some(text) => text,
        None => before,
    }
}
