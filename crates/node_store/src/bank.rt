//! The bank of a store: how an event is added to it, or the whole node after it written into the other one.
ghost use Rattle.std.specs.Prelude.{◌≡◌, ◌≤◌, ◌↔◌, ◌++◌, ℕ, List, Option, IfErr, IfOk, IsTrue, OnOk, None, length, vec_capacity};
ghost use Rattle.gate_log.specs.Kept.{IsKeptBy, WroteBy};
ghost use Rattle.gate_log.specs.Text.{IsLive, cells};
ghost use Rattle.gate_log.specs.Log.{AtAnyMoment, IsLogOf, capacity_in};
ghost use Rattle.gate_log.specs.Standing.{StandsAtAnyMoment};
ghost use Rattle.meta_config.specs.Writing.{text_of_meta};
ghost use Rattle.node_state.specs.Table.{IsWithin, after, refusal};
ghost use Rattle.node_store.specs.Bank.{BankTerm, Grew, HasFormat, IsBankOf, blobs_as, blobs_of_bank};
ghost use Rattle.node_store.specs.Bodies.{IsEventInRange};
ghost use Rattle.node_store.specs.Digests.{Blobs, texts_of_node};
ghost use Rattle.node_store.specs.Growing.{AllAmong, bytes_in};
ghost use Rattle.node_store.specs.Stands.{BeforeOrAfter, LeadsIn, Stands, node_shape};
ghost use Rattle.node_store.specs.Store.{AreAdded, IsEmptyBank, IsRewritten, IsStage, MustRewrite, NeedsFormat};
ghost use Rattle.node_store.specs.Whole.{AreBlobsOf, blobs_of};
ghost use Rattle.node_store.specs.declared.limits.TheConstants.{MAX_BODY};

use crate::adding::{add, has_room, spell};
use crate::blob::Blob;
use crate::blobs::Blobs;
use crate::kept_node::KeptNode;
use crate::limits::MAX_BODY;
use crate::next::{agent_after, current_after, pending_after, previous_after};
use crate::whole::Whole;
use dsc_outside::{Disk, Failed};
use gate_log::{Log, rewrite};
use mof_values::Memory;
use node_state::{Event, Node};
use std::alloc::Global;
use std::marker::Model;

/// The live bank of a store.
#[derive(Drop)]
pub struct Bank {
    log: Log,
    // capacity for the longest body
    body: Vec<u8>,
    // the texts of the node's parts, and of others: the Blobs of the bank, where it is of format 2
    texts: Blobs,
    // whether it is of format 2
    by_digests: bool,
}

impl Model for Bank {
    ghost use Rattle.std.specs.Prelude.{◌≤◌, vec_capacity};
    ghost use Rattle.node_store.specs.Bank.{BankTerm};
    ghost use Rattle.node_store.specs.declared.limits.TheConstants.{MAX_BODY};

    ghost Value = { BankTerm };

    ghost view = { λ b. record { log = b.log; texts = b.texts; by_digests = b.by_digests } };

    ghost invariant = { λ b. MAX_BODY ≤ vec_capacity b.body };
}

impl Bank {
    /// A bank of this log and these texts, of which format it is. The memory is capacity for the longest body.
    pub fn of(alloc: Global, log: Log, texts: Blobs, by_digests: bool) -> Result<Bank, Memory>
        ensures { IfOk result (λ bank. bank ≡ record { log = log; texts = texts; by_digests = by_digests }) }
    {
        let body = Vec::with_capacity(alloc, MAX_BODY)?;
        Ok(Bank {
            log,
            body,
            texts,
            by_digests,
        })
    }

    /// Whether a write answered `Failed`.
    pub fn is_spent(&self) -> bool
        ensures { result ≡ self.now.log.spent }
    {
        self.log.is_spent()
    }

    /// Keeps the texts of the event's parts. Answers from which place on they are the Blobs that the bank lacks; none where the event is
    /// a Stage that may not be added: in format 1, and where its list collides with the bank.
    pub fn grow(&mut self, event: &Event) -> Result<Option<usize>, Memory>
        ensures grew { IfOk result (λ grown. Grew self.old event.now grown self.new) }
        ensures refused { IfErr result (λ error. IsStage event.now × (self.new ≡ self.old)) }
    {
        let from = self.texts.len();
        let Event::Stage(staged) = event else {
            return Ok(Some(from));
        };
        let apart = self.texts.hold(staged.parts())?;
        Ok((self.by_digests & apart).then_some(from))
    }

    /// Writes the event, where `grow` answered that it may be added and the bank has room, or else the whole node after it; `text` is the
    /// canonical text of the meta-configuration after it.
    pub fn write<D: Disk>(
        &mut self,
        disk: &mut D,
        node: &Node,
        event: &Event,
        text: &[u8],
        grown: Option<usize>,
    ) -> Result<(), Failed>
        requires allowed { refusal node.now event.now ≡ None }
        requires within { IsWithin event.now }
        requires kept { (old : BankTerm) × Grew old event.now grown self.old × IsBankOf D.Disk disk.old old node.now }
        requires there { AllAmong self.old.texts (texts_of_node (after node.now event.now)) }
        requires text { text.now ≡ text_of_meta (after node.now event.now).meta }
        ensures answer { WroteBy D.Disk disk.old disk.new node_shape (LeadsIn (blobs_of_bank self.new)) (after node.now event.now) self.new.log result }
        ensures there { OnOk result (AllAmong self.new.texts (texts_of_node (after node.now event.now))) }
        ensures any_moment { StandsAtAnyMoment D.Disk disk.old disk.new Stands (BeforeOrAfter node.now event.now) }
        ensures same_bank { (old : BankTerm) → Grew old event.now grown self.old → (added : List (List ℕ)) → AreAdded (blobs_of_bank old) node.now event.now added → length (cells added) ≤ capacity_in self.old.log → AtAnyMoment D.Disk disk.old disk.new (IsLive self.old.log.second) }
        ensures adds { (old : BankTerm) → Grew old event.now grown self.old → (added bodies : List (List ℕ)) → AreAdded (blobs_of_bank old) node.now event.now added → length (cells added) ≤ capacity_in self.old.log → IsLogOf D.Disk disk.old self.old.log bodies → OnOk result (IsLogOf D.Disk disk.new self.new.log (bodies ++ added)) }
        ensures rewrites { (old : BankTerm) → Grew old event.now grown self.old → MustRewrite (blobs_of_bank old) self.old.log node.now event.now → OnOk result (IsRewritten D.Disk disk.new self.old.log self.new.log (blobs_of_bank self.new) (after node.now event.now)) }
        ensures format { (old : BankTerm) → Grew old event.now grown self.old → NeedsFormat (blobs_of_bank old) self.old.log node.now event.now → OnOk result (HasFormat self.new (after node.now event.now)) }
        ensures count { D.faults disk.old ≤ D.faults disk.new }
    {
        spell(&mut self.body, event, text);
        let length = self.body.as_slice().len() - 4;
        let Some(from) = grown else {
            return self.rewrite(disk, node, event, text);
        };
        let empty = self.is_empty(node);
        let lacking = self.texts.since(from);
        if !has_room(&self.log, empty, lacking, length) {
            return self.rewrite(disk, node, event, text);
        }
        let result = add(
            &mut self.log,
            disk,
            &mut self.body,
            empty,
            lacking,
            event,
            text,
        );
        self.texts.clear_if(empty);
        self.by_digests |= empty;
        result
    }

    // Whether the bank has no bodies: one of format 1 has none exactly where its node has no agent.
    fn is_empty(&self, node: &Node) -> bool
        ensures { IsTrue result ↔ IsEmptyBank (blobs_of_bank self.now) node.now }
    {
        !self.by_digests && node.agent.is_none()
    }

    // Writes the whole node after the event into the other bank: in format 2, or in format 1 where two of its texts have one digest.
    fn rewrite<D: Disk>(
        &mut self,
        disk: &mut D,
        node: &Node,
        event: &Event,
        text: &[u8],
    ) -> Result<(), Failed>
        requires allowed { refusal node.now event.now ≡ None }
        requires within { IsWithin event.now }
        requires range { IsEventInRange event.now }
        requires kept { (blobs : Option Blobs) × IsKeptBy D.Disk disk.old node_shape (LeadsIn blobs) self.old.log node.now }
        requires there { AllAmong self.old.texts (texts_of_node (after node.now event.now)) }
        requires text { text.now ≡ text_of_meta (after node.now event.now).meta }
        ensures answer { WroteBy D.Disk disk.old disk.new node_shape (LeadsIn (blobs_of_bank self.new)) (after node.now event.now) self.new.log result }
        ensures there { AllAmong self.new.texts (texts_of_node (after node.now event.now)) }
        ensures any_moment { StandsAtAnyMoment D.Disk disk.old disk.new Stands (BeforeOrAfter node.now event.now) }
        ensures rewrites { OnOk result (IsRewritten D.Disk disk.new self.old.log self.new.log (blobs_of_bank self.new) (after node.now event.now)) }
        ensures format { HasFormat self.new (after node.now event.now) }
        ensures count { D.faults disk.old ≤ D.faults disk.new }
    {
        let apart = self.texts.keep(
            pending_after(node, event),
            current_after(node, event),
            previous_after(node, event),
        );
        self.by_digests = apart;
        let blobs = given(apart, self.texts.since(0));
        write_whole(
            &mut self.log,
            disk,
            &mut self.body,
            node,
            event,
            text,
            blobs,
        )
    }
}

// The list, where it is to be given.
fn given(is_given: bool, list: &[Blob]) -> Option<&[Blob]>
    ensures { blobs_of result ≡ blobs_as is_given (bytes_in list.now) }
{
    if is_given { Some(list) } else { None }
}

// Writes the node after the event into the other bank, in format 2 where its Blobs are given.
fn write_whole<D: Disk>(
    log: &mut Log,
    disk: &mut D,
    buffer: &mut Vec<u8>,
    node: &Node,
    event: &Event,
    text: &[u8],
    blobs: Option<&[Blob]>,
) -> Result<(), Failed>
    requires allowed { refusal node.now event.now ≡ None }
    requires within { IsWithin event.now }
    requires range { IsEventInRange event.now }
    requires kept { (old : Option Blobs) × IsKeptBy D.Disk disk.old node_shape (LeadsIn old) log.old node.now }
    requires blobs { AreBlobsOf (blobs_of blobs) (after node.now event.now) }
    requires text { text.now ≡ text_of_meta (after node.now event.now).meta }
    requires capacity { MAX_BODY ≤ vec_capacity buffer.old }
    ensures answer { WroteBy D.Disk disk.old disk.new node_shape (LeadsIn (blobs_of blobs.entry)) (after node.now event.now) log.new result }
    ensures any_moment { StandsAtAnyMoment D.Disk disk.old disk.new Stands (BeforeOrAfter node.now event.now) }
    ensures rewrites { OnOk result (IsRewritten D.Disk disk.new log.old log.new (blobs_of blobs.entry) (after node.now event.now)) }
    ensures count { D.faults disk.old ≤ D.faults disk.new }
    ensures capacity { MAX_BODY ≤ vec_capacity buffer.new }
{
    let Some(agent) = agent_after(node, event) else {
        unreachable!()
    };
    let mut whole = Whole::after(node, event, agent, text, blobs);
    rewrite::<KeptNode, D, Whole<'_>>(log, disk, buffer, &mut whole)
}
