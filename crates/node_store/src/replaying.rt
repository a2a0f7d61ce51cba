//! The bodies of a bank, of either format, taken one after the other while a store is opened.
ghost use Rattle.std.specs.Prelude.{◌≡◌, [], None, OnOk, Some};
ghost use Rattle.node_state.specs.Sound.{Sound};
ghost use Rattle.node_store.specs.declared.format.Format.TheVariants as formats;
ghost use Rattle.node_store.specs.Digests.{kind_of};
ghost use Rattle.node_store.specs.Known.{AreKnown};
ghost use Rattle.node_store.specs.Taking.{is_by_digests, Apart, ReachedIn, TookFirst, TookMarked};

use crate::blobs::Blobs;
use crate::format::Format;
use crate::kinds::{after_kind, is_format, is_plain, kind_of};
use crate::known_list::KnownList;
use crate::lists::{keep, known_as};
use crate::resolving::{slot_named, staged_by};
use crate::taking::Taking;
use gate_log::{Replay, TakeError};
use mof_values::Memory;
use node_state::{Node, Piece};
use std::alloc::Global;
use store_fields::FieldError;

/// The node that the bodies of a bank lead to, and of which format the bank is.
#[derive(Drop)]
pub struct Replaying {
    alloc: Global,
    pub(crate) taking: Taking,
    // of which format the bank is, after its first body
    pub(crate) format: Option<Format>,
    pub(crate) blobs: Blobs,
    // the lists that bodies named by digests
    pub(crate) known: Vec<KnownList>,
}

impl Replaying {
    /// Nothing was taken.
    pub fn new(alloc: Global) -> Replaying
        ensures nothing { ReachedIn result.format result.blobs result.taking.node result.taking.begun [] }
        ensures known { AreKnown result.blobs result.known.items }
    {
        Replaying {
            alloc,
            taking: Taking::new(alloc),
            format: None,
            blobs: Blobs::new(alloc),
            known: Vec::new(alloc),
        }
    }

    /// The node, the Blobs of the bank, and whether it is of format 2; in format 1 there are none.
    pub fn into_node(self) -> (Node, Blobs, bool)
        ensures node { result.0 ≡ self.taking.node }
        ensures blobs { result.1 ≡ self.blobs }
        ensures format { result.2 ≡ is_by_digests self.format }
    {
        let by_digests = is_by_digests(self.format);
        (self.taking.node, self.blobs, by_digests)
    }

    fn format(&self) -> Option<Format>
        ensures { result ≡ self.now.format }
    {
        self.format
    }

    // The first body says of which format the bank is.
    fn take_first(&mut self, body: &[u8]) -> Result<(), TakeError>
        requires sound { Sound self.old.taking.node }
        ensures took { TookFirst self.old.taking.node self.old.taking.begun self.old.blobs body.now self.new.format self.new.taking.node self.new.taking.begun self.new.blobs result }
        ensures blobs { self.new.blobs ≡ self.old.blobs }
        ensures known { self.new.known.items ≡ self.old.known.items }
    {
        if is_format(body) {
            self.format = Some(Format::ByDigests);
            return Ok(());
        }
        self.format = Some(Format::InFull);
        self.taking.take(body)
    }

    // A body of format 2 after the first.
    fn take_marked(&mut self, body: &[u8]) -> Result<(), TakeError>
        requires sound { Sound self.old.taking.node }
        requires apart { Apart self.old.blobs }
        requires known { AreKnown self.old.blobs self.old.known.items }
        ensures took { TookMarked self.old.blobs self.old.taking.node self.old.taking.begun body.now self.new.blobs self.new.taking.node self.new.taking.begun result }
        ensures format { self.new.format ≡ self.old.format }
        ensures known { OnOk result (AreKnown self.new.blobs self.new.known.items) }
    {
        let kind = kind_of(body);
        if kind == 16 {
            return self.blobs.take(body);
        }
        if kind == 17 {
            return self.take_stage(body);
        }
        if kind == 18 {
            return self.take_slot(body);
        }
        if is_plain(kind) {
            self.taking.take(body)
        } else {
            Err(TakeError::Refused)
        }
    }

    // A Stage by digests. A list that was named before is not merged again.
    fn take_stage(&mut self, body: &[u8]) -> Result<(), TakeError>
        requires sound { Sound self.old.taking.node }
        requires apart { Apart self.old.blobs }
        requires known { AreKnown self.old.blobs self.old.known.items }
        requires kind { kind_of body.now ≡ 17 }
        ensures took { TookMarked self.old.blobs self.old.taking.node self.old.taking.begun body.now self.new.blobs self.new.taking.node self.new.taking.begun result }
        ensures format { self.new.format ≡ self.old.format }
        ensures known { OnOk result (AreKnown self.new.blobs self.new.known.items) }
    {
        match known_as(&self.known, body) {
            Ok(Some(parts)) => self.taking.take_list(parts),
            Ok(None) => self.take_new_stage(body),
            Err(Memory) => Err(TakeError::Memory),
        }
    }

    fn take_new_stage(&mut self, body: &[u8]) -> Result<(), TakeError>
        requires sound { Sound self.old.taking.node }
        requires apart { Apart self.old.blobs }
        requires known { AreKnown self.old.blobs self.old.known.items }
        requires kind { kind_of body.now ≡ 17 }
        ensures took { TookMarked self.old.blobs self.old.taking.node self.old.taking.begun body.now self.new.blobs self.new.taking.node self.new.taking.begun result }
        ensures format { self.new.format ≡ self.old.format }
        ensures known { OnOk result (AreKnown self.new.blobs self.new.known.items) }
    {
        match staged_by(self.alloc, &self.blobs, after_kind(body)) {
            Ok(staged) => {
                let parts = staged.into_parts();
                match keep(self.alloc, &mut self.known, &parts) {
                    Ok(()) => self.taking.take_list(parts),
                    Err(Memory) => Err(TakeError::Memory),
                }
            }
            Err(FieldError::Wrong) => Err(TakeError::Refused),
            Err(FieldError::Memory) => Err(TakeError::Memory),
        }
    }

    // A Slot by digests.
    fn take_slot(&mut self, body: &[u8]) -> Result<(), TakeError>
        requires sound { Sound self.old.taking.node }
        requires apart { Apart self.old.blobs }
        requires known { AreKnown self.old.blobs self.old.known.items }
        requires kind { kind_of body.now ≡ 18 }
        ensures took { TookMarked self.old.blobs self.old.taking.node self.old.taking.begun body.now self.new.blobs self.new.taking.node self.new.taking.begun result }
        ensures format { self.new.format ≡ self.old.format }
        ensures known { OnOk result (AreKnown self.new.blobs self.new.known.items) }
    {
        match slot_named(self.alloc, &self.blobs, body) {
            Ok((stage, parts)) => match keep(self.alloc, &mut self.known, &parts) {
                Ok(()) => self.taking.take_piece(Piece::Slot(stage, parts)),
                Err(Memory) => Err(TakeError::Memory),
            },
            Err(FieldError::Wrong) => Err(TakeError::Refused),
            Err(FieldError::Memory) => Err(TakeError::Memory),
        }
    }
}

fn is_by_digests(format: Option<Format>) -> bool
    ensures { result ≡ is_by_digests format }
{
    match format {
        Some(Format::ByDigests) => true,
        Some(Format::InFull) | None => false,
    }
}

impl Replay for Replaying {
    ghost use Rattle.node_store.specs.Stands.{EndsAt};
    ghost use Rattle.node_store.specs.Known.{AreKnown};
    ghost use Rattle.node_store.specs.Taking.{ReachedIn};

    ghost took = { λ r so_far. ReachedIn r.format r.blobs r.taking.node r.taking.begun so_far × AreKnown r.blobs r.known.items };

    ghost refused = { λ r so_far body. EndsAt so_far body };

    fn take(&mut self, body: &[u8]) -> Result<(), TakeError> {
        match self.format() {
            None => self.take_first(body),
            Some(Format::InFull) => self.taking.take(body),
            Some(Format::ByDigests) => self.take_marked(body),
        }
    }
}
