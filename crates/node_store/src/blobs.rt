//! The bytes of parts, each once, that a store keeps in memory: in format 2 the Blobs of its bank, which bodies name by their digest.
//!
//! In format 2 each has another digest, so that a digest names the bytes of one Blob at most.
ghost use Rattle.std.specs.Prelude.{◌≡◌, ◌≢◌, ◌≤◌, ◌&&◌, ◌↔◌, ◌++◌, [], ℕ, List, drop, length, map, IsTrue, MatchOption};
ghost use Rattle.std.specs.List.{AllByRecursion};
ghost use Rattle.sha2.specs.Sha256.{sha256};
ghost use Rattle.store_fields.specs.Fields.{IsBlob};
ghost use Rattle.node_store.specs.Digests.{kind_of, texts_in, texts_of, IsAmong};
ghost use Rattle.node_store.specs.Growing.{AddsTexts, AllAmong, Chooses, ChoosesText, cleared, GrewTexts, StandsFirst, TriedText, TriedTexts};
ghost use Rattle.node_store.specs.Taking.{TookBlob};
ghost use Rattle.node_store.specs.Whole.{parts_in};

use crate::blob::Blob;
use crate::kinds::after_kind;
use gate_log::TakeError;
use mof_values::{Bytes, Memory};
use partial_merge::{Part, SharedBytes};
use shared_key::digest;
use std::alloc::Global;
use std::marker::Model;
use store_fields::Fields;

/// The Blobs of a bank, in their order.
#[derive(Debug, Drop)]
pub struct Blobs {
    alloc: Global,
    list: Vec<Blob>,
}

impl Model for Blobs {
    ghost use Rattle.std.specs.Prelude.{List, ℕ, map};

    ghost Value = { List (List ℕ) };

    ghost view = { λ b. map (λ blob. blob.bytes) b.list.items };
}

impl Blobs {
    /// No Blob.
    pub fn new(alloc: Global) -> Blobs
        ensures { result ≡ [] }
    {
        Blobs {
            alloc,
            list: Vec::new(alloc),
        }
    }

    /// The Blob of this digest.
    pub fn find(&self, digest: &[u8; 32]) -> Option<&Blob>
        ensures { MatchOption result
            ((bytes : List ℕ) → IsAmong self.now bytes → sha256 bytes ≢ digest.now)
            (λ found. IsAmong self.now found.now.bytes × (digest.now ≡ sha256 found.now.bytes) × IsBlob found.now.bytes) }
    {
        find_in(&self.list, digest)
    }

    /// Takes the body of a Blob, whose bytes have the digest that stands before them and no Blob before it has.
    pub fn take(&mut self, body: &[u8]) -> Result<(), TakeError>
        requires { kind_of body.now ≡ 16 }
        ensures { TookBlob self.old body.now self.new result }
    {
        let mut fields = Fields::of(after_kind(body));
        let Ok(named) = fields.digest() else {
            return Err(TakeError::Refused);
        };
        let bytes = fields.rest();
        if bytes.len() > u32::MAX as usize {
            return Err(TakeError::Refused);
        }
        if digest(bytes) != named {
            return Err(TakeError::Refused);
        }
        if self.find(&named).is_some() {
            return Err(TakeError::Refused);
        }
        let bytes = Bytes::of(Vec::from_slice(self.alloc, bytes)?);
        self.list.push(Blob {
            digest: named,
            bytes: SharedBytes::of(self.alloc, bytes)?,
        })?;
        Ok(())
    }

    /// How many there are.
    pub fn len(&self) -> usize
        ensures { result ≡ length self.now }
    {
        self.list.len()
    }

    /// The Blobs from this one on.
    pub fn since(&self, from: usize) -> &[Blob]
        requires { from ≤ length self.now }
        ensures { map (λ blob. blob.bytes) result.now ≡ drop from self.now }
    {
        &self.list[from..]
    }

    /// Where it is so asked, none is left.
    pub fn clear_if(&mut self, asked: bool)
        ensures { self.new ≡ cleared asked self.old }
    {
        if asked {
            self.list.clear();
        }
    }
}

impl Blobs {
    /// Adds those texts of the parts that are not there yet, in order; answers whether no two different texts have one digest.
    pub fn hold(&mut self, parts: &[Part]) -> Result<bool, Memory>
        requires small { AllByRecursion (λ part. IsBlob part.bytes) parts.now }
        ensures { GrewTexts self.old (texts_of parts.now) result self.new }
    {
        let from = self.list.as_slice().len();
        match self.add_texts(parts) {
            Ok(apart) => Ok(apart),
            Err(Memory) => {
                self.list.truncate(from);
                Err(Memory)
            }
        }
    }

    fn add_texts(&mut self, parts: &[Part]) -> Result<bool, Memory>
        requires small { AllByRecursion (λ part. IsBlob part.bytes) parts.now }
        ensures { TriedTexts self.old (texts_of parts.now) result self.new }
    {
        let (mut apart, mut left) = (true, parts);
        while let [part, rest @ ..] = left {
            let one = self.add_text(part)?;
            apart = both(apart, one);
            left = rest;
        }
        Ok(apart)
    }

    // Adds the text of the part where it is not there yet, and answers whether no other bytes have its digest.
    fn add_text(&mut self, part: &Part) -> Result<bool, Memory>
        requires { IsBlob part.now.bytes }
        ensures { TriedText self.old part.now.bytes result self.new }
    {
        if place_in(&self.list, part).is_some() {
            return Ok(true);
        }
        let apart = self.find(&part.digest).is_none();
        self.list.push(Blob {
            digest: part.digest,
            bytes: part.bytes.share()?,
        })?;
        Ok(apart)
    }
}

impl Blobs {
    /// Keeps the texts of these lists alone, all of which are there: each once, in this order. Answers whether no two different texts
    /// have one digest. Takes no memory.
    pub fn keep(
        &mut self,
        pending: Option<&[Part]>,
        current: Option<&[Part]>,
        previous: Option<&[Part]>,
    ) -> bool
        requires there { AllAmong self.old (texts_in (parts_in pending) ++ (texts_in (parts_in current) ++ texts_in (parts_in previous))) }
        ensures { AddsTexts [] (texts_in (parts_in pending.entry) ++ (texts_in (parts_in current.entry) ++ texts_in (parts_in previous.entry))) result self.new }
    {
        let (front, first) = self.choose_slot(0, pending);
        let (front, second) = self.choose_slot(front, current);
        let (front, third) = self.choose_slot(front, previous);
        self.list.truncate(front);
        both(first, both(second, third))
    }

    fn choose_slot(&mut self, front: usize, slot: Option<&[Part]>) -> (usize, bool)
        requires front { front ≤ length self.old }
        requires there { AllAmong self.old (texts_in (parts_in slot)) }
        ensures { Chooses self.old front (texts_in (parts_in slot.entry)) self.new result }
    {
        match slot {
            Some(parts) => self.choose_parts(front, parts),
            None => (front, true),
        }
    }

    // Brings the texts of the parts in front, behind that many that were chosen before, where they are not among these: how many are
    // chosen then, and whether no two different ones of these have one digest.
    fn choose_parts(&mut self, front: usize, parts: &[Part]) -> (usize, bool)
        requires front { front ≤ length self.old }
        requires there { AllAmong self.old (texts_of parts.now) }
        ensures { Chooses self.old front (texts_of parts.now) self.new result }
    {
        let (mut chosen, mut apart, mut left) = (front, true, parts);
        while let [part, rest @ ..] = left {
            let (more, one) = self.choose(chosen, part);
            chosen = more;
            apart = both(apart, one);
            left = rest;
        }
        (chosen, apart)
    }

    fn choose(&mut self, front: usize, part: &Part) -> (usize, bool)
        requires front { front ≤ length self.old }
        requires there { IsAmong self.old part.now.bytes }
        ensures { ChoosesText self.old front part.now.bytes self.new result }
    {
        let Some(place) = place_in(&self.list, part) else {
            unreachable!()
        };
        if place < front {
            return (front, true);
        }
        let apart = find_in(&self.list[..front], &part.digest).is_none();
        self.list.swap(front, place);
        (front + 1, apart)
    }
}

fn both(one: bool, other: bool) -> bool
    ensures { result ≡ one && other }
{
    one && other
}

// The first place in the list of the bytes of the part.
fn place_in(list: &[Blob], part: &Part) -> Option<usize>
    ensures { MatchOption result
        (IsAmong (map (λ blob. blob.bytes) list.now) part.now.bytes → ⊥)
        (λ place. StandsFirst list.now part.now.bytes place) }
{
    for place in 0..list.len() {
        if is_of(&list[place], part) {
            return Some(place);
        }
    }
    None
}

// Whether it has the bytes of the part; their digests are compared first, which are short.
fn is_of(blob: &Blob, part: &Part) -> bool
    ensures { IsTrue result ↔ (blob.now.bytes ≡ part.now.bytes) }
{
    blob.digest == part.digest && blob.bytes.as_slice() == part.bytes.as_slice()
}

// The Blob in the list that has this digest.
fn find_in<'a>(list: &'a [Blob], digest: &[u8; 32]) -> Option<&'a Blob>
    ensures { MatchOption result
        ((bytes : List ℕ) → IsAmong (map (λ blob. blob.bytes) list.now) bytes → sha256 bytes ≢ digest.now)
        (λ found. IsAmong (map (λ blob. blob.bytes) list.now) found.now.bytes × (digest.now ≡ sha256 found.now.bytes) × IsBlob found.now.bytes) }
{
    let mut left = list;
    while let [blob, rest @ ..] = left {
        if blob.digest == *digest {
            return Some(blob);
        }
        left = rest;
    }
    None
}
