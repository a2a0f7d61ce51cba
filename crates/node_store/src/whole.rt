//! The bodies of a whole node, as they are written into an empty bank.
ghost use Rattle.std.specs.Prelude.{◌≡◌, ◌≤◌, Some, None, length, map, option_map, vec_capacity};
ghost use Rattle.gate_log.specs.Text.{AllFit};
ghost use Rattle.meta_config.specs.Writing.{text_of_meta};
ghost use Rattle.node_state.specs.Lists.{IsStaged};
ghost use Rattle.node_state.specs.Sound.{Sound};
ghost use Rattle.node_state.specs.Table.{after, refusal};
ghost use Rattle.node_state.specs.declared.piece.Piece.TheVariants as pieces;
ghost use Rattle.report_log.specs.Sizes.{ReportInSize};
ghost use Rattle.node_store.specs.Bodies.{body_of_piece};
ghost use Rattle.node_store.specs.Digests.{blob_body, format_body};
ghost use Rattle.node_store.specs.Next.{is_sent};
ghost use Rattle.node_store.specs.Whole.{AreToSpell, bodies_left, body_of_base, body_of_slot, whole_bodies};
ghost use Rattle.store_fields.specs.Writing.{Writes};
ghost use Rattle.node_store.specs.Growing.{bytes_in};
ghost use Rattle.node_store.specs.Whole.{blobs_of, blobs_or};
ghost use Rattle.node_store.specs.declared.limits.TheConstants.{MAX_BODY};

use crate::blob::Blob;
use crate::by_digests::{put_blob, put_slot_by_digests};
use crate::next::{
    added_in, current_after, kept_after, next_job_after, pending_after, previous_after,
    reboot_after, registered_after, sent_in,
};
use crate::spelling::{put_base, put_kept, put_slot};
use gate_log::Spelling;
use mof_values::Memory;
use node_state::{Event, Kept, Node, Stage};
use partial_merge::Part;
use report_log::Report;
use store_fields::put_bytes;

/// Spells the bodies of a node: in format 2 the Format and the Blobs of its parts; all but its parts and reports, the parts of each
/// stage, and each report.
///
/// Takes no memory where the buffer has capacity for the longest body.
#[derive(Drop)]
pub struct Whole<'n> {
    // whether the Format is still to be spelled
    format: bool,
    blobs: &'n [Blob],
    // whether a Slot has its parts by their digests
    by_digests: bool,
    base: Option<Base<'n>>,
    pending: Option<&'n [Part]>,
    current: Option<&'n [Part]>,
    previous: Option<&'n [Part]>,
    reports: &'n [Kept],
    // the job of the report that an event marks as sent
    sent: Option<u64>,
    // the report that an event adds
    added: Option<&'n Report>,
}

/// All of a node but its parts and reports.
#[derive(Clone, Copy)]
pub struct Base<'n> {
    agent: u128,
    registered: bool,
    reboot: bool,
    next_job: u64,
    // the canonical text of its meta-configuration
    text: &'n [u8],
}

impl<'n> Whole<'n> {
    /// The bodies of the node after an allowed event, in format 2 where these Blobs are given; `text` is the canonical text of the
    /// meta-configuration after it.
    pub fn after(
        node: &'n Node,
        event: &'n Event,
        agent: u128,
        text: &'n [u8],
        blobs: Option<&'n [Blob]>,
    ) -> Whole<'n>
        requires allowed { refusal node.now event.now ≡ None }
        requires sound { Sound (after node.now event.now) }
        requires text { text.now ≡ text_of_meta (after node.now event.now).meta }
        requires fit { AllFit MAX_BODY (whole_bodies (blobs_of blobs) agent (after node.now event.now)) }
        ensures rest { bodies_left result ≡ whole_bodies (blobs_of blobs.entry) agent (after node.now event.now) }
        ensures ready { AreToSpell result }
    {
        Whole {
            format: blobs.is_some(),
            blobs: list_of(blobs),
            by_digests: blobs.is_some(),
            base: Some(Base {
                agent,
                registered: registered_after(node, event),
                reboot: reboot_after(node, event),
                next_job: next_job_after(node, event),
                text,
            }),
            pending: pending_after(node, event),
            current: current_after(node, event),
            previous: previous_after(node, event),
            reports: kept_after(node, event),
            sent: sent_in(event),
            added: added_in(event),
        }
    }
}

impl<'n> Spelling for Whole<'n> {
    ghost use Rattle.node_store.specs.Whole.{AreToSpell, bodies_left};
    ghost use Rattle.node_store.specs.declared.limits.TheConstants.{MAX_BODY};

    ghost rest = { bodies_left };

    ghost ready = { AreToSpell };

    ghost capacity = { MAX_BODY };

    fn spell_next(&mut self, buffer: &mut Vec<u8>) -> bool {
        if self.format {
            spell_format(buffer);
            self.format = false;
        } else if let [blob, rest @ ..] = self.blobs {
            spell_blob(buffer, blob);
            self.blobs = rest;
        } else if let Some(base) = self.base {
            spell_base(buffer, base);
            self.base = None;
        } else if let Some(parts) = self.pending {
            spell_slot(buffer, self.by_digests, Stage::Pending, parts);
            self.pending = None;
        } else if let Some(parts) = self.current {
            spell_slot(buffer, self.by_digests, Stage::Current, parts);
            self.current = None;
        } else if let Some(parts) = self.previous {
            spell_slot(buffer, self.by_digests, Stage::Previous, parts);
            self.previous = None;
        } else if let [first, rest @ ..] = self.reports {
            spell_kept(buffer, &first.report, is_sent(first, self.sent));
            self.reports = rest;
        } else if let Some(report) = self.added {
            spell_kept(buffer, report, false);
            self.added = None;
        } else {
            return false;
        }
        true
    }
}

// The Blobs, or none.
fn list_of(blobs: Option<&[Blob]>) -> &[Blob]
    ensures { bytes_in result.now ≡ blobs_or (blobs_of blobs.entry) }
{
    match blobs {
        Some(blobs) => blobs,
        None => &[],
    }
}

// Whether the report was sent, or is that of this job.
fn is_sent(kept: &Kept, sent: Option<u64>) -> bool
    ensures { result ≡ is_sent sent kept.now }
{
    match sent {
        Some(job) => kept.sent || kept.report.job == job,
        None => kept.sent,
    }
}

// The body of a base, in place of all that the buffer holds.
fn spell_base(buffer: &mut Vec<u8>, base: Base<'_>)
    requires size { length (body_of_base base) ≤ MAX_BODY }
    requires capacity { MAX_BODY ≤ vec_capacity buffer.old }
    ensures body { buffer.new.items ≡ body_of_base base.entry }
    ensures capacity { vec_capacity buffer.old ≤ vec_capacity buffer.new }
{
    buffer.clear();
    match put_base(
        buffer,
        base.agent,
        base.registered,
        base.reboot,
        base.next_job,
        base.text,
    ) {
        Ok(()) => {}
        Err(_) => unreachable!(),
    }
}

// The body of a Format, in place of all that the buffer holds.
fn spell_format(buffer: &mut Vec<u8>)
    requires capacity { MAX_BODY ≤ vec_capacity buffer.old }
    ensures body { buffer.new.items ≡ format_body }
    ensures capacity { vec_capacity buffer.old ≤ vec_capacity buffer.new }
{
    buffer.clear();
    match put_bytes(buffer, &[15, 2]) {
        Ok(()) => {}
        Err(_) => unreachable!(),
    }
}

// The body of a Blob, in place of all that the buffer holds.
fn spell_blob(buffer: &mut Vec<u8>, blob: &Blob)
    requires size { length (blob_body blob.now.bytes) ≤ MAX_BODY }
    requires capacity { MAX_BODY ≤ vec_capacity buffer.old }
    ensures body { buffer.new.items ≡ blob_body blob.now.bytes }
    ensures capacity { vec_capacity buffer.old ≤ vec_capacity buffer.new }
{
    buffer.clear();
    match put_blob(buffer, blob) {
        Ok(()) => {}
        Err(_) => unreachable!(),
    }
}

// The body of the parts of a stage, by digests or in full, in place of all that the buffer holds.
fn spell_slot(buffer: &mut Vec<u8>, by_digests: bool, stage: Stage, parts: &[Part])
    requires staged { IsStaged parts.now }
    requires size { length (body_of_slot by_digests stage parts.now) ≤ MAX_BODY }
    requires capacity { MAX_BODY ≤ vec_capacity buffer.old }
    ensures body { buffer.new.items ≡ body_of_slot by_digests stage parts.now }
    ensures capacity { vec_capacity buffer.old ≤ vec_capacity buffer.new }
{
    buffer.clear();
    match put_slot_in(buffer, by_digests, stage, parts) {
        Ok(()) => {}
        Err(_) => unreachable!(),
    }
}

fn put_slot_in(
    into: &mut Vec<u8>,
    by_digests: bool,
    stage: Stage,
    parts: &[Part],
) -> Result<(), Memory>
    requires staged { IsStaged parts.now }
    ensures writes { Writes (body_of_slot by_digests stage parts.now) into.old into.new result }
{
    if by_digests {
        put_slot_by_digests(into, stage, parts)
    } else {
        put_slot(into, stage, parts)
    }
}

// The body of a report, in place of all that the buffer holds.
fn spell_kept(buffer: &mut Vec<u8>, report: &Report, sent: bool)
    requires in_size { ReportInSize report.now }
    requires size { length (body_of_piece (pieces.Kept (record { report = report.now; sent = sent }))) ≤ MAX_BODY }
    requires capacity { MAX_BODY ≤ vec_capacity buffer.old }
    ensures body { buffer.new.items ≡ body_of_piece (pieces.Kept (record { report = report.now; sent = sent })) }
    ensures capacity { vec_capacity buffer.old ≤ vec_capacity buffer.new }
{
    buffer.clear();
    match put_kept(buffer, report, sent) {
        Ok(()) => {}
        Err(_) => unreachable!(),
    }
}
