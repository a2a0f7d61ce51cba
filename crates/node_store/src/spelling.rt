//! Events and pieces as bodies.
//!
//! Nothing takes memory but the buffer, where it has no capacity. The text of a meta-configuration comes from the caller.
ghost use Rattle.std.specs.Prelude.{◌≡◌, ◌∷◌, length, OnOk};
ghost use Rattle.std.specs.Int.{w64, w128};
ghost use Rattle.store_fields.specs.Fields.{bytes_of_number, IsNumber};
ghost use Rattle.store_fields.specs.Writing.{Writes};
ghost use Rattle.node_state.specs.Lists.{IsStaged};
ghost use Rattle.node_store.specs.Parts.{bytes_of_parts, AreParts};
ghost use Rattle.node_state.specs.declared.piece.Piece.TheVariants as pieces;
ghost use Rattle.report_log.specs.Sizes.{ReportInSize};
ghost use Rattle.node_state.specs.Table.{IsWithin};
ghost use Rattle.node_store.specs.Reports.{bytes_of_report, IsReport};
ghost use Rattle.node_store.specs.Bodies.{base_body, body_of_piece, bytes_of_base, byte_of_stage, bytes_of_stage, BringsText, IsEventInRange, IsPieceInRange};
ghost use Rattle.node_store.specs.Growing.{after_length, event_body};

use crate::by_digests::put_stage_by_digests;
use crate::reports::{NodeForm, put_report};
use mof_values::Memory;
use node_state::{Event, Stage};
use partial_merge::Part;
use report_log::Report;
use store_fields::{put_byte, put_bytes, put_flag, put_list, put_u64, put_u128};

/// Appends the body of an event, that of a Stage by digests; the text is the canonical one of the meta-configuration that it brings, if
/// it brings one.
pub(crate) fn put_event(into: &mut Vec<u8>, event: &Event, text: &[u8]) -> Result<(), Memory>
    requires within { IsWithin event.now }
    requires text { BringsText event.now text.now }
    ensures writes { Writes (event_body event.now) into.old into.new result }
    ensures in_range { OnOk result (IsEventInRange event.now) }
{
    match event {
        Event::Init(agent) => put_agent(into, *agent),
        Event::SetMeta(_) => put_text_of_meta(into, text),
        Event::Registered => put_byte(into, 3),
        Event::Stage(staged) => put_stage_by_digests(into, staged.parts()),
        Event::Promote(report) => put_run(into, 5, report),
        Event::Note(report) => put_run(into, 6, report),
        Event::AskReboot(report) => put_run(into, 7, report),
        Event::Boot => put_byte(into, 8),
        Event::Sent(job) => put_sent(into, *job),
        Event::Remove(stage) => put_removed(into, *stage),
        Event::Restore => put_byte(into, 11),
    }
}

/// Appends the same after four bytes, into which the log writes the length of the body.
pub(crate) fn put_event_after_length(
    into: &mut Vec<u8>,
    event: &Event,
    text: &[u8],
) -> Result<(), Memory>
    requires within { IsWithin event.now }
    requires text { BringsText event.now text.now }
    ensures writes { Writes (after_length (event_body event.now)) into.old into.new result }
    ensures in_range { OnOk result (IsEventInRange event.now) }
{
    put_bytes(into, &[0; 4])?;
    put_event(into, event, text)
}

fn put_agent(into: &mut Vec<u8>, agent: u128) -> Result<(), Memory>
    ensures writes { Writes (1 ∷ bytes_of_number w128 agent) into.old into.new result }
    ensures in_range { IsNumber w128 agent }
{
    put_byte(into, 1)?;
    put_u128(into, agent)
}

fn put_text_of_meta(into: &mut Vec<u8>, text: &[u8]) -> Result<(), Memory>
    ensures { Writes (2 ∷ text.now) into.old into.new result }
{
    put_byte(into, 2)?;
    put_bytes(into, text)
}

fn put_run(into: &mut Vec<u8>, kind: u8, report: &Report) -> Result<(), Memory>
    requires { ReportInSize report.now }
    ensures writes { Writes (kind ∷ bytes_of_report report.now) into.old into.new result }
    ensures in_range { OnOk result (IsReport report.now) }
{
    put_byte(into, kind)?;
    put_report(into, report)
}

fn put_sent(into: &mut Vec<u8>, job: u64) -> Result<(), Memory>
    ensures writes { Writes (9 ∷ bytes_of_number w64 job) into.old into.new result }
    ensures in_range { IsNumber w64 job }
{
    put_byte(into, 9)?;
    put_u64(into, job)
}

fn put_removed(into: &mut Vec<u8>, stage: Stage) -> Result<(), Memory>
    ensures { Writes (10 ∷ bytes_of_stage stage) into.old into.new result }
{
    put_byte(into, 10)?;
    put_stage_byte(into, stage)
}

/// Appends the byte of a stage.
pub(crate) fn put_stage_byte(into: &mut Vec<u8>, stage: Stage) -> Result<(), Memory>
    ensures { Writes (bytes_of_stage stage) into.old into.new result }
{
    put_byte(into, stage_byte(stage))
}

/// The byte of a stage.
pub(crate) fn stage_byte(stage: Stage) -> u8
    ensures { result ≡ byte_of_stage stage }
{
    match stage {
        Stage::Pending => 0,
        Stage::Current => 1,
        Stage::Previous => 2,
    }
}

/// Appends a list of parts.
pub(crate) fn put_parts(into: &mut Vec<u8>, parts: &[Part]) -> Result<(), Memory>
    requires { IsStaged parts.now }
    ensures writes { Writes (bytes_of_parts parts.now) into.old into.new result }
    ensures in_range { OnOk result (AreParts parts.now) }
{
    put_list::<NodeForm, Part>(into, parts)
}

/// Appends the body of the piece that has all of a node but its parts and reports; the text is that of its meta-configuration.
pub(crate) fn put_base(
    into: &mut Vec<u8>,
    agent: u128,
    registered: bool,
    reboot: bool,
    next_job: u64,
    text: &[u8],
) -> Result<(), Memory>
    ensures writes { Writes (base_body agent registered reboot next_job text.now) into.old into.new result }
{
    put_byte(into, 12)?;
    put_fields(into, agent, registered, reboot, next_job)?;
    put_bytes(into, text)
}

#[tactic(auto, unfolding(crate::specs::Bodies::bytes_of_base))]
fn put_fields(
    into: &mut Vec<u8>,
    agent: u128,
    registered: bool,
    reboot: bool,
    next_job: u64,
) -> Result<(), Memory>
    ensures { Writes (bytes_of_base (agent, registered, reboot, next_job)) into.old into.new result }
{
    put_u128(into, agent)?;
    put_flag(into, registered)?;
    put_flag(into, reboot)?;
    put_u64(into, next_job)
}

/// Appends the body of the piece that has the parts of a stage.
pub(crate) fn put_slot(into: &mut Vec<u8>, stage: Stage, parts: &[Part]) -> Result<(), Memory>
    requires staged { IsStaged parts.now }
    ensures writes { Writes (body_of_piece (pieces.Slot stage parts.now)) into.old into.new result }
    ensures in_range { OnOk result (IsPieceInRange (pieces.Slot stage parts.now)) }
{
    put_byte(into, 13)?;
    put_stage_byte(into, stage)?;
    put_parts(into, parts)
}

/// Appends the body of the piece that has a report.
pub(crate) fn put_kept(into: &mut Vec<u8>, report: &Report, sent: bool) -> Result<(), Memory>
    requires size { ReportInSize report.now }
    ensures writes { Writes (body_of_piece (pieces.Kept (record { report = report.now; sent = sent }))) into.old into.new result }
    ensures in_range { OnOk result (IsPieceInRange (pieces.Kept (record { report = report.now; sent = sent }))) }
{
    put_byte(into, 14)?;
    put_flag(into, sent)?;
    put_report(into, report)
}
