//! Events and pieces from bodies.
//!
//! The first byte says of which kind a body is; all after it is of that event or piece.
ghost use Rattle.std.specs.Prelude.{◌≡◌, ◌∷◌, ◌++◌, ℕ, Bool, List, IfOk, IfErr, ⊤};
ghost use Rattle.std.specs.Int.{w64, w128};
ghost use Rattle.partial_merge.specs.declared.part.Part.{Part as PartTerm};
ghost use Rattle.store_fields.specs.Reading.{Reads};
ghost use Rattle.node_state.specs.Lists.{IsStaged};
ghost use Rattle.node_state.specs.StagedParts.{parts_of};
ghost use Rattle.node_store.specs.Parts.{bytes_of_parts, AreParts};
ghost use Rattle.node_store.specs.Bodies.{bytes_of_base, bytes_of_stage, IsBase, IsBody, IsWhole};

use crate::body::Body;
use crate::metas::read_node_meta;
use crate::reports::{NodeForm, put_report, read_report};
use crate::spelling::{put_parts, put_stage_byte};
use mof_values::{Items, Memory};
use node_state::{Event, Kept, Piece, Stage, Staged, stored};
use partial_merge::Part;
use report_log::{PartMark, Report};
use std::alloc::Global;
use store_fields::{FieldError, FieldForm, Fields, put_list, put_u64, put_u128, read_list};

/// The event or piece of which the bytes are the body.
///
/// # Errors
///
/// `Wrong` where they are the body of none.
pub fn read_body(alloc: Global, body: &[u8]) -> Result<Body, FieldError>
    ensures found { IfOk result (λ read. IsBody body.now read) }
    ensures wrong { IfErr result (λ e. e ≡ FieldError.Wrong → (read : Body)
        → IsBody body.now read → ⊥) }
{
    match body {
        [kind, rest @ ..] => read_kind(alloc, *kind, rest),
        [] => Err(FieldError::Wrong),
    }
}

fn read_kind(alloc: Global, kind: u8, rest: &[u8]) -> Result<Body, FieldError>
    ensures found { IfOk result (λ read. IsBody (kind ∷ rest.now) read) }
    ensures wrong { IfErr result (λ e. e ≡ FieldError.Wrong → (read : Body) → IsBody (kind ∷ rest.now) read → ⊥) }
{
    match kind {
        1 => agent_event(alloc, rest),
        2 => meta_event(alloc, rest),
        3 => registered_event(rest),
        4 => parts_event(alloc, rest),
        5 => promote_event(alloc, rest),
        6 => note_event(alloc, rest),
        7 => reboot_event(alloc, rest),
        8 => boot_event(rest),
        9 => sent_event(alloc, rest),
        10 => remove_event(alloc, rest),
        11 => restore_event(rest),
        12 => base_piece(alloc, rest),
        13 => slot_piece(alloc, rest),
        14 => kept_piece(alloc, rest),
        _ => Err(FieldError::Wrong),
    }
}

fn agent_event(alloc: Global, rest: &[u8]) -> Result<Body, FieldError>
    ensures found { IfOk result (λ read. IsBody (1 ∷ rest.now) read) }
    ensures wrong { IfErr result (λ e. e ≡ FieldError.Wrong → (read : Body) → IsBody (1 ∷ rest.now) read → ⊥) }
{
    match read_whole::<NodeForm, u128>(alloc, rest) {
        Ok(agent) => Ok(Body::Event(Event::Init(agent))),
        Err(error) => Err(error),
    }
}

fn meta_event(alloc: Global, rest: &[u8]) -> Result<Body, FieldError>
    ensures found { IfOk result (λ read. IsBody (2 ∷ rest.now) read) }
    ensures wrong { IfErr result (λ e. e ≡ FieldError.Wrong → (read : Body) → IsBody (2 ∷ rest.now) read → ⊥) }
{
    match read_node_meta(alloc, rest) {
        Ok(meta) => Ok(Body::Event(Event::SetMeta(meta))),
        Err(error) => Err(error),
    }
}

fn registered_event(rest: &[u8]) -> Result<Body, FieldError>
    ensures found { IfOk result (λ read. IsBody (3 ∷ rest.now) read) }
    ensures wrong { IfErr result (λ e. e ≡ FieldError.Wrong → (read : Body) → IsBody (3 ∷ rest.now) read → ⊥) }
{
    if rest.is_empty() {
        Ok(Body::Event(Event::Registered))
    } else {
        Err(FieldError::Wrong)
    }
}

fn parts_event(alloc: Global, rest: &[u8]) -> Result<Body, FieldError>
    ensures found { IfOk result (λ read. IsBody (4 ∷ rest.now) read) }
    ensures wrong { IfErr result (λ e. e ≡ FieldError.Wrong → (read : Body) → IsBody (4 ∷ rest.now) read → ⊥) }
{
    match read_staged(alloc, rest) {
        Ok(staged) => Ok(Body::Event(Event::Stage(staged))),
        Err(error) => Err(error),
    }
}

fn promote_event(alloc: Global, rest: &[u8]) -> Result<Body, FieldError>
    ensures found { IfOk result (λ read. IsBody (5 ∷ rest.now) read) }
    ensures wrong { IfErr result (λ e. e ≡ FieldError.Wrong → (read : Body) → IsBody (5 ∷ rest.now) read → ⊥) }
{
    match read_whole::<NodeForm, Report>(alloc, rest) {
        Ok(report) => Ok(Body::Event(Event::Promote(report))),
        Err(error) => Err(error),
    }
}

fn note_event(alloc: Global, rest: &[u8]) -> Result<Body, FieldError>
    ensures found { IfOk result (λ read. IsBody (6 ∷ rest.now) read) }
    ensures wrong { IfErr result (λ e. e ≡ FieldError.Wrong → (read : Body) → IsBody (6 ∷ rest.now) read → ⊥) }
{
    match read_whole::<NodeForm, Report>(alloc, rest) {
        Ok(report) => Ok(Body::Event(Event::Note(report))),
        Err(error) => Err(error),
    }
}

fn reboot_event(alloc: Global, rest: &[u8]) -> Result<Body, FieldError>
    ensures found { IfOk result (λ read. IsBody (7 ∷ rest.now) read) }
    ensures wrong { IfErr result (λ e. e ≡ FieldError.Wrong → (read : Body) → IsBody (7 ∷ rest.now) read → ⊥) }
{
    match read_whole::<NodeForm, Report>(alloc, rest) {
        Ok(report) => Ok(Body::Event(Event::AskReboot(report))),
        Err(error) => Err(error),
    }
}

fn boot_event(rest: &[u8]) -> Result<Body, FieldError>
    ensures found { IfOk result (λ read. IsBody (8 ∷ rest.now) read) }
    ensures wrong { IfErr result (λ e. e ≡ FieldError.Wrong → (read : Body) → IsBody (8 ∷ rest.now) read → ⊥) }
{
    if rest.is_empty() {
        Ok(Body::Event(Event::Boot))
    } else {
        Err(FieldError::Wrong)
    }
}

fn sent_event(alloc: Global, rest: &[u8]) -> Result<Body, FieldError>
    ensures found { IfOk result (λ read. IsBody (9 ∷ rest.now) read) }
    ensures wrong { IfErr result (λ e. e ≡ FieldError.Wrong → (read : Body) → IsBody (9 ∷ rest.now) read → ⊥) }
{
    match read_whole::<NodeForm, u64>(alloc, rest) {
        Ok(job) => Ok(Body::Event(Event::Sent(job))),
        Err(error) => Err(error),
    }
}

fn remove_event(alloc: Global, rest: &[u8]) -> Result<Body, FieldError>
    ensures found { IfOk result (λ read. IsBody (10 ∷ rest.now) read) }
    ensures wrong { IfErr result (λ e. e ≡ FieldError.Wrong → (read : Body) → IsBody (10 ∷ rest.now) read → ⊥) }
{
    match read_whole::<NodeForm, Stage>(alloc, rest) {
        Ok(stage) => Ok(Body::Event(Event::Remove(stage))),
        Err(error) => Err(error),
    }
}

fn restore_event(rest: &[u8]) -> Result<Body, FieldError>
    ensures found { IfOk result (λ read. IsBody (11 ∷ rest.now) read) }
    ensures wrong { IfErr result (λ e. e ≡ FieldError.Wrong → (read : Body) → IsBody (11 ∷ rest.now) read → ⊥) }
{
    if rest.is_empty() {
        Ok(Body::Event(Event::Restore))
    } else {
        Err(FieldError::Wrong)
    }
}

fn base_piece(alloc: Global, rest: &[u8]) -> Result<Body, FieldError>
    ensures found { IfOk result (λ read. IsBody (12 ∷ rest.now) read) }
    ensures wrong { IfErr result (λ e. e ≡ FieldError.Wrong → (read : Body) → IsBody (12 ∷ rest.now) read → ⊥) }
{
    let mut fields = Fields::of(rest);
    let (agent, registered, reboot, next_job) = match read_base(&mut fields) {
        Ok(base) => base,
        Err(error) => return Err(error),
    };
    match read_node_meta(alloc, fields.rest()) {
        Ok(meta) => Ok(Body::Piece(Piece::Base {
            agent,
            registered,
            reboot,
            next_job,
            meta,
        })),
        Err(error) => Err(error),
    }
}

fn slot_piece(alloc: Global, rest: &[u8]) -> Result<Body, FieldError>
    ensures found { IfOk result (λ read. IsBody (13 ∷ rest.now) read) }
    ensures wrong { IfErr result (λ e. e ≡ FieldError.Wrong → (read : Body) → IsBody (13 ∷ rest.now) read → ⊥) }
{
    let mut fields = Fields::of(rest);
    let stage = match read_stage(&mut fields) {
        Ok(stage) => stage,
        Err(error) => return Err(error),
    };
    match read_staged(alloc, fields.rest()) {
        Ok(staged) => Ok(Body::Piece(Piece::Slot(stage, staged.into_parts()))),
        Err(error) => Err(error),
    }
}

fn kept_piece(alloc: Global, rest: &[u8]) -> Result<Body, FieldError>
    ensures found { IfOk result (λ read. IsBody (14 ∷ rest.now) read) }
    ensures wrong { IfErr result (λ e. e ≡ FieldError.Wrong → (read : Body) → IsBody (14 ∷ rest.now) read → ⊥) }
{
    let mut fields = Fields::of(rest);
    let sent = match fields.flag() {
        Ok(sent) => sent,
        Err(error) => return Err(error),
    };
    match read_whole::<NodeForm, Report>(alloc, fields.rest()) {
        Ok(report) => Ok(Body::Piece(Piece::Kept(Kept { report, sent }))),
        Err(error) => Err(error),
    }
}

// The fields of a base before its meta-configuration.
#[tactic(auto, unfolding(crate::specs::Bodies::bytes_of_base))]
fn read_base(fields: &mut Fields<'_>) -> Result<(u128, bool, bool, u64), FieldError>
    ensures { Reads bytes_of_base IsBase fields.old fields.new result }
{
    let agent = fields.u128()?;
    let registered = fields.flag()?;
    let reboot = fields.flag()?;
    let next_job = fields.u64()?;
    Ok((agent, registered, reboot, next_job))
}

/// A stage from its byte.
pub(crate) fn read_stage(fields: &mut Fields<'_>) -> Result<Stage, FieldError>
    ensures { Reads bytes_of_stage (λ stage. ⊤) fields.old fields.new result }
{
    match fields.byte() {
        Ok(0) => Ok(Stage::Pending),
        Ok(1) => Ok(Stage::Current),
        Ok(2) => Ok(Stage::Previous),
        Ok(_) => Err(FieldError::Wrong),
        Err(error) => Err(error),
    }
}

// The parts of which these are all the bytes, where they can be a list of a node.
fn read_staged(alloc: Global, bytes: &[u8]) -> Result<Staged, FieldError>
    ensures found { IfOk result (λ staged. IsWhole bytes_of_parts AreParts bytes.now (parts_of staged)) }
    ensures wrong { IfErr result (λ e. e ≡ FieldError.Wrong → (parts : List PartTerm) → IsStaged parts → IsWhole bytes_of_parts AreParts bytes.now parts → ⊥) }
{
    let parts = match read_whole::<NodeForm, Items<Part>>(alloc, bytes) {
        Ok(parts) => parts,
        Err(error) => return Err(error),
    };
    match stored(alloc, parts.into_vec()) {
        Ok(Some(staged)) => Ok(staged),
        Ok(None) => Err(FieldError::Wrong),
        Err(Memory) => Err(FieldError::Memory),
    }
}

/// The value of which these are all the bytes.
pub(crate) fn read_whole<F: FieldForm<T>, T: Drop>(
    alloc: Global,
    bytes: &[u8],
) -> Result<T, FieldError>
    ensures found { IfOk result (λ value. IsWhole F.bytes_of F.is_in_range bytes.now value) }
    ensures wrong { IfErr result (λ e. e ≡ FieldError.Wrong → (value : T) → IsWhole F.bytes_of F.is_in_range bytes.now value → ⊥) }
{
    let mut fields = Fields::of(bytes);
    let value = match F::read(alloc, &mut fields) {
        Ok(value) => value,
        Err(error) => return Err(error),
    };
    if fields.is_empty() {
        Ok(value)
    } else {
        Err(FieldError::Wrong)
    }
}

impl FieldForm<u128> for NodeForm {
    ghost use Rattle.std.specs.Prelude.{⊤};
    ghost use Rattle.std.specs.Int.{w128};
    ghost use Rattle.store_fields.specs.Fields.{bytes_of_number, IsNumber};

    ghost bytes_of = { bytes_of_number w128 };

    ghost is_in_range = { IsNumber w128 };

    ghost fits = { λ number. ⊤ };

    fn read(_: Global, fields: &mut Fields<'_>) -> Result<u128, FieldError> {
        fields.u128()
    }

    fn write(value: &u128, into: &mut Vec<u8>) -> Result<(), Memory> {
        put_u128(into, *value)
    }
}

impl FieldForm<u64> for NodeForm {
    ghost use Rattle.std.specs.Prelude.{⊤};
    ghost use Rattle.std.specs.Int.{w64};
    ghost use Rattle.store_fields.specs.Fields.{bytes_of_number, IsNumber};

    ghost bytes_of = { bytes_of_number w64 };

    ghost is_in_range = { IsNumber w64 };

    ghost fits = { λ number. ⊤ };

    fn read(_: Global, fields: &mut Fields<'_>) -> Result<u64, FieldError> {
        fields.u64()
    }

    fn write(value: &u64, into: &mut Vec<u8>) -> Result<(), Memory> {
        put_u64(into, *value)
    }
}

impl FieldForm<Stage> for NodeForm {
    ghost use Rattle.std.specs.Prelude.{⊤};
    ghost use Rattle.node_store.specs.Bodies.{bytes_of_stage};

    ghost bytes_of = { bytes_of_stage };

    ghost is_in_range = { λ stage. ⊤ };

    ghost fits = { λ stage. ⊤ };

    fn read(_: Global, fields: &mut Fields<'_>) -> Result<Stage, FieldError> {
        read_stage(fields)
    }

    fn write(value: &Stage, into: &mut Vec<u8>) -> Result<(), Memory> {
        put_stage_byte(into, *value)
    }
}

impl FieldForm<Report> for NodeForm {
    ghost use Rattle.report_log.specs.Sizes.{ReportInSize};
    ghost use Rattle.node_store.specs.Reports.{bytes_of_report, IsReport};

    ghost bytes_of = { bytes_of_report };

    ghost is_in_range = { IsReport };

    ghost fits = { ReportInSize };

    fn read(alloc: Global, fields: &mut Fields<'_>) -> Result<Report, FieldError> {
        read_report(alloc, fields)
    }

    fn write(value: &Report, into: &mut Vec<u8>) -> Result<(), Memory> {
        put_report(into, value)
    }
}

impl FieldForm<Items<Part>> for NodeForm {
    ghost use Rattle.node_state.specs.Lists.{IsStaged};
    ghost use Rattle.node_store.specs.Parts.{bytes_of_parts, AreParts};

    ghost bytes_of = { bytes_of_parts };

    ghost is_in_range = { AreParts };

    ghost fits = { IsStaged };

    fn read(alloc: Global, fields: &mut Fields<'_>) -> Result<Items<Part>, FieldError> {
        read_list::<NodeForm, Part>(alloc, fields)
    }

    fn write(value: &Items<Part>, into: &mut Vec<u8>) -> Result<(), Memory> {
        put_parts(into, value.as_slice())
    }
}

impl FieldForm<Items<PartMark>> for NodeForm {
    ghost use Rattle.std.specs.Prelude.{◌<◌, ◌≤◌, length, encode_utf8_all};
    ghost use Rattle.std.specs.List.{AllByRecursion};
    ghost use Rattle.store_fields.specs.Fields.{IsList};
    ghost use Rattle.store_fields.specs.declared.limits.TheConstants.{MAX_TEXT};
    ghost use Rattle.node_store.specs.Digests.{bytes_of_marks};
    ghost use Rattle.node_store.specs.Reports.{IsMark};

    ghost bytes_of = { bytes_of_marks };

    ghost is_in_range = { IsList IsMark };

    ghost fits = { λ marks. (length marks < 256) × AllByRecursion (λ mark. length (encode_utf8_all mark.name) ≤ MAX_TEXT) marks };

    fn read(alloc: Global, fields: &mut Fields<'_>) -> Result<Items<PartMark>, FieldError> {
        read_list::<NodeForm, PartMark>(alloc, fields)
    }

    fn write(value: &Items<PartMark>, into: &mut Vec<u8>) -> Result<(), Memory> {
        put_list::<NodeForm, PartMark>(into, value.as_slice())
    }
}
