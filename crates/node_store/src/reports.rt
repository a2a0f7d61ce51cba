//! How the report of a run is written into a body of a store, and read.
ghost use Rattle.std.specs.Prelude.{◌≡◌, ◌≤◌, OnOk, IfErr, length, encode_utf8_all, ⊤};
ghost use Rattle.std.specs.List.{AllByRecursion};
ghost use Rattle.std.specs.Int.{w32, w64};
ghost use Rattle.store_fields.specs.Fields.{IsText};
ghost use Rattle.store_fields.specs.Reading.{Reads};
ghost use Rattle.store_fields.specs.Writing.{Writes};
ghost use Rattle.dsc_document.specs.Sizes.{Fits};
ghost use Rattle.report_log.specs.Sizes.{ReportInSize};
ghost use Rattle.report_log.specs.declared.limits.TheConstants.{LISTED_LIMIT, MAX_PARTS};
ghost use Rattle.node_store.specs.Reports.{bytes_of_outcome, bytes_of_reason, bytes_of_missed, bytes_of_mark, bytes_of_report, bytes_of_job, bytes_of_run, bytes_of_result, bytes_of_lists, byte_of_outcome, byte_of_reason, IsMissed, IsMark, IsReport, IsJob, IsRun, IsResult, AreLists};

use mof_values::{Items, Memory, Text};
use report_log::{FailureKind, Missed, Outcome, PartMark, Reason, Report, is_in_size};
use std::alloc::Global;
use store_fields::{
    FieldError, FieldForm, Fields, MAX_TEXT, put_byte, put_digest, put_flag, put_list, put_text,
    put_u32, put_u64, read_list,
};

/// How the values of a node stand in its bodies.
pub struct NodeForm;

/// Appends a report.
#[tactic(auto, unfolding(crate::specs::Reports::bytes_of_report))]
pub fn put_report(into: &mut Vec<u8>, report: &Report) -> Result<(), Memory>
    requires { ReportInSize report.now }
    ensures writes { Writes (bytes_of_report report.now) into.old into.new result }
    ensures in_range { OnOk result (IsReport report.now) }
{
    put_job(into, report.job, report.initial, report.pull)?;
    put_run(into, report.start, report.end, &report.version)?;
    put_result(into, report.outcome, report.total, report.missed)?;
    put_lists(into, report.listed.as_slice(), report.parts.as_slice())
}

#[tactic(auto, unfolding(crate::specs::Reports::bytes_of_job))]
fn put_job(into: &mut Vec<u8>, job: u64, initial: bool, pull: bool) -> Result<(), Memory>
    ensures writes { Writes (bytes_of_job (job, initial, pull)) into.old into.new result }
{
    put_u64(into, job)?;
    put_flag(into, initial)?;
    put_flag(into, pull)
}

#[tactic(auto, unfolding(crate::specs::Reports::bytes_of_run))]
fn put_run(into: &mut Vec<u8>, start: u64, end: u64, version: &Text) -> Result<(), Memory>
    requires { length (encode_utf8_all version.now) ≤ MAX_TEXT }
    ensures writes { Writes (bytes_of_run (start, end, version.now)) into.old into.new result }
    ensures in_range { OnOk result (IsText MAX_TEXT version.now) }
{
    put_u64(into, start)?;
    put_u64(into, end)?;
    put_text(into, version)
}

#[tactic(auto, unfolding(crate::specs::Reports::bytes_of_result))]
fn put_result(into: &mut Vec<u8>, outcome: Outcome, total: u32, missed: u32) -> Result<(), Memory>
    ensures writes { Writes (bytes_of_result (outcome, total, missed)) into.old into.new result }
{
    put_byte(into, outcome_byte(outcome))?;
    put_u32(into, total)?;
    put_u32(into, missed)
}

#[tactic(auto, unfolding(crate::specs::Reports::bytes_of_lists))]
fn put_lists(into: &mut Vec<u8>, listed: &[Missed], parts: &[PartMark]) -> Result<(), Memory>
    requires listed { (length listed.now ≤ LISTED_LIMIT) × AllByRecursion (λ missed. Fits MAX_TEXT missed.id) listed.now }
    requires parts { (length parts.now ≤ MAX_PARTS) × AllByRecursion (λ mark. Fits MAX_TEXT mark.name) parts.now }
    ensures writes { Writes (bytes_of_lists (listed.now, parts.now)) into.old into.new result }
    ensures in_range { OnOk result (AreLists (listed.now, parts.now)) }
{
    put_list::<NodeForm, Missed>(into, listed)?;
    put_list::<NodeForm, PartMark>(into, parts)
}

fn outcome_byte(outcome: Outcome) -> u8
    ensures { result ≡ byte_of_outcome outcome }
{
    match outcome {
        Outcome::Success => 0,
        Outcome::Failure => 1,
        Outcome::Reboot => 2,
    }
}

/// The report that stands at the front of what is still to be read.
pub fn read_report(alloc: Global, fields: &mut Fields<'_>) -> Result<Report, FieldError>
    ensures { Reads bytes_of_report IsReport fields.old fields.new result }
{
    let (job, initial, pull) = read_job(fields)?;
    let (start, end, version) = read_run(alloc, fields)?;
    let (outcome, total, missed) = read_result(fields)?;
    let (listed, parts) = read_lists(alloc, fields)?;
    let report = Report {
        job,
        initial,
        pull,
        start,
        end,
        version,
        outcome,
        total,
        missed,
        listed,
        parts,
    };
    if is_in_size(&report) {
        Ok(report)
    } else {
        Err(FieldError::Wrong)
    }
}

#[tactic(auto, unfolding(crate::specs::Reports::bytes_of_job))]
fn read_job(fields: &mut Fields<'_>) -> Result<(u64, bool, bool), FieldError>
    ensures { Reads bytes_of_job IsJob fields.old fields.new result }
{
    let job = fields.u64()?;
    let initial = fields.flag()?;
    let pull = fields.flag()?;
    Ok((job, initial, pull))
}

#[tactic(auto, unfolding(crate::specs::Reports::bytes_of_run))]
fn read_run(alloc: Global, fields: &mut Fields<'_>) -> Result<(u64, u64, Text), FieldError>
    ensures { Reads bytes_of_run IsRun fields.old fields.new result }
{
    let start = fields.u64()?;
    let end = fields.u64()?;
    let version = fields.text(alloc, MAX_TEXT)?;
    Ok((start, end, version))
}

#[tactic(auto, unfolding(crate::specs::Reports::bytes_of_result))]
fn read_result(fields: &mut Fields<'_>) -> Result<(Outcome, u32, u32), FieldError>
    ensures { Reads bytes_of_result IsResult fields.old fields.new result }
{
    let outcome = read_outcome(fields)?;
    let total = fields.u32()?;
    let missed = fields.u32()?;
    Ok((outcome, total, missed))
}

#[tactic(auto, unfolding(crate::specs::Reports::bytes_of_lists))]
fn read_lists(
    alloc: Global,
    fields: &mut Fields<'_>,
) -> Result<(Items<Missed>, Items<PartMark>), FieldError>
    ensures { Reads bytes_of_lists AreLists fields.old fields.new result }
{
    let listed = read_list::<NodeForm, Missed>(alloc, fields)?;
    let parts = read_list::<NodeForm, PartMark>(alloc, fields)?;
    Ok((listed, parts))
}

fn read_reason(fields: &mut Fields<'_>) -> Result<Reason, FieldError>
    ensures reads { Reads bytes_of_reason (λ reason. ⊤) fields.old fields.new result }
    ensures no_memory { IfErr result (λ e. e ≡ FieldError.Wrong) }
{
    match fields.byte() {
        Ok(0) => Ok(Reason::NotInDesiredState),
        Ok(1) => Ok(Reason::Skipped),
        Ok(2) => Ok(Reason::RebootAsked),
        Ok(3) => Ok(Reason::NotReached),
        Ok(4) => Ok(Reason::Failed(FailureKind::NoSuchResource)),
        Ok(5) => Ok(Reason::Failed(FailureKind::OutOfProfile)),
        Ok(6) => Ok(Reason::Failed(FailureKind::BadPath)),
        Ok(7) => Ok(Reason::Failed(FailureKind::InTheWay)),
        Ok(8) => Ok(Reason::Failed(FailureKind::HostFailed)),
        Ok(_) => Err(FieldError::Wrong),
        Err(error) => Err(error),
    }
}

fn read_outcome(fields: &mut Fields<'_>) -> Result<Outcome, FieldError>
    ensures reads { Reads bytes_of_outcome (λ outcome. ⊤) fields.old fields.new result }
    ensures no_memory { IfErr result (λ e. e ≡ FieldError.Wrong) }
{
    match fields.byte() {
        Ok(0) => Ok(Outcome::Success),
        Ok(1) => Ok(Outcome::Failure),
        Ok(2) => Ok(Outcome::Reboot),
        Ok(_) => Err(FieldError::Wrong),
        Err(error) => Err(error),
    }
}

fn reason_byte(reason: Reason) -> u8
    ensures { result ≡ byte_of_reason reason }
{
    match reason {
        Reason::NotInDesiredState => 0,
        Reason::Skipped => 1,
        Reason::RebootAsked => 2,
        Reason::NotReached => 3,
        Reason::Failed(FailureKind::NoSuchResource) => 4,
        Reason::Failed(FailureKind::OutOfProfile) => 5,
        Reason::Failed(FailureKind::BadPath) => 6,
        Reason::Failed(FailureKind::InTheWay) => 7,
        Reason::Failed(FailureKind::HostFailed) => 8,
    }
}

impl FieldForm<Missed> for NodeForm {
    ghost use Rattle.std.specs.Prelude.{◌≤◌, length, encode_utf8_all};
    ghost use Rattle.store_fields.specs.declared.limits.TheConstants.{MAX_TEXT};
    ghost use Rattle.node_store.specs.Reports.{bytes_of_missed, IsMissed};

    ghost bytes_of = { bytes_of_missed };

    ghost is_in_range = { IsMissed };

    ghost fits = { λ missed. length (encode_utf8_all missed.id) ≤ MAX_TEXT };

    fn read(alloc: Global, fields: &mut Fields<'_>) -> Result<Missed, FieldError> {
        let id = fields.text(alloc, MAX_TEXT)?;
        let reason = read_reason(fields)?;
        Ok(Missed { id, reason })
    }

    fn write(missed: &Missed, into: &mut Vec<u8>) -> Result<(), Memory> {
        put_text(into, &missed.id)?;
        put_byte(into, reason_byte(missed.reason))
    }
}

impl FieldForm<PartMark> for NodeForm {
    ghost use Rattle.std.specs.Prelude.{◌≤◌, length, encode_utf8_all};
    ghost use Rattle.store_fields.specs.declared.limits.TheConstants.{MAX_TEXT};
    ghost use Rattle.node_store.specs.Reports.{bytes_of_mark, IsMark};

    ghost bytes_of = { bytes_of_mark };

    ghost is_in_range = { IsMark };

    ghost fits = { λ mark. length (encode_utf8_all mark.name) ≤ MAX_TEXT };

    fn read(alloc: Global, fields: &mut Fields<'_>) -> Result<PartMark, FieldError> {
        let name = fields.text(alloc, MAX_TEXT)?;
        let digest = fields.digest()?;
        Ok(PartMark { name, digest })
    }

    fn write(mark: &PartMark, into: &mut Vec<u8>) -> Result<(), Memory> {
        put_text(into, &mark.name)?;
        put_digest(into, &mark.digest)
    }
}
