//! The message of a report.
ghost use Rattle.std.specs.Prelude.{◌≡◌, ◌≤◌, ◌∷◌, [], IfOk, Some, map, length, encode_utf8_all, string_bytes};
ghost use Rattle.serde_json.specs.View.{view};
ghost use Rattle.serde_json.specs.Written.{compact_text};
ghost use Rattle.http_frames.specs.Limits.{request_limits};
ghost use Rattle.pull_messages.specs.Writing.{report_text};
ghost use Rattle.dsc_outside.specs.Clock.{last_moment};
ghost use Rattle.pull_client.specs.Moments.{IsMomentText};
ghost use Rattle.pull_client.specs.Reports.{IsMessageOf, counts_data, counts_text, error_text, kind_name, operation_name, part_data, reason_name, reboot_name, refresh_name, status_name};
ghost use Rattle.report_log.specs.Sizes.{ReportInSize};
ghost use Rattle.shared_key.specs.Checksum.{checksum_of};

use crate::marks::look_at_marks;
use crate::moments::moment_text;
use mof_values::{Items, Memory, Text};
use pull_messages::ReportMessage;
use report_log::{FailureKind, Missed, Outcome, PartMark, Reason, Report};
use serde_json::{Value, json};
use shared_key::checksum_text;
use std::alloc::{AllocError, Global};

/// The message of a report of that agent, which is the value of its identifier; a body that a server takes.
pub fn message_of(alloc: Global, report: &Report, agent: u128) -> Result<ReportMessage, Memory>
    requires { ReportInSize report.now }
    ensures is { IfOk result (λ message. IsMessageOf agent report.now message) }
    ensures fits { IfOk result (λ message. length (report_text message) ≤ request_limits.content) }
{
    look_at_marks(report.parts.as_slice());
    made(alloc, report, agent)
}

fn made(alloc: Global, report: &Report, agent: u128) -> Result<ReportMessage, Memory>
    requires { ReportInSize report.now }
    ensures { IfOk result (λ message. IsMessageOf agent report.now message) }
{
    Ok(ReportMessage {
        job: agent ^ u128::from(report.job),
        operation: word(alloc, operation_name(report.initial))?,
        refresh: word(alloc, refresh_name(report.pull))?,
        status: word(alloc, status_name(report.outcome))?,
        format: word(alloc, "2.0")?,
        version: report.version.clone()?,
        start: second_text(alloc, report.start)?,
        end: second_text(alloc, report.end)?,
        reboot: word(alloc, reboot_name(report.outcome))?,
        errors: Items::of(errors(alloc, report.listed.as_slice())?),
        status_data: Items::of(counts(alloc, report)?),
    })
}

// A text of ASCII.
fn word(alloc: Global, word: &str) -> Result<Text, AllocError>
    ensures { IfOk result (λ text. text ≡ word.now) }
{
    Text::from_latin1(alloc, word.as_bytes())
}

fn second_text(alloc: Global, moment: u64) -> Result<Text, AllocError>
    requires { moment ≤ last_moment }
    ensures { IfOk result (λ text. IsMomentText (Some 0) moment text) }
{
    let text = Text::from_latin1(alloc, moment_text(moment, 0).as_str().as_bytes())?;
    Ok(text)
}

fn operation_name(initial: bool) -> &'static str
    ensures { result.now ≡ operation_name initial }
{
    if initial { "Initial" } else { "Consistency" }
}

fn refresh_name(pull: bool) -> &'static str
    ensures { result.now ≡ refresh_name pull }
{
    if pull { "Pull" } else { "Push" }
}

fn status_name(outcome: Outcome) -> &'static str
    ensures { result.now ≡ status_name outcome }
{
    match outcome {
        Outcome::Success => "Success",
        Outcome::Failure => "Failure",
        Outcome::Reboot => "InProgress",
    }
}

fn reboot_name(outcome: Outcome) -> &'static str
    ensures { result.now ≡ reboot_name outcome }
{
    match outcome {
        Outcome::Success | Outcome::Failure => "False",
        Outcome::Reboot => "True",
    }
}

fn kind_name(kind: FailureKind) -> &'static str
    ensures { result.now ≡ kind_name kind }
{
    match kind {
        FailureKind::NoSuchResource => "NoSuchResource",
        FailureKind::OutOfProfile => "OutOfProfile",
        FailureKind::BadPath => "BadPath",
        FailureKind::InTheWay => "InTheWay",
        FailureKind::HostFailed => "HostFailed",
    }
}

fn reason_name(reason: Reason) -> &'static str
    ensures { result.now ≡ reason_name reason }
{
    match reason {
        Reason::NotInDesiredState => "NotInDesiredState",
        Reason::Failed(kind) => kind_name(kind),
        Reason::Skipped => "Skipped",
        Reason::RebootAsked => "RebootAsked",
        Reason::NotReached => "NotReached",
    }
}

fn errors(alloc: Global, listed: &[Missed]) -> Result<Vec<Text>, AllocError>
    ensures { IfOk result (λ errors. errors.items ≡ map error_text listed.now) }
{
    let mut errors = Vec::new(alloc);
    for missed in listed {
        errors.push(error_text(alloc, missed)?)?;
    }
    Ok(errors)
}

fn error_text(alloc: Global, missed: &Missed) -> Result<Text, AllocError>
    ensures { IfOk result (λ text. text ≡ error_text missed.now) }
{
    let mut chars = missed.id.as_slice().to_vec(alloc)?;
    chars.push(':')?;
    chars.push(' ')?;
    chars.extend_from_slice(word(alloc, reason_name(missed.reason))?.as_slice())?;
    Ok(Text::of(chars))
}

fn counts(alloc: Global, report: &Report) -> Result<Vec<Text>, AllocError>
    ensures { IfOk result (λ texts. texts.items ≡ counts_text report.now ∷ []) }
{
    let mut texts = Vec::new(alloc);
    texts.push(counts_text(alloc, report)?)?;
    Ok(texts)
}

fn counts_text(alloc: Global, report: &Report) -> Result<Text, AllocError>
    ensures { IfOk result (λ text. text ≡ counts_text report.now) }
{
    let text = counts_json(alloc, report)?;
    Text::from_utf8(alloc, text.as_str())
}

fn counts_json(alloc: Global, report: &Report) -> Result<String, AllocError>
    ensures { IfOk result (λ text. string_bytes text ≡ compact_text (counts_data report.now)) }
{
    let value = counts_value(alloc, report)?;
    let text = value.to_string(alloc)?;
    Ok(text)
}

fn counts_value(alloc: Global, report: &Report) -> Result<Value, AllocError>
    ensures { IfOk result (λ value. view value ≡ counts_data report.now) }
{
    let parts = Value::Array(part_values(alloc, report.parts.as_slice())?);
    let missed = Value::from(report.missed);
    let total = Value::from(report.total);
    json!(in alloc; {"NumberNotInDesiredState": missed, "NumberOfResources": total, "Parts": parts})
}

fn part_values(alloc: Global, parts: &[PartMark]) -> Result<Vec<Value>, AllocError>
    ensures { IfOk result (λ values. map view values.items ≡ map part_data parts.now) }
{
    let mut values = Vec::new(alloc);
    for part in parts {
        values.push(part_value(alloc, part)?)?;
    }
    Ok(values)
}

fn part_value(alloc: Global, part: &PartMark) -> Result<Value, AllocError>
    ensures { IfOk result (λ value. view value ≡ part_data part.now) }
{
    let checksum = Value::String(checksum_string(alloc, &part.digest)?);
    let name = Value::String(part.name.to_utf8()?);
    json!(in alloc; {"Checksum": checksum, "ConfigurationName": name})
}

fn checksum_string(alloc: Global, digest: &[u8; 32]) -> Result<String, AllocError>
    ensures { IfOk result (λ text. string_bytes text ≡ encode_utf8_all (checksum_of digest.now)) }
{
    Text::from_latin1(alloc, &checksum_text(digest))?.to_utf8()
}
