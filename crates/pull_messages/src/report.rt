//! Reports of agents.
ghost use Rattle.std.specs.Prelude.{◌≡◌, ◌<◌, ◌^◌, IfOk, OnOk, map};
ghost use Rattle.serde_json.specs.View.{view, members_view};
ghost use Rattle.serde_json.specs.Data.{put as with_member};
ghost use Rattle.pull_messages.specs.Bodies.{ReadsBy, Says};
ghost use Rattle.pull_messages.specs.Recoding.{recoded, IsRecodedReport, with_first, with_others};
ghost use Rattle.pull_messages.specs.Names.{name_of};
ghost use Rattle.pull_messages.specs.Results.{Gives};
ghost use Rattle.pull_messages.specs.Tables.{report_of};
ghost use Rattle.pull_messages.specs.Writing.{report_data, report_text, text_data, texts_data};

use crate::body::value_of;
use crate::limits::Limit;
use crate::lists::optional_texts;
use crate::members::{object, optional_text, required_id};
use crate::values::{id_value, text_value, texts_value};
use crate::{Field, MessageError};
use mof_values::{Items, Memory, Text};
use serde_json::{Map, Value, put};
use std::alloc::{AllocError, Global};

/// What an agent did, and what it found. Times and the wish for a reboot are texts.
#[derive(Debug, Drop, PartialEq)]
pub struct ReportMessage {
    /// The 128 bits of the job's identifier.
    pub job: u128,

    pub operation: Text,
    pub refresh: Text,
    pub status: Text,
    pub format: Text,
    pub version: Text,
    pub start: Text,
    pub end: Text,
    pub reboot: Text,
    pub errors: Items<Text>,
    pub status_data: Items<Text>,
}

/// Reads a report from the body of a request.
pub fn read_report(alloc: Global, body: &[u8]) -> Result<ReportMessage, MessageError>
    ensures { ReadsBy report_of body.now result }
{
    report_in(alloc, &value_of(alloc, body)?)
}

#[tactic(auto, unfolding(crate::specs::Tables::report_of))]
fn report_in(alloc: Global, body: &Value) -> Result<ReportMessage, MessageError>
    ensures { Gives (λ x. x) result (report_of (view body.now)) }
{
    let top = object(body, Field::Body)?;
    Ok(ReportMessage {
        job: required_id(top, Field::JobId)?,
        operation: optional_text(alloc, top, Field::OperationType, Limit::Free)?,
        refresh: optional_text(alloc, top, Field::RefreshMode, Limit::Free)?,
        status: optional_text(alloc, top, Field::Status, Limit::Free)?,
        format: optional_text(alloc, top, Field::ReportFormatVersion, Limit::Free)?,
        version: optional_text(alloc, top, Field::ConfigurationVersion, Limit::Free)?,
        start: optional_text(alloc, top, Field::StartTime, Limit::Free)?,
        end: optional_text(alloc, top, Field::EndTime, Limit::Free)?,
        reboot: optional_text(alloc, top, Field::RebootRequested, Limit::Free)?,
        errors: optional_texts(alloc, top, Field::Errors)?,
        status_data: optional_texts(alloc, top, Field::StatusData)?,
    })
}

/// Writes a report as compact JSON, its members in byte order and the job's identifier hyphenated in lower case.
pub fn write_report(alloc: Global, x: &ReportMessage) -> Result<Vec<u8>, Memory>
    ensures text { IfOk result (λ body. body.items ≡ report_text x.now) }
    ensures reads_back { IfOk result (λ body. Says report_of body.items (Ok x.now)) }
{
    Ok(report_value(alloc, x)?.to_vec(alloc)?)
}

fn report_value(alloc: Global, x: &ReportMessage) -> Result<Value, AllocError>
    ensures value { IfOk result (λ value. view value ≡ report_data x.now) }
    ensures recoded { OnOk result (IsRecodedReport x.now) }
{
    let mut members = Map::new(alloc);
    put_first(&mut members, alloc, x)?;
    put_others(&mut members, alloc, x)?;
    Ok(Value::Object(members))
}

fn put_first(
    members: &mut Map<String, Value>,
    alloc: Global,
    x: &ReportMessage,
) -> Result<(), AllocError>
    ensures value { OnOk result (members_view members.new.entries ≡ with_first x.now (members_view members.old.entries)) }
    ensures job { OnOk result (x.now.job < 2 ^ 128) }
    ensures version { OnOk result (recoded x.now.version ≡ x.now.version) }
    ensures end { OnOk result (recoded x.now.«end» ≡ x.now.«end») }
    ensures operation { OnOk result (recoded x.now.operation ≡ x.now.operation) }
    ensures errors { OnOk result (map recoded x.now.errors ≡ x.now.errors) }
{
    put_text(members, alloc, Field::ConfigurationVersion, &x.version)?;
    put_text(members, alloc, Field::EndTime, &x.end)?;
    put_texts(members, alloc, Field::Errors, &x.errors)?;
    put(members, alloc, Field::JobId.name(), id_value(alloc, x.job)?)?;
    put_text(members, alloc, Field::OperationType, &x.operation)
}

fn put_others(
    members: &mut Map<String, Value>,
    alloc: Global,
    x: &ReportMessage,
) -> Result<(), AllocError>
    ensures value { OnOk result (members_view members.new.entries ≡ with_others x.now (members_view members.old.entries)) }
    ensures reboot { OnOk result (recoded x.now.reboot ≡ x.now.reboot) }
    ensures refresh { OnOk result (recoded x.now.refresh ≡ x.now.refresh) }
    ensures format { OnOk result (recoded x.now.format ≡ x.now.format) }
    ensures start { OnOk result (recoded x.now.start ≡ x.now.start) }
    ensures status { OnOk result (recoded x.now.status ≡ x.now.status) }
    ensures status_data { OnOk result (map recoded x.now.status_data ≡ x.now.status_data) }
{
    put_text(members, alloc, Field::RebootRequested, &x.reboot)?;
    put_text(members, alloc, Field::RefreshMode, &x.refresh)?;
    put_text(members, alloc, Field::ReportFormatVersion, &x.format)?;
    put_text(members, alloc, Field::StartTime, &x.start)?;
    put_text(members, alloc, Field::Status, &x.status)?;
    put_texts(members, alloc, Field::StatusData, &x.status_data)
}

fn put_text(
    members: &mut Map<String, Value>,
    alloc: Global,
    field: Field,
    text: &Text,
) -> Result<(), AllocError>
    ensures value { OnOk result (members_view members.new.entries
        ≡ with_member (name_of field) (text_data text.now) (members_view members.old.entries)) }
    ensures recoded { OnOk result (recoded text.now ≡ text.now) }
{
    let value = text_value(text)?;
    put(members, alloc, field.name(), value)
}

fn put_texts(
    members: &mut Map<String, Value>,
    alloc: Global,
    field: Field,
    texts: &Items<Text>,
) -> Result<(), AllocError>
    ensures value { OnOk result (members_view members.new.entries
        ≡ with_member (name_of field) (texts_data texts.now) (members_view members.old.entries)) }
    ensures recoded { OnOk result (map recoded texts.now ≡ texts.now) }
{
    let value = texts_value(alloc, texts)?;
    put(members, alloc, field.name(), value)
}
