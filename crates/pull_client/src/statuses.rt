//! What an answer to a query says of the names that were asked.
ghost use Rattle.std.specs.Prelude.{◌≡◌, ◌⊎◌, ◌==◌, true, Err, length};
ghost use Rattle.pull_client.specs.Content.{items_in};
ghost use Rattle.pull_client.specs.Heard.{IsAnswered, SaysOr};
ghost use Rattle.pull_client.specs.Queries.{BodyTells, Tells, message_fault, fetch_of, fetches, is_about, spelled_status, status_in};
ghost use Rattle.pull_client.specs.declared.error.PeerError.TheVariants.{Memory as OutOfMemory};

use crate::PeerError;
use crate::limits::MAX_ACTION_ANSWER;
use crate::queries::held_under;
use http_frames::Reply;
use mof_values::{Text, is_named};
use pull_messages::{ActionAnswer, Detail, MessageError, read_action};
use report_log::PartMark;
use std::alloc::Global;

/// What a server says of a configuration.
#[derive(Clone, Copy, Debug, PartialEq, Eq)]
pub enum Status {
    /// `Ok`: what is held is right.
    UpToDate,

    /// `GetConfiguration`: the content is to be fetched.
    ToFetch,

    /// `RETRY`: ask again later.
    NotReady,

    /// Any other, or none.
    Unknown,
}

/// Whether the content of each name is to be fetched, as a reply says.
pub fn fetches_in(
    alloc: Global,
    reply: &Reply,
    held: &[PartMark],
    names: &[Text],
) -> Result<Vec<bool>, PeerError>
    ensures { SaysOr (Tells held.now names.now) reply.now (items_in result (λ v. v.items)) }
{
    let body = reply.body.as_slice();
    if body.len() > MAX_ACTION_ANSWER {
        return Err(PeerError::TooLong);
    }
    fetches_of(alloc, body, held, names)
}

// The same of a body within the limit.
fn fetches_of(
    alloc: Global,
    body: &[u8],
    held: &[PartMark],
    names: &[Text],
) -> Result<Vec<bool>, PeerError>
    ensures value { BodyTells true held.now names.now body.now (items_in result (λ v. v.items))
        ⊎ (items_in result (λ v. v.items) ≡ Err OutOfMemory) }
    ensures answered { IsAnswered (items_in result (λ v. v.items)) }
{
    match read_action(alloc, body) {
        Ok(answer) => fetches(alloc, &answer, held, names),
        Err(error) => Err(message_fault(error)),
    }
}

// Out of memory, the reader has not judged the body.
fn message_fault(error: MessageError) -> PeerError
    ensures value { result ≡ message_fault error }
    ensures answered { IsAnswered {T = Unit {0}} (Err result) }
{
    match error {
        MessageError::Memory => PeerError::Memory,
        other => PeerError::Message(other),
    }
}

fn fetches(
    alloc: Global,
    answer: &ActionAnswer,
    held: &[PartMark],
    names: &[Text],
) -> Result<Vec<bool>, PeerError>
    ensures value { (items_in result (λ v. v.items) ≡ fetches (length names.now == 1) answer.now
        held.now names.now) ⊎ (result ≡ Err OutOfMemory) }
    ensures answered { IsAnswered result }
{
    let only = names.len() == 1;
    let mut fetched = Vec::new(alloc);
    let mut left = names;
    while let [name, rest @ ..] = left {
        let fetch = fetch_of(
            name,
            held_under(held, name).is_some(),
            status_of(answer, only, name),
        )?;
        fetched.push(fetch)?;
        left = rest;
    }
    Ok(fetched)
}

fn fetch_of(name: &Text, holds: bool, status: Status) -> Result<bool, PeerError>
    ensures value { (result ≡ fetch_of name.now holds status) ⊎ (result ≡ Err OutOfMemory) }
    ensures answered { IsAnswered result }
{
    match status {
        Status::ToFetch => Ok(true),
        Status::UpToDate if holds => Ok(false),
        Status::NotReady => Err(PeerError::Retry { name: name.copy()? }),
        Status::UpToDate | Status::Unknown => Err(PeerError::Uncovered { name: name.copy()? }),
    }
}

fn status_of(answer: &ActionAnswer, only: bool, name: &Text) -> Status
    ensures { result ≡ status_in only answer.now.node name.now answer.now.details }
{
    let mut details = answer.details.as_slice();
    while let [detail, rest @ ..] = details {
        if is_about(only, name, detail) {
            return spelled_status(&detail.status);
        }
        details = rest;
    }
    if only {
        spelled_status(&answer.node)
    } else {
        Status::Unknown
    }
}

fn is_about(only: bool, name: &Text, detail: &Detail) -> bool
    ensures { result ≡ is_about only name.now detail.now }
{
    detail.name == *name || (only && detail.name.as_slice().is_empty())
}

fn spelled_status(text: &Text) -> Status
    ensures { result ≡ spelled_status text.now }
{
    if is_named(text.as_slice(), "Ok") {
        Status::UpToDate
    } else if is_named(text.as_slice(), "GetConfiguration") {
        Status::ToFetch
    } else if is_named(text.as_slice(), "RETRY") {
        Status::NotReady
    } else {
        Status::Unknown
    }
}
