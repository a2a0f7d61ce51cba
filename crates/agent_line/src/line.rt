//! The line of an agent, and that of one of its reports.
ghost use Rattle.std.specs.Prelude.{◌≡◌, ◌++◌, None, OnOk, codes, option_map};
ghost use Rattle.std.specs.Fmt.{decimal};
ghost use Rattle.agent_line.specs.Lines.{class_part, count_part, forgotten_line, id_json, id_or_null, job_of, key, line_of, named_of, registered_of, report_line, run_of, said_of, standing_of, times_of, truth, unmet_of, who_of, word_json};

use crate::json::{push_text, push_text_or_null, push_texts};
use crate::number::count_of;
use crate::unmet::push_unmet;
use itoa::Buffer;
use mof_values::Text;
use pull_messages::ReportMessage;
use pull_store::Row;
use std::alloc::{AllocError, Global};
use uuid::Uuid;

/// Adds the line of the agent of a row: of the store at this path, with the name of its class, whether it is stale, and its last
/// report, where that is one.
#[tactic(auto, unfolding(crate::specs::Lines::line_of))]
pub fn push_line(
    out: &mut Vec<u8>,
    alloc: Global,
    store: &Text,
    row: &Row,
    class: &str,
    stale: bool,
    message: Option<&ReportMessage>,
) -> Result<(), AllocError>
    ensures { let said = option_map (λ m. m.now) message.entry in
        OnOk result (out.new.items
        ≡ out.old.items ++ line_of store.now row.now class.now stale said) }
{
    push_who(out, alloc, store, row)?;
    push_registered(out, alloc, row)?;
    push_standing(out, class, stale)?;
    push_key(out, "job")?;
    push_id_or_null(out, alloc, job_of(row))?;
    push_run_of(out, alloc, message)?;
    Ok(())
}

/// Adds the line of a report that the store at this path keeps of the agent of a row: of this job, with the name of the class that it
/// gives, and its message, where it is one.
#[tactic(auto, unfolding(crate::specs::Lines::report_line))]
pub fn push_report(
    out: &mut Vec<u8>,
    alloc: Global,
    store: &Text,
    row: &Row,
    job: u128,
    class: &str,
    message: Option<&ReportMessage>,
) -> Result<(), AllocError>
    ensures { let said = option_map (λ m. m.now) message.entry in
        OnOk result (out.new.items
        ≡ out.old.items ++ report_line store.now row.now job class.now said) }
{
    push_who(out, alloc, store, row)?;
    push_named(out, alloc, row)?;
    push_class(out, class)?;
    push_key(out, "job")?;
    push_id(out, alloc, job)?;
    push_run_of(out, alloc, message)?;
    Ok(())
}

/// Adds the line of an agent that the store at this path forgets.
#[tactic(auto, unfolding(crate::specs::Lines::forgotten_line))]
pub fn push_forgotten(
    out: &mut Vec<u8>,
    alloc: Global,
    store: &Text,
    row: &Row,
) -> Result<(), AllocError>
    ensures { OnOk result (out.new.items ≡ out.old.items ++ forgotten_line store.now row.now) }
{
    out.extend_from_slice(b"{\"store\":")?;
    push_text(out, alloc, store)?;
    push_key(out, "forgotten")?;
    push_id(out, alloc, row.agent)?;
    push_named(out, alloc, row)?;
    out.extend_from_slice(b"}\n")
}

#[tactic(auto, unfolding(crate::specs::Lines::who_of))]
fn push_who(out: &mut Vec<u8>, alloc: Global, store: &Text, row: &Row) -> Result<(), AllocError>
    ensures { OnOk result (out.new.items ≡ out.old.items ++ who_of store.now row.now) }
{
    out.extend_from_slice(b"{\"store\":")?;
    push_text(out, alloc, store)?;
    push_key(out, "agent")?;
    push_id(out, alloc, row.agent)?;
    Ok(())
}

#[tactic(auto, unfolding(crate::specs::Lines::named_of))]
fn push_named(out: &mut Vec<u8>, alloc: Global, row: &Row) -> Result<(), AllocError>
    ensures { OnOk result (out.new.items ≡ out.old.items ++ named_of row.now) }
{
    push_key(out, "node_name")?;
    push_text_or_null(out, alloc, &row.registration.node_name)?;
    Ok(())
}

#[tactic(auto, unfolding(crate::specs::Lines::registered_of))]
fn push_registered(out: &mut Vec<u8>, alloc: Global, row: &Row) -> Result<(), AllocError>
    ensures { OnOk result (out.new.items ≡ out.old.items ++ registered_of row.now) }
{
    push_named(out, alloc, row)?;
    push_key(out, "configurations")?;
    push_texts(out, alloc, row.registration.names.as_slice())?;
    Ok(())
}

#[tactic(auto, unfolding(crate::specs::Lines::standing_of))]
fn push_standing(out: &mut Vec<u8>, class: &str, stale: bool) -> Result<(), AllocError>
    ensures { OnOk result (out.new.items ≡ out.old.items ++ standing_of class.now stale) }
{
    push_class(out, class)?;
    push_key(out, "stale")?;
    out.extend_from_slice(truth(stale).as_bytes())?;
    Ok(())
}

#[tactic(auto, unfolding(crate::specs::Lines::class_part))]
fn push_class(out: &mut Vec<u8>, class: &str) -> Result<(), AllocError>
    ensures { OnOk result (out.new.items ≡ out.old.items ++ class_part class.now) }
{
    push_key(out, "class")?;
    push_word(out, class)?;
    Ok(())
}

fn truth(is_so: bool) -> &'static str
    ensures { result.now ≡ truth is_so }
{
    if is_so { "true" } else { "false" }
}

// The name of a further member of the object.
#[tactic(auto, unfolding(crate::specs::Lines::key))]
fn push_key(out: &mut Vec<u8>, name: &str) -> Result<(), AllocError>
    ensures { OnOk result (out.new.items ≡ out.old.items ++ key name.now) }
{
    out.extend_from_slice(b",\"")?;
    out.extend_from_slice(name.as_bytes())?;
    out.extend_from_slice(b"\":")
}

// A word that needs no escape, as a JSON string.
#[tactic(auto, unfolding(crate::specs::Lines::word_json))]
fn push_word(out: &mut Vec<u8>, word: &str) -> Result<(), AllocError>
    ensures { OnOk result (out.new.items ≡ out.old.items ++ word_json word.now) }
{
    out.extend_from_slice(b"\"")?;
    out.extend_from_slice(word.as_bytes())?;
    out.extend_from_slice(b"\"")
}

// The job of the newest report.
fn job_of(row: &Row) -> Option<u128>
    ensures { result ≡ job_of row.now }
{
    match row.reports.as_slice().last() {
        Some(report) => Some(report.job),
        None => None,
    }
}

fn push_id_or_null(out: &mut Vec<u8>, alloc: Global, id: Option<u128>) -> Result<(), AllocError>
    ensures { OnOk result (out.new.items ≡ out.old.items ++ id_or_null id) }
{
    match id {
        Some(id) => push_id(out, alloc, id),
        None => out.extend_from_slice(b"null"),
    }
}

#[tactic(auto, unfolding(pull_messages::specs::Writing::id_text, crate::specs::Lines::id_json))]
fn push_id(out: &mut Vec<u8>, alloc: Global, id: u128) -> Result<(), AllocError>
    ensures { OnOk result (out.new.items ≡ out.old.items ++ id_json id) }
{
    let id = Uuid::from_u128(id);
    let text = format!(in alloc; "{id}")?;
    push_word(out, text.as_str())
}

fn push_run_of(
    out: &mut Vec<u8>,
    alloc: Global,
    message: Option<&ReportMessage>,
) -> Result<(), AllocError>
    ensures { OnOk result (out.new.items ≡ out.old.items ++ run_of (option_map (λ m. m.now) message.entry)) }
{
    match message {
        Some(message) => push_run(out, alloc, message),
        None => push_no_run(out),
    }
}

fn push_no_run(out: &mut Vec<u8>) -> Result<(), AllocError>
    ensures { OnOk result (out.new.items ≡ out.old.items ++ run_of None) }
{
    out.extend_from_slice(
        b",\"operation\":null,\"start\":null,\"end\":null,\"not_in_desired_state\":[],\"count\":0}\n",
    )
}

#[tactic(auto, unfolding(crate::specs::Lines::said_of))]
fn push_run(out: &mut Vec<u8>, alloc: Global, message: &ReportMessage) -> Result<(), AllocError>
    ensures { OnOk result (out.new.items ≡ out.old.items ++ said_of message.now) }
{
    push_times(out, alloc, message)?;
    push_unmet_of(out, alloc, message)?;
    push_count(out, alloc, message)?;
    Ok(())
}

#[tactic(auto, unfolding(crate::specs::Lines::times_of))]
fn push_times(out: &mut Vec<u8>, alloc: Global, message: &ReportMessage) -> Result<(), AllocError>
    ensures { OnOk result (out.new.items ≡ out.old.items ++ times_of message.now) }
{
    push_key(out, "operation")?;
    push_text_or_null(out, alloc, &message.operation)?;
    push_key(out, "start")?;
    push_text_or_null(out, alloc, &message.start)?;
    push_key(out, "end")?;
    push_text_or_null(out, alloc, &message.end)?;
    Ok(())
}

#[tactic(auto, unfolding(crate::specs::Lines::unmet_of))]
fn push_unmet_of(
    out: &mut Vec<u8>,
    alloc: Global,
    message: &ReportMessage,
) -> Result<(), AllocError>
    ensures { OnOk result (out.new.items ≡ out.old.items ++ unmet_of message.now) }
{
    push_key(out, "not_in_desired_state")?;
    push_unmet(out, alloc, message.errors.as_slice())?;
    Ok(())
}

#[tactic(auto, unfolding(crate::specs::Lines::count_part))]
fn push_count(out: &mut Vec<u8>, alloc: Global, message: &ReportMessage) -> Result<(), AllocError>
    ensures { OnOk result (out.new.items ≡ out.old.items ++ count_part message.now) }
{
    let count = count_of(
        alloc,
        message.errors.as_slice(),
        message.status_data.as_slice(),
    )?;
    let mut digits = Buffer::new();
    push_key(out, "count")?;
    out.extend_from_slice(digits.format(count).as_bytes())?;
    out.extend_from_slice(b"}\n")
}
