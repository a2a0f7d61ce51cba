//! The cells of an agent's row in a table.
ghost use Rattle.std.specs.Prelude.{◌≡◌, ◌++◌, IfOk, OnOk, [], option_map};
ghost use Rattle.std.specs.List.{flat_map};
ghost use Rattle.agent_line.specs.Table.{cells_of, class_cell, count_cell, ended_cell, further_id, head_cells, ids_cell, name_by, text_cell, text_or_dash, unmet_cell, word_cell};
ghost use Rattle.agent_line.specs.Unmet.{id_in};

use crate::harmless::push_harmless;
use crate::number::count_of;
use crate::unmet::divided;
use itoa::Buffer;
use mof_values::{Bytes, Text};
use pull_messages::ReportMessage;
use pull_store::Row;
use std::alloc::{AllocError, Global};
use uuid::Uuid;

/// A text of a table in UTF-8, and how many characters wide it is.
#[derive(Drop)]
pub struct Cell {
    pub text: Bytes,
    pub width: usize,
}

/// What a table has of an agent.
#[derive(Drop)]
pub struct Cells {
    /// The name that it registered with, or its id.
    pub name: Cell,

    /// The name of its class, and whether it is stale.
    pub class: Cell,

    /// When its last job ended.
    pub ended: Cell,

    /// How many resources are not in the desired state.
    pub count: Cell,

    /// The ids of these.
    pub unmet: Cell,
}

/// The names of the columns.
pub fn head_cells(alloc: Global) -> Result<Cells, AllocError>
    ensures { IfOk result (λ cells. cells ≡ head_cells) }
{
    Ok(Cells {
        name: word_cell(alloc, "MACHINE")?,
        class: word_cell(alloc, "CLASS")?,
        ended: word_cell(alloc, "ENDED")?,
        count: word_cell(alloc, "COUNT")?,
        unmet: word_cell(alloc, "NOT IN THE DESIRED STATE")?,
    })
}

/// The cells of the agent of a row, with the name of its class, whether it is stale, and its last report, where that is one.
pub fn cells_of(
    alloc: Global,
    row: &Row,
    class: &str,
    stale: bool,
    message: Option<&ReportMessage>,
) -> Result<Cells, AllocError>
    ensures { IfOk result (λ cells. cells
        ≡ cells_of row.now class.now stale (option_map (λ m. m.now) message.entry)) }
{
    Ok(Cells {
        name: name_cell(alloc, row)?,
        class: class_cell(alloc, class, stale)?,
        ended: ended_cell(alloc, message)?,
        count: count_cell(alloc, message)?,
        unmet: unmet_cell(alloc, message)?,
    })
}

fn name_cell(alloc: Global, row: &Row) -> Result<Cell, AllocError>
    ensures { IfOk result (λ cell. cell ≡ name_by row.now.registration.node_name row.now.agent) }
{
    match row.registration.node_name.as_slice() {
        [] => id_cell(alloc, row.agent),
        [_, ..] => text_cell(alloc, &row.registration.node_name),
    }
}

fn class_cell(alloc: Global, class: &str, stale: bool) -> Result<Cell, AllocError>
    ensures { IfOk result (λ cell. cell ≡ class_cell class.now stale) }
{
    if stale {
        let text = format!(in alloc; "{class} (stale)")?;
        word_cell(alloc, text.as_str())
    } else {
        word_cell(alloc, class)
    }
}

fn ended_cell(alloc: Global, message: Option<&ReportMessage>) -> Result<Cell, AllocError>
    ensures { IfOk result (λ cell. cell ≡ ended_cell (option_map (λ m. m.now) message.entry)) }
{
    match message {
        Some(message) => text_or_dash(alloc, &message.end),
        None => word_cell(alloc, "-"),
    }
}

fn count_cell(alloc: Global, message: Option<&ReportMessage>) -> Result<Cell, AllocError>
    ensures { IfOk result (λ cell. cell ≡ count_cell (option_map (λ m. m.now) message.entry)) }
{
    match message {
        Some(message) => {
            let count = count_of(
                alloc,
                message.errors.as_slice(),
                message.status_data.as_slice(),
            )?;
            let mut digits = Buffer::new();
            word_cell(alloc, digits.format(count))
        }
        None => word_cell(alloc, "-"),
    }
}

fn unmet_cell(alloc: Global, message: Option<&ReportMessage>) -> Result<Cell, AllocError>
    ensures { IfOk result (λ cell. cell ≡ unmet_cell (option_map (λ m. m.now) message.entry)) }
{
    match message {
        Some(message) => ids_cell(alloc, message.errors.as_slice()),
        None => word_cell(alloc, "-"),
    }
}

fn ids_cell(alloc: Global, errors: &[Text]) -> Result<Cell, AllocError>
    ensures { IfOk result (λ cell. cell ≡ ids_cell errors.now) }
{
    match errors {
        [first, rest @ ..] => text_cell(alloc, &joined(alloc, first, rest)?),
        [] => word_cell(alloc, "-"),
    }
}

// The ids of resources, with a comma and a blank between two.
fn joined(alloc: Global, first: &Text, rest: &[Text]) -> Result<Text, AllocError>
    ensures { IfOk result (λ text. text ≡ id_in first.now ++ flat_map further_id rest.now) }
{
    let mut chars = Vec::new(alloc);
    push_id_in(&mut chars, first)?;
    push_further(&mut chars, rest)?;
    Ok(Text::of(chars))
}

#[tactic(auto, using(std::proofs::lemmas::List::flat_map_more))]
fn push_further(chars: &mut Vec<char>, errors: &[Text]) -> Result<(), AllocError>
    ensures { OnOk result (chars.new.items ≡ chars.old.items ++ flat_map further_id errors.now) }
{
    for error in errors {
        chars.extend_from_slice(&[',', ' '])?;
        push_id_in(chars, error)?;
    }
    Ok(())
}

fn push_id_in(chars: &mut Vec<char>, error: &Text) -> Result<(), AllocError>
    ensures { OnOk result (chars.new.items ≡ chars.old.items ++ id_in error.now) }
{
    let (id, _reason) = divided(error.as_slice());
    chars.extend_from_slice(id)
}

fn text_or_dash(alloc: Global, text: &Text) -> Result<Cell, AllocError>
    ensures { IfOk result (λ cell. cell ≡ text_or_dash text.now) }
{
    match text.as_slice() {
        [] => word_cell(alloc, "-"),
        [_, ..] => text_cell(alloc, text),
    }
}

// A text of another machine.
fn text_cell(alloc: Global, text: &Text) -> Result<Cell, AllocError>
    ensures { IfOk result (λ cell. cell ≡ text_cell text.now) }
{
    let mut shown = Vec::new(alloc);
    push_harmless(&mut shown, alloc, text)?;
    Ok(Cell {
        text: Bytes::of(shown),
        width: text.as_slice().len(),
    })
}

#[tactic(auto, unfolding(pull_messages::specs::Writing::id_text))]
fn id_cell(alloc: Global, id: u128) -> Result<Cell, AllocError>
    ensures { IfOk result (λ cell. cell ≡ name_by [] id) }
{
    let id = Uuid::from_u128(id);
    let text = format!(in alloc; "{id}")?;
    word_cell(alloc, text.as_str())
}

// Text in ASCII.
fn word_cell(alloc: Global, word: &str) -> Result<Cell, AllocError>
    ensures { IfOk result (λ cell. cell ≡ word_cell word.now) }
{
    let mut text = Vec::new(alloc);
    text.extend_from_slice(word.as_bytes())?;
    Ok(Cell {
        text: Bytes::of(text),
        width: word.len(),
    })
}
