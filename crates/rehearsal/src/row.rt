//! A row of a rehearsal, and its line.
ghost use Rattle.std.specs.Prelude.{◌≡◌, ◌++◌, OnOk, string_bytes};
ghost use Rattle.rehearsal.specs.Rows.{ending_of, ending_word, row_line, slot_word, slots_words};

use crate::words::Word;
use std::alloc::AllocError;

/// How a start ended.
#[derive(Debug, Drop)]
pub enum Ending {
    /// With the status of this name.
    Named { name: Word<'static> },

    /// The stop came in it.
    Stopped,
}

/// The numbers of the parts that a node holds, in its three places.
#[derive(Clone, Copy, Debug, PartialEq, Eq)]
pub struct Slots {
    pub pending: Option<usize>,
    pub current: Option<usize>,
    pub previous: Option<usize>,
}

/// How a start ended, and what the node then holds.
#[derive(Debug, Drop)]
pub struct StartRow {
    /// The number of the start, counted from 1.
    pub number: u32,

    pub ending: Ending,
    pub slots: Slots,
}

/// How a start ended that answered this name.
pub fn ending_of(stopped: bool, name: &'static str) -> Ending
    ensures { result ≡ ending_of stopped name.now }
{
    if stopped {
        return Ending::Stopped;
    }
    Ending::Named {
        name: Word::of(name),
    }
}

/// Appends the line of the row.
pub fn push_row(out: &mut String, row: &StartRow) -> Result<(), AllocError>
    ensures { OnOk result (string_bytes out.new ≡ string_bytes out.old ++ row_line row.now) }
{
    write!(out, "{} ", row.number)?;
    push_ending(out, &row.ending)?;
    out.push_str(" ")?;
    push_slots(out, row.slots)?;
    out.push_str("\n")
}

fn push_ending(out: &mut String, ending: &Ending) -> Result<(), AllocError>
    ensures { OnOk result (string_bytes out.new
        ≡ string_bytes out.old ++ ending_word ending.now) }
{
    match ending {
        Ending::Named { name } => out.push_str(name.as_str()),
        Ending::Stopped => out.push_str("Stopped"),
    }
}

fn push_slots(out: &mut String, slots: Slots) -> Result<(), AllocError>
    ensures { OnOk result (string_bytes out.new ≡ string_bytes out.old ++ slots_words slots) }
{
    push_slot(out, slots.pending)?;
    out.push_str(" ")?;
    push_slot(out, slots.current)?;
    out.push_str(" ")?;
    push_slot(out, slots.previous)
}

fn push_slot(out: &mut String, parts: Option<usize>) -> Result<(), AllocError>
    ensures { OnOk result (string_bytes out.new ≡ string_bytes out.old ++ slot_word parts) }
{
    match parts {
        Some(count) => write!(out, "{count}"),
        None => out.push_str("-"),
    }
}
