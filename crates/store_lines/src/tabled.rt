//! What is printed of a store as a table.
ghost use Rattle.std.specs.Prelude.{◌≡◌, ◌++◌, IfOk, OnOk};
ghost use Rattle.std.specs.List.{list_any};
ghost use Rattle.store_lines.specs.Tabled.{cells_of, places_line, seen_cells, store_table};
ghost use Rattle.store_lines.specs.Told.{is_alarm};

use crate::seen::{Seen, is_alarm, seen_of};
use crate::told::{Told, class_word, is_shown};
use agent_class::Class;
use agent_line::{Cells, cells_of, head_cells, push_harmless, push_table};
use itoa::Buffer;
use mof_values::{Memory, Text};
use pull_store::{MAX_ROWS, Row};
use std::alloc::{AllocError, Global};

/// The table of a store's rows: a row for each agent of one of these classes, where some are given, and a line of the store. What is
/// stale and what an alarm is as of `store_text`.
pub fn store_table(
    alloc: Global,
    classes: &[Class],
    since: Option<u64>,
    store: &Text,
    rows: &[Row],
) -> Result<Told, Memory>
    ensures text { IfOk result (λ told. told.text.items
        ≡ store_table classes.now since store.now rows.now) }
    ensures alarm { IfOk result (λ told. told.alarm ≡ list_any (is_alarm since) rows.now) }
{
    let mut cells = Vec::new(alloc);
    cells.push(head_cells(alloc)?)?;
    let alarm = push_all(&mut cells, alloc, classes, since, rows)?;
    let mut text = Vec::new(alloc);
    push_table(&mut text, &cells)?;
    push_places(&mut text, alloc, store, rows.len())?;
    Ok(Told { text, alarm })
}

// The cells of the agents that are shown; answers whether there is an alarm.
#[tactic(auto, using(std::proofs::lemmas::List::Folds::list_any_more, std::proofs::lemmas::List::flat_map_more))]
fn push_all(
    cells: &mut Vec<Cells>,
    alloc: Global,
    classes: &[Class],
    since: Option<u64>,
    rows: &[Row],
) -> Result<bool, Memory>
    ensures cells { OnOk result (cells.new.items ≡ cells.old.items ++ cells_of classes.now since rows.now) }
    ensures alarm { IfOk result (λ alarm. alarm ≡ list_any (is_alarm since) rows.now) }
{
    let mut alarm = false;
    for row in rows {
        let seen = seen_of(alloc, since, row)?;
        push_seen(cells, alloc, classes, row, &seen)?;
        alarm = alarm || is_alarm(&seen);
    }
    Ok(alarm)
}

#[tactic(auto, unfolding(crate::specs::Tabled::seen_cells))]
fn push_seen(
    cells: &mut Vec<Cells>,
    alloc: Global,
    classes: &[Class],
    row: &Row,
    seen: &Seen,
) -> Result<(), AllocError>
    ensures { OnOk result (cells.new.items ≡ cells.old.items ++ seen_cells classes.now row.now seen.now) }
{
    if !is_shown(classes, seen.class) {
        return Ok(());
    }
    let class = class_word(seen.class);
    let shown = cells_of(alloc, row, class, seen.stale, seen.message.as_ref())?;
    cells.push(shown)?;
    Ok(())
}

#[tactic(auto, unfolding(crate::specs::Tabled::places_line))]
fn push_places(
    text: &mut Vec<u8>,
    alloc: Global,
    store: &Text,
    agents: usize,
) -> Result<(), AllocError>
    ensures { OnOk result (text.new.items ≡ text.old.items ++ places_line store.now agents) }
{
    let mut digits = Buffer::new();
    push_harmless(text, alloc, store)?;
    text.extend_from_slice(b": ")?;
    text.extend_from_slice(digits.format(agents as u64).as_bytes())?;
    text.extend_from_slice(b" of ")?;
    text.extend_from_slice(digits.format(MAX_ROWS as u64).as_bytes())?;
    text.extend_from_slice(b" places are taken\n")
}
