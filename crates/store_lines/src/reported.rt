//! What is printed of the reports that a store keeps.
ghost use Rattle.std.specs.Prelude.{◌≡◌, ◌++◌, IfOk, OnOk};
ghost use Rattle.std.specs.List.{flat_map, list_any};
ghost use Rattle.store_lines.specs.Reported.{report_lines, report_text, shown_reports, store_reports};
ghost use Rattle.store_lines.specs.Told.{is_alarm};

use crate::seen::{is_alarm, seen_of};
use crate::told::{Told, class_word, is_shown, push_last};
use agent_class::{Class, class_and_message_in};
use agent_line::push_report;
use mof_values::{Memory, Text};
use pull_store::{Row, StoredReport};
use std::alloc::Global;

/// The text of the reports of a store's rows: a line for each report of each agent of one of these classes, where some are given, the
/// oldest first, and one of the store. The class of an agent is that of its last report; what is stale and what an alarm is as of
/// `store_text`.
#[tactic(auto, unfolding(crate::specs::Told::seen_of), using(std::proofs::lemmas::List::Folds::list_any_more, std::proofs::lemmas::List::flat_map_more))]
pub fn store_reports(
    alloc: Global,
    classes: &[Class],
    since: Option<u64>,
    store: &Text,
    rows: &[Row],
) -> Result<Told, Memory>
    ensures text { IfOk result (λ told. told.text.items
        ≡ store_reports classes.now store.now rows.now) }
    ensures alarm { IfOk result (λ told. told.alarm ≡ list_any (is_alarm since) rows.now) }
{
    let mut text = Vec::new(alloc);
    let mut alarm = false;
    for row in rows {
        let seen = seen_of(alloc, since, row)?;
        push_shown(&mut text, alloc, classes, seen.class, store, row)?;
        alarm = alarm || is_alarm(&seen);
    }
    push_last(&mut text, alloc, store, rows.len())?;
    Ok(Told { text, alarm })
}

// The lines of an agent's reports, where its class is shown.
#[tactic(auto, unfolding(crate::specs::Reported::shown_reports))]
fn push_shown(
    text: &mut Vec<u8>,
    alloc: Global,
    classes: &[Class],
    class: Class,
    store: &Text,
    row: &Row,
) -> Result<(), Memory>
    ensures { OnOk result (text.new.items
        ≡ text.old.items ++ shown_reports classes.now class store.now row.now) }
{
    if is_shown(classes, class) {
        push_reports(text, alloc, store, row)
    } else {
        Ok(())
    }
}

#[tactic(auto, using(std::proofs::lemmas::List::flat_map_more))]
fn push_reports(text: &mut Vec<u8>, alloc: Global, store: &Text, row: &Row) -> Result<(), Memory>
    ensures { OnOk result (text.new.items ≡ text.old.items ++ report_lines store.now row.now) }
{
    for report in row.reports.as_slice() {
        push_report_of(text, alloc, store, row, report)?;
    }
    Ok(())
}

#[tactic(auto, unfolding(crate::specs::Reported::report_text))]
fn push_report_of(
    text: &mut Vec<u8>,
    alloc: Global,
    store: &Text,
    row: &Row,
    report: &StoredReport,
) -> Result<(), Memory>
    ensures { OnOk result (text.new.items ≡ text.old.items ++ report_text store.now row.now report.now) }
{
    let (class, message) = class_and_message_in(alloc, report.body.as_slice())?;
    let class = class_word(class);
    push_report(text, alloc, store, row, report.job, class, message.as_ref())?;
    Ok(())
}
