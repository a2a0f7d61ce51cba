//! What is printed of a store.
ghost use Rattle.std.specs.Prelude.{◌≡◌, ◌++◌, IfOk, OnOk, length};
ghost use Rattle.std.specs.List.{list_any};
ghost use Rattle.std.specs.Fmt.{decimal};
ghost use Rattle.store_lines.specs.Told.{class_word, is_alarm, is_shown, last_line, same_class, seen_line, store_text};

use crate::seen::{Seen, is_alarm, seen_of};
use agent_class::Class;
use agent_line::{push_line, push_text};
use itoa::Buffer;
use mof_values::{Memory, Text};
use pull_store::{MAX_ROWS, Row};
use std::alloc::{AllocError, Global};

/// What is printed of a store, and whether some machine of it failed, is silent or is stale.
#[derive(Drop)]
pub struct Told {
    pub text: Vec<u8>,
    pub alarm: bool,
}

/// The text of a store's rows: a line for each agent of one of these classes, where some are given, and one of the store.
///
/// An agent is stale where a moment is given, in seconds since 1970 by UTC, and its last report does not say that it ended then or
/// later. Whether there is an alarm is said of all rows.
#[tactic(auto, using(std::proofs::lemmas::List::Folds::list_any_more, std::proofs::lemmas::List::flat_map_more))]
pub fn store_text(
    alloc: Global,
    classes: &[Class],
    since: Option<u64>,
    store: &Text,
    rows: &[Row],
) -> Result<Told, Memory>
    ensures text { IfOk result (λ told. told.text.items
        ≡ store_text classes.now since store.now rows.now) }
    ensures alarm { IfOk result (λ told. told.alarm ≡ list_any (is_alarm since) rows.now) }
{
    let mut text = Vec::new(alloc);
    let mut alarm = false;
    for row in rows {
        let seen = seen_of(alloc, since, row)?;
        push_seen(&mut text, alloc, classes, store, row, &seen)?;
        alarm = alarm || is_alarm(&seen);
    }
    push_last(&mut text, alloc, store, rows.len())?;
    Ok(Told { text, alarm })
}

#[tactic(auto, unfolding(crate::specs::Told::seen_line))]
fn push_seen(
    text: &mut Vec<u8>,
    alloc: Global,
    classes: &[Class],
    store: &Text,
    row: &Row,
    seen: &Seen,
) -> Result<(), AllocError>
    ensures { OnOk result (text.new.items
        ≡ text.old.items ++ seen_line classes.now store.now row.now seen.now) }
{
    if !is_shown(classes, seen.class) {
        return Ok(());
    }
    let class = class_word(seen.class);
    push_line(
        text,
        alloc,
        store,
        row,
        class,
        seen.stale,
        seen.message.as_ref(),
    )
}

/// Whether the class is one of these, or none is given.
pub(crate) fn is_shown(classes: &[Class], class: Class) -> bool
    ensures { result ≡ is_shown classes.now class }
{
    match classes {
        [] => true,
        [_, ..] => has_class(classes, class),
    }
}

#[tactic(auto, using(std::proofs::lemmas::List::Folds::list_any_more, std::proofs::lemmas::List::Folds::list_any_at))]
fn has_class(classes: &[Class], class: Class) -> bool
    ensures { result ≡ list_any (same_class class) classes.now }
{
    for shown in classes {
        if same_class(class, *shown) {
            return true;
        }
    }
    false
}

/// Whether both are one class.
pub(crate) fn same_class(one: Class, other: Class) -> bool
    ensures { result ≡ same_class one other }
{
    match one {
        Class::Compliant => matches!(other, Class::Compliant),
        Class::Failed => matches!(other, Class::Failed),
        Class::Silent => matches!(other, Class::Silent),
        Class::Other => matches!(other, Class::Other),
    }
}

/// The name of a class.
pub(crate) fn class_word(class: Class) -> &'static str
    ensures { result.now ≡ class_word class }
{
    match class {
        Class::Compliant => "Compliant",
        Class::Failed => "Failed",
        Class::Silent => "Silent",
        Class::Other => "Other",
    }
}

/// Adds the line of a store that has so many agents.
#[tactic(auto, unfolding(crate::specs::Told::last_line))]
pub(crate) fn push_last(
    text: &mut Vec<u8>,
    alloc: Global,
    store: &Text,
    agents: usize,
) -> Result<(), AllocError>
    ensures { OnOk result (text.new.items ≡ text.old.items ++ last_line store.now agents) }
{
    let mut digits = Buffer::new();
    text.extend_from_slice(b"{\"store\":")?;
    push_text(text, alloc, store)?;
    text.extend_from_slice(b",\"agents\":")?;
    text.extend_from_slice(digits.format(agents as u64).as_bytes())?;
    text.extend_from_slice(b",\"places\":")?;
    text.extend_from_slice(digits.format(MAX_ROWS as u64).as_bytes())?;
    text.extend_from_slice(b"}\n")
}
