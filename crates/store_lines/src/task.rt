//! What the program is asked to do.
ghost use Rattle.std.specs.Prelude.{◌≡◌, bytes_eq};
ghost use Rattle.std.specs.List.{list_any};
ghost use Rattle.store_lines.specs.Words.{chooses, form_of, is_empty, is_one, is_repeated, printed_form, prints_nothing, task_of};

use crate::choice::Choice;
use agent_class::Class;
use mof_values::{Items, Text};

/// What the program does with stores.
#[derive(Clone, Copy, Debug, PartialEq, Eq)]
pub enum Task {
    /// It prints a line for each agent.
    Lines,

    /// It prints a line for each report that is kept.
    Reports,

    /// It prints a table of the agents.
    Table,

    /// It prints gauges for Prometheus.
    Gauges,

    /// It has a store forget agents.
    Forget,
}

/// The values of the program's options.
#[derive(Drop)]
pub struct FleetOptions {
    /// The files of stores, in order.
    pub stores: Items<Text>,

    /// The classes of which agents are printed; all where none is given.
    pub classes: Items<Class>,

    /// A machine is stale where its last report did not end within so many hours.
    pub older: Option<u32>,

    /// The reports that are kept are to be printed.
    pub reports: bool,

    /// A table is to be printed.
    pub table: bool,

    /// Gauges are to be printed.
    pub prometheus: bool,

    /// Which agents are to be forgotten.
    pub choice: Choice,
}

/// What is asked for by options; none where they do not go together.
pub(crate) fn task_of(options: &FleetOptions) -> Option<Task>
    ensures { result ≡ task_of options.now }
{
    if !chooses(&options.choice) {
        return printed_form(options);
    }
    if prints_nothing(options) && is_one(options.stores.as_slice()) {
        Some(Task::Forget)
    } else {
        None
    }
}

fn chooses(choice: &Choice) -> bool
    ensures { result ≡ chooses choice.now }
{
    !is_empty(choice.agents.as_slice()) || choice.silent_days.is_some() || choice.never_reported
}

fn prints_nothing(options: &FleetOptions) -> bool
    ensures { result ≡ prints_nothing options.now }
{
    !options.reports
        && !options.table
        && !options.prometheus
        && is_empty(options.classes.as_slice())
        && options.older.is_none()
}

fn printed_form(options: &FleetOptions) -> Option<Task>
    ensures { result ≡ printed_form options.now }
{
    if options.prometheus && is_repeated(options.stores.as_slice()) {
        return None;
    }
    form_of(options.reports, options.table, options.prometheus)
}

// Whether one of the texts stands twice.
fn is_repeated(texts: &[Text]) -> bool
    ensures { result ≡ is_repeated texts.now }
{
    let mut left = texts;
    while let [text, rest @ ..] = left {
        if is_among(rest, text) {
            return true;
        }
        left = rest;
    }
    false
}

fn is_among(texts: &[Text], text: &Text) -> bool
    ensures { result ≡ list_any (bytes_eq text.now) texts.now }
{
    texts.iter().any(|other| *text == *other)
}

fn form_of(reports: bool, table: bool, prometheus: bool) -> Option<Task>
    ensures { result ≡ form_of reports table prometheus }
{
    match (reports, table, prometheus) {
        (false, false, false) => Some(Task::Lines),
        (true, false, false) => Some(Task::Reports),
        (false, true, false) => Some(Task::Table),
        (false, false, true) => Some(Task::Gauges),
        (true, true, _) => None,
        (true, false, true) => None,
        (false, true, true) => None,
    }
}

fn is_empty<T>(items: &[T]) -> bool
    ensures { result ≡ is_empty items.now }
{
    match items {
        [] => true,
        [_, ..] => false,
    }
}

fn is_one<T>(items: &[T]) -> bool
    ensures { result ≡ is_one items.now }
{
    match items {
        [_, rest @ ..] => is_empty(rest),
        [] => false,
    }
}
