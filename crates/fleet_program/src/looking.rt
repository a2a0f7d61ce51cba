//! Lines, reports and tables of stores.
use crate::moments::{moment_before, seconds_of_hours};
use crate::reading::open_image;
use crate::refused;
use dsc_outside::{Failed, write_all};
use mof_values::{Memory, Text};
use pull_store::{PullError, PullStore};
use real_outside::OutSink;
use store_lines::{FleetOptions, FleetStatus, Told, store_reports, store_table, store_text};

/// What is printed of a store.
#[derive(Clone, Copy)]
pub enum Form {
    /// A line for each agent.
    Lines,

    /// A line for each report that is kept.
    Reports,

    /// A table of the agents.
    Table,
}

/// Prints the lines of each store, its reports or its table, one store after the other. What is read of one is let go before the next is
/// opened.
pub fn print_stores(rt: &HostRuntime, options: &FleetOptions, form: Form) -> FleetStatus {
    let Ok(since) = moment_before(rt, seconds_of_hours(options.older)) else {
        return FleetStatus::Fault;
    };
    let mut worst = FleetStatus::Healthy;
    for path in options.stores.as_slice() {
        let status = match open_image(rt, path) {
            Ok(store) => print(rt, path, text_of(rt, options, form, since, path, &store)),
            Err(error) => refused(rt, path, error),
        };
        worst = worst.or(status);
    }
    worst
}

fn text_of(
    rt: &HostRuntime,
    options: &FleetOptions,
    form: Form,
    since: Option<u64>,
    path: &Text,
    store: &PullStore,
) -> Result<Told, Memory> {
    let (alloc, classes, rows) = (rt.alloc(), options.classes.as_slice(), store.rows());
    match form {
        Form::Lines => store_text(alloc, classes, since, path, rows),
        Form::Reports => store_reports(alloc, classes, since, path, rows),
        Form::Table => store_table(alloc, classes, since, path, rows),
    }
}

fn print(rt: &HostRuntime, path: &Text, told: Result<Told, Memory>) -> FleetStatus {
    let told = match told {
        Ok(told) => told,
        Err(Memory) => return refused(rt, path, PullError::Memory),
    };
    match write_all(&mut OutSink::new(rt), told.text.as_slice()) {
        Ok(()) if told.alarm => FleetStatus::Alarm,
        Ok(()) => FleetStatus::Healthy,
        Err(Failed) => FleetStatus::Fault,
    }
}
