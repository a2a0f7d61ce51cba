//! The gauges of stores.
use crate::moments::{moment_before, seconds_of_hours};
use crate::reading::open_image;
use crate::refused;
use dsc_outside::{Failed, write_all};
use mof_values::{Memory, Text};
use pull_store::PullError;
use real_outside::OutSink;
use store_lines::{
    FleetOptions, FleetStatus, StoreStandings, gauges_text, has_alarm, standings_of,
};

/// Prints the gauges of all stores, once each was read. What is read of one is let go before the next is opened.
pub fn print_gauges(rt: &HostRuntime, options: &FleetOptions) -> FleetStatus {
    let Ok(since) = moment_before(rt, seconds_of_hours(options.older)) else {
        return FleetStatus::Fault;
    };
    let mut stores = Vec::new(rt.alloc());
    let mut worst = FleetStatus::Healthy;
    for path in options.stores.as_slice() {
        match add_store(rt, &mut stores, since, path) {
            Ok(status) => worst = worst.or(status),
            Err(Memory) => return FleetStatus::Memory,
        }
    }
    let classes = options.classes.as_slice();
    match gauges_text(rt.alloc(), classes, options.older.is_some(), &stores) {
        Ok(text) => match write_all(&mut OutSink::new(rt), text.as_slice()) {
            Ok(()) => worst,
            Err(Failed) => worst.or(FleetStatus::Fault),
        },
        Err(Memory) => FleetStatus::Memory,
    }
}

fn add_store(
    rt: &HostRuntime,
    stores: &mut Vec<StoreStandings>,
    since: Option<u64>,
    path: &Text,
) -> Result<FleetStatus, Memory> {
    let (standings, status) = match open_image(rt, path) {
        Ok(store) => {
            let standings = standings_of(rt.alloc(), since, store.rows())?;
            let status = match has_alarm(standings.as_slice()) {
                true => FleetStatus::Alarm,
                false => FleetStatus::Healthy,
            };
            (Some(standings), status)
        }
        Err(PullError::Memory) => return Err(Memory),
        Err(error) => (None, refused(rt, path, error)),
    };
    stores.push(StoreStandings {
        path: path.copy()?,
        standings,
    })?;
    Ok(status)
}
