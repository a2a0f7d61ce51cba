//! A store forgets agents.
use crate::moments::{moment_before, seconds_of_days};
use crate::refused;
use dsc_outside::{Failed, write_all};
use mof_values::{Memory, Text};
use pull_store::{PullError, PullStore, open_pull};
use real_outside::{FileDisk, OutSink};
use std::alloc::AllocError;
use std::io::Print;
use store_lines::{FleetOptions, FleetStatus, choose, first_unknown};
use uuid::Uuid;

/// Has each store forget the agents that are chosen; of options that ask for it there is one store.
pub fn forget_agents(rt: &HostRuntime, options: &FleetOptions) -> FleetStatus {
    let Ok(since) = moment_before(rt, seconds_of_days(options.choice.silent_days)) else {
        return FleetStatus::Fault;
    };
    let mut worst = FleetStatus::Healthy;
    for path in options.stores.as_slice() {
        worst = worst.or(forget_in(rt, options, since, path));
    }
    worst
}

// Opens the store as its server does, with the lock that this takes, but where there is none makes none.
fn forget_in(
    rt: &HostRuntime,
    options: &FleetOptions,
    since: Option<u64>,
    path: &Text,
) -> FleetStatus {
    let name = match path.to_utf8() {
        Ok(name) => name,
        Err(AllocError) => return refused(rt, path, PullError::Memory),
    };
    let mut disk = FileDisk::of_existing(rt, name);
    let mut store = match open_pull(rt.alloc(), &mut disk) {
        Ok(store) => store,
        Err(PullError::Disk) if disk.is_locked_elsewhere() => return its_server_runs(rt, path),
        Err(error) => return refused(rt, path, error),
    };
    if let Some(agent) = first_unknown(store.rows(), options.choice.agents.as_slice()) {
        return unknown(rt, path, agent);
    }
    let forgotten = match choose(rt.alloc(), path, &options.choice, since, store.rows()) {
        Ok(forgotten) => forgotten,
        Err(Memory) => return refused(rt, path, PullError::Memory),
    };
    if let Err(error) = store.forget(&mut disk, forgotten.agents.as_slice()) {
        return refused(rt, path, error);
    }
    match write_all(&mut OutSink::new(rt), forgotten.text.as_slice()) {
        Ok(()) => FleetStatus::Healthy,
        Err(Failed) => FleetStatus::Fault,
    }
}

// Says on standard error that the store is locked.
fn its_server_runs(rt: &HostRuntime, path: &Text) -> FleetStatus {
    let _written = eprintln!(rt; "nimchout-fleet: {path}: its server runs");
    FleetStatus::Running
}

// Says on standard error which agent has no row.
fn unknown(rt: &HostRuntime, path: &Text, agent: u128) -> FleetStatus {
    let agent = Uuid::from_u128(agent);
    let _written = eprintln!(rt; "nimchout-fleet: {path}: no such agent: {agent}");
    FleetStatus::UnknownAgent
}
