//! Makes calls of a node's store in a file: a tool for `bench/store`.
//!
//! The arguments are FILE `stage` COUNT SIZE, FILE `time` COUNT SIZE or FILE `open`. Each opens the store. `stage`
//! then commits that many Stages, each of another document of that size; the store of a new node gets an agent first.
//! `time` does the same, and prints the microseconds that the fastest commit took, without those in which its event
//! was made. It ends with 0; with 2 where the arguments are others, and with 4 where the store could not do it.
#![tactic(auto)]

mod staging;

use node_store::{StoreError, open_store};
use real_outside::{FileDisk, hold_standard_descriptors};
use staging::stage_all;
use std::env;
use std::process::ExitCode;

/// What is asked for.
#[derive(Clone, Copy)]
enum Ask {
    Open,
    Stage { count: u32, size: u32 },
    Time { count: u32, size: u32 },
}

fn main(rt: HostRuntime) -> ExitCode {
    let Ok(_held) = hold_standard_descriptors(&rt) else {
        return ExitCode::from(4);
    };
    let Some((file, ask)) = read_arguments(&rt) else {
        return ExitCode::from(2);
    };
    match run(&rt, file, &ask) {
        Ok(()) => ExitCode::from(0),
        Err(_) => ExitCode::from(4),
    }
}

fn read_arguments(rt: &HostRuntime) -> Option<(String, Ask)> {
    let mut arguments = env::args(rt).ok()?;
    let _program = arguments.next();
    let file = arguments.next()?;
    let what = arguments.next()?;
    if what.as_str() == "open" {
        return Some((file, Ask::Open));
    }
    let count = arguments.next()?.as_str().parse::<u32>().ok()?;
    let size = arguments.next()?.as_str().parse::<u32>().ok()?;
    match what.as_str() {
        "stage" => Some((file, Ask::Stage { count, size })),
        "time" => Some((file, Ask::Time { count, size })),
        _ => None,
    }
}

fn run(rt: &HostRuntime, file: String, ask: &Ask) -> Result<(), StoreError> {
    let mut disk = FileDisk::new(rt, file);
    let mut store = open_store(rt.alloc(), &mut disk)?;
    let (count, size, is_timed) = match ask {
        Ask::Open => return Ok(()),
        Ask::Stage { count, size } => (*count, *size, false),
        Ask::Time { count, size } => (*count, *size, true),
    };
    let micros = stage_all(rt, rt.alloc(), &mut store, &mut disk, count, size)?;
    if is_timed && println!(rt; "{micros}").is_err() {
        return Err(StoreError::Disk);
    }
    Ok(())
}
