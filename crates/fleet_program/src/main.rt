//! The program that reads the stores of pull servers while these run, and has a store forget agents.
//!
//! It prints a line of JSON for each agent of each store, or for each of its reports, and one for the store; or a
//! table; or gauges for Prometheus; and ends with a number that says whether some machine failed, is silent or is
//! stale. A store's rows are those that `open_pull` reads of one image of its file, which is opened to be read alone
//! and not locked. What is printed of them has a definition in `store_lines`. Agents are forgotten by
//! `PullStore::forget`, of a store that is opened and locked as its server does, while that does not run; which ones
//! is a definition of `store_lines` too. `main` makes the real objects.
//!
//! Where a thing is:
//! - lines, reports and tables: `src/looking.rt`; gauges: `src/gauging.rt`; agents that are forgotten:
//!   `src/forgetting.rt`
//! - one image of a file that a server writes: `src/reading.rt`, over `image_file`
#![tactic(auto)]

mod forgetting;
mod gauging;
mod looking;
mod moments;
mod reading;

use forgetting::forget_agents;
use gauging::print_gauges;
use looking::{Form, print_stores};
use mof_values::Text;
use pull_store::PullError;
use real_outside::{arguments, hold_standard_descriptors};
use std::alloc::AllocError;
use std::io::Print;
use std::process::ExitCode;
use store_lines::{FleetStatus, Task, WordsError, fleet_words, status_of};

fn main(rt: HostRuntime) -> ExitCode {
    let Ok(_held) = hold_standard_descriptors(&rt) else {
        return ExitCode::from(FleetStatus::Fault.number());
    };
    let status = match arguments(&rt) {
        Ok(arguments) => match arguments.as_slice() {
            [_program, words @ ..] => run(&rt, words),
            [] => wrong_words(&rt),
        },
        Err(AllocError) => FleetStatus::Memory,
    };
    ExitCode::from(status.number())
}

fn run(rt: &HostRuntime, arguments: &[String]) -> FleetStatus {
    let words = match fleet_words(rt.alloc(), arguments) {
        Ok(words) => words,
        Err(WordsError::Usage) => return wrong_words(rt),
        Err(WordsError::Memory) => return FleetStatus::Memory,
    };
    match words.task {
        Task::Lines => print_stores(rt, &words.options, Form::Lines),
        Task::Reports => print_stores(rt, &words.options, Form::Reports),
        Task::Table => print_stores(rt, &words.options, Form::Table),
        Task::Gauges => print_gauges(rt, &words.options),
        Task::Forget => forget_agents(rt, &words.options),
    }
}

// Says on standard error that the arguments are none of the program's.
fn wrong_words(rt: &HostRuntime) -> FleetStatus {
    let _written = eprintln!(rt; "nimchout-fleet: refused Usage");
    FleetStatus::Usage
}

// Says on standard error why a store is not read, or does not forget; where that cannot be written the number alone says it.
pub(crate) fn refused(rt: &HostRuntime, store: &Text, error: PullError) -> FleetStatus {
    let _written = eprintln!(rt; "nimchout-fleet: {store}: {error}");
    status_of(error)
}
