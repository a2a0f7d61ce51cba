//! The pull server program, over the files and the network of this machine.
//!
//! `serve_fleet` serves connections; its contract says what each was answered and what was printed. `main` makes the
//! real objects that the arguments name, hands them to `serve_fleet` with the same arguments, lets the door finish, and
//! ends with the number of the status.
//!
//! Where a thing is:
//! - the command line, and a run of the server: `serve_words`; `fleet_view`, `pull_serving`
#![tactic(auto)]

use dsc_outside::{Failed, Sink, write_all};
use fleet_view::serve_fleet;
use mof_values::Memory;
use pull_adapters::{FolderShelf, LastItems, PollDoor};
use pull_serving::ServeStatus;
use real_outside::{FileDisk, OutSink, arguments, hold_standard_descriptors};
use serve_words::{ServeWords, WordsError, serve_words};
use std::alloc::{AllocError, Global};
use std::process::ExitCode;

fn main(rt: HostRuntime) -> ExitCode {
    let Ok(_held) = hold_standard_descriptors(&rt) else {
        return ExitCode::from(ServeStatus::WriteFault.number());
    };
    let status = match arguments(&rt) {
        Ok(arguments) => match arguments.as_slice() {
            [_program, words @ ..] => run_server(&rt, words),
            [] => run_server(&rt, &[]),
        },
        Err(AllocError) => ServeStatus::Memory,
    };
    ExitCode::from(status.number())
}

// Makes the real objects, which touch nothing before their first call, and calls `serve_fleet`.
fn run_server(rt: &HostRuntime, arguments: &[String]) -> ServeStatus {
    let places = match places_of(rt.alloc(), arguments) {
        Ok(places) => places,
        Err(Memory) => return ServeStatus::Memory,
    };
    let mut disk = FileDisk::new(rt, places.store);
    let items = LastItems::new();
    let mut shelf = FolderShelf::new(rt, places.shelf, &items);
    let mut door = PollDoor::new(rt, rt.alloc(), places.listen, &items);
    let mut output = OutSink::new(rt);
    let status = serve_fleet(
        rt.alloc(),
        arguments,
        &mut door,
        &mut shelf,
        &mut disk,
        &mut output,
    );
    let let_go = door.finish();
    match status {
        ServeStatus::Done if let_go > 0 => print_let_go(rt.alloc(), &mut output, let_go),
        other => other,
    }
}

// Prints how many connections came and were not served, since the server came to its count.
fn print_let_go<K: Sink>(alloc: Global, output: &mut K, count: usize) -> ServeStatus {
    let line = match format!(in alloc; "let go {count}\n") {
        Ok(line) => line,
        Err(AllocError) => return ServeStatus::Memory,
    };
    match write_all(output, line.as_bytes()) {
        Ok(()) => ServeStatus::Done,
        Err(Failed) => ServeStatus::WriteFault,
    }
}

// What the arguments name.
#[derive(Drop)]
struct Places {
    store: String,
    shelf: String,
    listen: String,
}

// Where the arguments are refused, the places are empty, and `serve_fleet` touches none of them.
fn places_of(alloc: Global, arguments: &[String]) -> Result<Places, Memory> {
    match serve_words(alloc, arguments) {
        Ok(values) => named(&values),
        Err(WordsError::Usage) => Ok(Places {
            store: String::new(alloc),
            shelf: String::new(alloc),
            listen: String::new(alloc),
        }),
        Err(WordsError::Memory) => Err(Memory),
    }
}

fn named(values: &ServeWords) -> Result<Places, Memory> {
    Ok(Places {
        store: values.store.to_utf8()?,
        shelf: values.shelf.to_utf8()?,
        listen: values.listen.to_utf8()?,
    })
}
