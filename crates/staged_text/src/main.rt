//! Prints the text of a stage of a node's store: the document that the node holds as Pending, Current or Previous, in
//! canonical form.
//!
//! The arguments are STORE and `pending`, `current` or `previous`. `show_stage` does it over any disk and any output;
//! its contract says that the disk is left as it was, and that what is printed are the canonical texts of the parts at
//! the stage of the node that the disk reads as, an empty line between two; or why nothing is. `main` makes the real
//! objects, and ends with the number of the ending. Where no file is at STORE, it is read as a store of no bytes.
//!
//! Where a thing is:
//! - the text of a stage: `specs/Texts.antt`, `src/parts.rt` over the parts, `src/image.rt` over the bytes of a store
//! - how the program ends, and what it prints then: `specs/Endings.antt`, `src/ending.rt`, `src/showing.rt`
#![tactic(auto)]

mod ending;
mod image;
mod parts;
mod showing;

use dsc_outside::Disk;
use ending::{Ending, Unshown};
use memory_outside::ReliableDisk;
use mof_values::Memory;
use node_state::Stage;
use real_outside::{FileDisk, OutSink, arguments, hold_standard_descriptors};
use showing::{print_usage, show_stage, stage_named};
use std::alloc::AllocError;
use std::fs;
use std::process::ExitCode;

fn main(rt: HostRuntime) -> ExitCode {
    let Ok(_held) = hold_standard_descriptors(&rt) else {
        return ExitCode::from(Ending::WriteFault.number());
    };
    let ending = match arguments(&rt) {
        Ok(arguments) => run(&rt, &arguments),
        Err(AllocError) => Ending::Unshown(Unshown::Memory),
    };
    ExitCode::from(ending.number())
}

fn run(rt: &HostRuntime, arguments: &[String]) -> Ending {
    let [_program, store, word] = arguments else {
        return print_usage(&mut OutSink::new(rt));
    };
    let Some(stage) = stage_named(word) else {
        return print_usage(&mut OutSink::new(rt));
    };
    if let Ok(false) = fs::exists(rt, store.as_str()) {
        return match ReliableDisk::new(Vec::new(rt.alloc())) {
            Ok(none) => show(rt, stage, none),
            Err(Memory) => Ending::Unshown(Unshown::Memory),
        };
    }
    match String::from_str(rt.alloc(), store.as_str()) {
        Ok(path) => show(rt, stage, FileDisk::new(rt, path)),
        Err(AllocError) => Ending::Unshown(Unshown::Memory),
    }
}

fn show<D: Disk + Drop>(rt: &HostRuntime, stage: Stage, mut disk: D) -> Ending {
    show_stage(rt.alloc(), stage, &mut disk, &mut OutSink::new(rt))
}
