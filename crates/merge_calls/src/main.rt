//! Merges parts from files: a tool for `bench/merge` and `checks/merge`.
//!
//! The arguments are FILE.., 1 to 8. Each file is read whole and is a part, with the name `part0`, `part1` and so on.
//! It prints the ids of the merged document in the order of dependencies, a line each, as the command `order` of the
//! node program does. It ends with 0; with 2 where the arguments are others; with 3 where the parts are refused, for
//! which it prints the reason; and with 4 where a file could not be read, nothing could be printed, or memory ran out.
#![tactic(auto)]

ghost use Rattle.std.specs.Prelude.{◌<◌, ◌≤◌, IfSome, length, vec_len};

mod ids;
mod parts;

use ids::id_lines;
use partial_merge::{MergeError, merge_ordered};
use parts::read_parts;
use std::mem::forget;
use std::process::ExitCode;
use std::{env, io};

// The most files.
const MAX_FILES: usize = 8;

fn main(rt: HostRuntime) -> ExitCode {
    let Some(files) = read_arguments(&rt) else {
        return ExitCode::from(2);
    };
    match print_merged(&rt, &files) {
        Ok(status) => ExitCode::from(status),
        Err(_) => ExitCode::from(4),
    }
}

// The files, where there are neither none nor too many.
fn read_arguments(rt: &HostRuntime) -> Option<Vec<String>>
    ensures some { IfSome result (λ files. 0 < vec_len files) }
    ensures few { IfSome result (λ files. vec_len files ≤ MAX_FILES) }
{
    let mut arguments = env::args(rt).ok()?;
    let _program = arguments.next();
    let files: Vec<String> = arguments.collect(rt.alloc()).ok()?;
    if files.is_empty() || files.len() > MAX_FILES {
        return None;
    }
    Some(files)
}

// Prints the ids, or why there are none, and gives the exit status.
#[tactic(auto, using(depend_order::proofs::DocumentOrders::order_below))]
fn print_merged(rt: &HostRuntime, files: &[String]) -> io::Result<u8>
    requires some { 0 < length files.now }
    requires few { length files.now ≤ MAX_FILES }
{
    let parts = read_parts(rt, files)?;
    match merge_ordered(rt.alloc(), &parts) {
        Ok(merged) => {
            print!(rt; "{}", id_lines(rt.alloc(), &merged)?)?;
            forget(merged); // the process ends, and the system takes its memory back
            Ok(0)
        }
        Err(MergeError::Memory) => Ok(4),
        Err(refusal) => {
            println!(rt; "{refusal}")?;
            Ok(3)
        }
    }
}
