//! Makes calls of a log in a file: a tool for `checks/log` and `bench/commit`.
//!
//! The arguments are FILE `append` COUNT SIZE, FILE `rewrite` COUNT SIZE, FILE `open` or FILE `keep`. An append adds so
//! many bodies of that size one by one, a rewrite puts them in place of all that was there, an open does no more than
//! that, and `keep` keeps the bodies that were there. It ends with 0; with 2 where the arguments are others, and with 4
//! where the log could not do it.
#![tactic(auto)]

ghost use Rattle.std.specs.Prelude.{◌≡◌};
ghost use Rattle.node_store.specs.Stands.{node_shape};

mod changes;
mod passing;

use changes::{append_all, rewrite_all};
use gate_log::{Bodies, LogError, Shape, replay_log};
use node_store::{BANK, MAX_BODY};
use passing::Passing;
use real_outside::{FileDisk, hold_standard_descriptors};
use std::cmp::min;
use std::env;
use std::process::ExitCode;

/// What is asked for.
#[derive(Clone, Copy)]
enum Ask {
    Open,
    Keep,
    Append { count: u32, size: u32 },
    Rewrite { count: u32, size: u32 },
}

fn main(rt: HostRuntime) -> ExitCode {
    let Ok(_held) = hold_standard_descriptors(&rt) else {
        return ExitCode::from(4);
    };
    let Some((file, ask)) = read_arguments(&rt) else {
        return ExitCode::from(2);
    };
    match run(&rt, file, &ask) {
        Ok(()) => ExitCode::from(0),
        Err(_) => ExitCode::from(4),
    }
}

fn read_arguments(rt: &HostRuntime) -> Option<(String, Ask)> {
    let mut arguments = env::args(rt).ok()?;
    let _program = arguments.next();
    let file = arguments.next()?;
    let what = arguments.next()?;
    match what.as_str() {
        "open" => return Some((file, Ask::Open)),
        "keep" => return Some((file, Ask::Keep)),
        _ => {}
    }
    let count = arguments.next()?.as_str().parse::<u32>().ok()?;
    let size = arguments.next()?.as_str().parse::<u32>().ok()?;
    match what.as_str() {
        "append" => Some((file, Ask::Append { count, size })),
        "rewrite" => Some((file, Ask::Rewrite { count, size })),
        _ => None,
    }
}

// The size of a node's store.
fn shape() -> Shape
    ensures { result ≡ node_shape }
{
    Shape {
        bank: BANK,
        largest: MAX_BODY as u32,
    }
}

fn run(rt: &HostRuntime, file: String, ask: &Ask) -> Result<(), LogError> {
    let mut disk = FileDisk::new(rt, file);
    if let Ask::Keep = ask {
        replay_log(rt.alloc(), &mut disk, shape(), &mut Bodies::new(rt.alloc()))?;
        return Ok(());
    }
    let mut log = replay_log(rt.alloc(), &mut disk, shape(), &mut Passing)?;
    match ask {
        Ask::Open | Ask::Keep => {}
        Ask::Append { count, size } => {
            let body = vec![in rt.alloc(); 7u8; min(*size as usize, MAX_BODY)]?;
            append_all(&mut log, &mut disk, *count, &body)?;
        }
        Ask::Rewrite { count, size } => {
            let body = vec![in rt.alloc(); 7u8; min(*size as usize, MAX_BODY)]?;
            rewrite_all(&mut log, &mut disk, *count, &body)?;
        }
    }
    Ok(())
}
