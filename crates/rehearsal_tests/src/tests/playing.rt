//! Which lines a script plays to, with a program that looks at its disk and its machine and changes nothing.
ghost use Rattle.std.specs.Prelude.{⊤};
ghost use Rattle.dsc_outside.specs.Disk.{Within};

use dsc_outside::{Disk, Failed};
use memory_outside::{
    FixedClock, ReliableDisk, ReliableHost, ReliableSource, StoppedDisk, StoppedHost,
};
use mof_values::Memory;
use pull_outside::ReliableShelf;
use pull_serving::ServerLink;
use rehearsal::{MAX_SCRIPT, ScriptError, Starter, play, read_script};
use resource_kinds::{Kinds, Machine};
use std::alloc::Global;
use std::rt::HostRuntime;

// A program that asks its disk for the length, and then its machine for a package.
struct Looking;

impl Starter for Looking {
    ghost does = { λ words before after name. ⊤ };

    ghost does_to_stop = { λ words before after name. ⊤ };

    fn start(
        alloc: Global,
        words: &[String],
        input: &mut ReliableSource,
        disk: &mut ReliableDisk,
        kinds: &mut Kinds<ReliableHost>,
        link: &mut ServerLink<ReliableDisk, ReliableShelf>,
        clock: &mut FixedClock,
    ) -> &'static str {
        look(disk, kinds)
    }

    fn start_to_stop(
        alloc: Global,
        words: &[String],
        input: &mut ReliableSource,
        disk: &mut StoppedDisk,
        kinds: &mut Kinds<StoppedHost>,
        link: &mut ServerLink<ReliableDisk, ReliableShelf>,
        clock: &mut FixedClock,
    ) -> &'static str {
        look(disk, kinds)
    }
}

fn look<D: Disk, M: Machine>(disk: &mut D, machine: &mut M) -> &'static str
    ensures { Within (D.images disk.old) (D.images disk.new) }
{
    if let Err(Failed) = disk.length() {
        return "Failed";
    }
    match machine.package_has("m", "1") {
        Ok(_) => "Done",
        Err(_) => "Failed",
    }
}

// Scripts, and the lines that they play to.
const SCRIPTS: &[(&str, &str)] = &[
    ("", ""),
    ("key k\nwants [File]A\ndoc d\n.\nshelf W d\n", ""),
    ("start a\nkey k\nstart b\n", "1 Done - - -\n2 Done - - -\n"),
    (
        "start a\nstart a stop 1 2\nstart b stop 2 0\nstart a b stop 3 1\n",
        "1 Done - - -\n2 Stopped - - -\n3 Stopped - - -\n4 Done - - -\n",
    ),
];

fn lines_of(alloc: Global, script: &[u8]) -> Result<String, ScriptError> {
    let most = script.len().min(MAX_SCRIPT);
    let steps = read_script(alloc, &script[..most])?;
    match play::<Looking>(alloc, &steps) {
        Ok(lines) => Ok(lines),
        Err(Memory) => Err(ScriptError::Memory),
    }
}

#[test]
fn scripts_play_to_these_lines(rt: HostRuntime) {
    for (script, lines) in SCRIPTS {
        match lines_of(rt.alloc(), script.as_bytes()) {
            Ok(played) => assert_eq!(rt; played.as_str(), *lines, "{script}"),
            Err(error) => panic!(rt; "{script}: {error}"),
        }
    }
}
