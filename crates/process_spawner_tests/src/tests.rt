//! What programs of the system answer.
use command_kind::{SpawnError, Spawner};
use mof_values::Text;
use process_spawner::ProcessSpawner;
use std::test::Fail;

/// A program, its arguments, and its status, where it has one.
type Row = (&'static str, &'static [&'static str], Option<u8>);

const ROWS: &[Row] = &[
    ("sh", &["-c", "exit 3"], Some(3)),
    ("/bin/sh", &["-c", "exit 0"], Some(0)),
    ("sh", &["-c", "exit 194"], Some(194)),
    // it has the root as its folder, and an empty standard input
    ("sh", &["-c", "test \"$(pwd)\" = / || exit 1; cat"], Some(0)),
    // a word stays one word
    ("test", &["a b", "=", "a b"], Some(0)),
    // it has this program's environment
    ("sh", &["-c", "test -n \"$PATH\""], Some(0)),
    ("sh", &["-c", "kill -9 $$"], None),
    ("/no/such/program", &[], None),
    ("/", &[], None),
    ("/etc/hostname", &[], None),
    ("sh", &["-c", "exit 3", "a\0b"], None),
];

fn words(rt: &impl AllocGlobal, words: &[&'static str]) -> Result<Vec<Text>, Fail> {
    let mut made = Vec::new(rt.alloc());
    for word in words {
        made.push(Text::from_utf8(rt.alloc(), word)?)?;
    }
    Ok(made)
}

fn check_row(rt: &HostRuntime, row: &Row) -> Result<(), Fail> {
    let (program, arguments, status) = *row;
    let wanted = status.ok_or(SpawnError::Failed);
    let words = words(rt, arguments)?;
    let mut spawner = ProcessSpawner::new(rt, rt.stderr());
    if spawner.run(program, &words) != wanted {
        return Err(program.into());
    }
    Ok(())
}

#[test]
fn a_program_gives_its_status_or_fails(rt: HostRuntime) -> Result<(), Fail> {
    for row in ROWS {
        check_row(&rt, row)?;
    }
    Ok(())
}
