//! Calls of a host, and what they are to answer, as rows of tables.
use dsc_outside::{Host, HostError, PathState};
use std::alloc::{AllocError, Global};
use std::test::Fail;

/// A call of a host.
#[derive(Clone, Copy)]
pub enum Call<'a> {
    /// Looks at a path.
    State(&'a str),

    /// Asks for a file with these bytes.
    Same(&'a str, &'a [u8]),
    Put(&'a str, &'a [u8]),
    Make(&'a str),
    Remove(&'a str),

    /// Looks up a variable, and is to append these bytes.
    Value(&'a str, &'a [u8]),
    Set(&'a str, &'a [u8]),
    Unset(&'a str),
    HasEntry(&'a str, &'a str),
    AddEntry(&'a str, &'a str),
    HasPackage(&'a str, &'a str),
    AddPackage(&'a str, &'a str, &'a [u8]),

    /// Asks whether the resource of that id wants a reboot.
    Wanting(&'a str),
}

/// What a call answers.
#[derive(Clone, Copy, PartialEq, Eq)]
pub enum Answer {
    Done,
    Yes,
    No,
    Nothing,
    File,
    Empty,
    Folder,
    Other,
    Failed,
    Memory,
}

/// A call, and what it is to answer.
pub type Row<'a> = (Call<'a>, Answer);

fn lost(error: HostError) -> Answer {
    match error {
        HostError::Failed => Answer::Failed,
        HostError::Memory => Answer::Memory,
    }
}

fn done(outcome: Result<(), HostError>) -> Answer {
    match outcome {
        Ok(()) => Answer::Done,
        Err(error) => lost(error),
    }
}

fn yes_or_no(outcome: Result<bool, HostError>) -> Answer {
    match outcome {
        Ok(true) => Answer::Yes,
        Ok(false) => Answer::No,
        Err(error) => lost(error),
    }
}

fn state_of(outcome: Result<PathState, HostError>) -> Answer {
    match outcome {
        Ok(PathState::Nothing) => Answer::Nothing,
        Ok(PathState::File) => Answer::File,
        Ok(PathState::EmptyFolder) => Answer::Empty,
        Ok(PathState::Folder) => Answer::Folder,
        Ok(PathState::Other) => Answer::Other,
        Err(error) => lost(error),
    }
}

// Makes the call; a value goes after what the buffer has.
fn make_call<H: Host>(host: &mut H, call: &Call<'_>, into: &mut Vec<u8>) -> Answer {
    match call {
        Call::State(path) => state_of(host.path_state(path)),
        Call::Same(path, bytes) => yes_or_no(host.file_equals(path, bytes)),
        Call::Put(path, bytes) => done(host.put_file(path, bytes)),
        Call::Make(path) => done(host.make_dir(path)),
        Call::Remove(path) => done(host.remove(path)),
        Call::Value(name, _) => yes_or_no(host.env_state(name, into)),
        Call::Set(name, value) => done(host.env_put(name, value)),
        Call::Unset(name) => done(host.env_remove(name)),
        Call::HasEntry(id, message) => yes_or_no(host.log_has(id, message)),
        Call::AddEntry(id, message) => done(host.log_add(id, message)),
        Call::HasPackage(name, version) => yes_or_no(host.package_has(name, version)),
        Call::AddPackage(name, version, bytes) => done(host.package_put(name, version, bytes)),
        Call::Wanting(id) => yes_or_no(host.reboot_wanted(id)),
    }
}

// What the call is to append to a buffer, where that is its answer.
fn appended<'a>(call: &Call<'a>, answer: Answer) -> &'a [u8] {
    match call {
        Call::Value(_, value) if answer == Answer::Yes => value,
        _ => b"",
    }
}

fn is_answered<H: Host>(
    alloc: Global,
    host: &mut H,
    call: &Call<'_>,
    wanted: Answer,
) -> Result<bool, AllocError> {
    let mut buffer = b">".to_vec(alloc)?;
    let answer = make_call(host, call, &mut buffer);
    Ok(answer == wanted && buffer.strip_prefix(b">") == Some(appended(call, wanted)))
}

// The number of the first call that has not its answer, after which none is made.
fn first_wrong<H: Host>(
    alloc: Global,
    host: &mut H,
    rows: &[Row<'_>],
) -> Result<Option<usize>, AllocError> {
    for (number, (call, wanted)) in rows.iter().enumerate() {
        if !is_answered(alloc, host, call, *wanted)? {
            return Ok(Some(number));
        }
    }
    Ok(None)
}

/// Makes the calls, and expects of each its answer.
pub fn expect<H: Host>(alloc: Global, host: &mut H, rows: &[Row<'_>]) -> Result<(), Fail> {
    match first_wrong(alloc, host, rows)? {
        Some(number) => Err(Fail::new(format_args!("call {number} is answered otherwise"))),
        None => Ok(()),
    }
}

/// Makes the calls of a host that goes then, and expects of each its answer.
pub fn expect_of<H: Host + Drop>(alloc: Global, mut host: H, rows: &[Row<'_>]) -> Result<(), Fail> {
    expect(alloc, &mut host, rows)
}

/// Expects of all calls of the first rows, or of all of the second, their answers.
pub fn expect_one_of<H: Host + Drop>(
    alloc: Global,
    mut host: H,
    first: &[Row<'_>],
    second: &[Row<'_>],
) -> Result<(), Fail> {
    match first_wrong(alloc, &mut host, first)? {
        Some(_) => expect(alloc, &mut host, second),
        None => Ok(()),
    }
}
