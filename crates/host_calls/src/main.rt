//! Makes calls of the host that a folder is, and prints what each of them answers: a tool for `checks/folder`,
//! `checks/host` and `checks/race`.
//!
//! The folder is the program's first argument. A second one is the file of a store, in whose folder nothing is to be
//! changed. Each line of standard input is a call, its subject and its texts, with tabs between: `state PATH`, `same
//! PATH TEXT`, `put PATH TEXT`, `make PATH`, `remove PATH`, `value NAME TEXT`, which asks whether the variable has that
//! value, `set NAME TEXT`, `unset NAME`, `log ID TEXT`, `logged ID TEXT`, `package NAME VERSION TEXT`, `installed NAME
//! VERSION` and `wanting ID`. A subject or a text that begins with `0x` stands for the bytes of its hex digits. It ends
//! with 0, and with 2 where it cannot go on.
#![tactic(auto)]

use dsc_outside::{Host, HostError, PathState};
use real_outside::{FolderHost, hold_standard_descriptors, moment};
use std::alloc::Global;
use std::process::ExitCode;
use std::{env, io};

fn main(rt: HostRuntime) -> ExitCode {
    let Ok(_held) = hold_standard_descriptors(&rt) else {
        return ExitCode::from(2);
    };
    match make_calls(&rt) {
        Ok(()) => ExitCode::from(0),
        Err(_) => ExitCode::from(2),
    }
}

fn make_calls(rt: &HostRuntime) -> io::Result<()> {
    let mut arguments = env::args(rt)?;
    let _program = arguments.next();
    let Some(folder) = arguments.next() else {
        return Err(io::Error::from(io::ErrorKind::InvalidInput));
    };
    let mut host = FolderHost::new(rt, folder, arguments.next(), moment(rt));
    for line in rt.lines(rt.alloc()) {
        let line = line?;
        let answer = answer_to(rt.alloc(), &mut host, line.as_str());
        println!(rt; "{answer}")?;
    }
    Ok(())
}

// Makes the call of that line.
fn answer_to<H: Host>(alloc: Global, host: &mut H, line: &str) -> &'static str {
    let (call, rest) = line.split_once('\t').unwrap_or((line, ""));
    let (subject, rest) = rest.split_once('\t').unwrap_or((rest, ""));
    let Some(subject) = bytes_of(alloc, subject) else {
        return "no text";
    };
    match str::from_utf8(&subject) {
        Ok(subject) => answer_about(alloc, host, call, subject, rest),
        Err(_) => "no text",
    }
}

fn answer_about<H: Host>(
    alloc: Global,
    host: &mut H,
    call: &str,
    subject: &str,
    rest: &str,
) -> &'static str {
    if call == "package" {
        let (version, text) = rest.split_once('\t').unwrap_or((rest, ""));
        return add_package(alloc, host, subject, version, text);
    }
    match bytes_of(alloc, rest) {
        Some(bytes) => make_call(alloc, host, call, subject, &bytes),
        None => "no text",
    }
}

// The bytes of a text.
fn bytes_of(alloc: Global, text: &str) -> Option<Vec<u8>> {
    match text.strip_prefix("0x") {
        Some(digits) => hex::decode(alloc, digits).ok(),
        None => text.as_bytes().to_vec(alloc).ok(),
    }
}

fn add_package<H: Host>(
    alloc: Global,
    host: &mut H,
    name: &str,
    version: &str,
    text: &str,
) -> &'static str {
    match bytes_of(alloc, text) {
        Some(bytes) => outcome_text(host.package_put(name, version, &bytes)),
        None => "no text",
    }
}

fn make_call<H: Host>(
    alloc: Global,
    host: &mut H,
    call: &str,
    subject: &str,
    bytes: &[u8],
) -> &'static str {
    match call {
        "state" => state_of(host.path_state(subject)),
        "same" => yes_or_no(host.file_equals(subject, bytes)),
        "put" => outcome_text(host.put_file(subject, bytes)),
        "make" => outcome_text(host.make_dir(subject)),
        "remove" => outcome_text(host.remove(subject)),
        "value" => has_value(host, subject, bytes, &mut Vec::new(alloc)),
        "set" => outcome_text(host.env_put(subject, bytes)),
        "unset" => outcome_text(host.env_remove(subject)),
        "wanting" => yes_or_no(host.reboot_wanted(subject)),
        _ => call_on_lists(host, call, subject, bytes),
    }
}

// Makes a call on the log or the packages, of which the last text is UTF-8.
fn call_on_lists<H: Host>(host: &mut H, call: &str, subject: &str, bytes: &[u8]) -> &'static str {
    let Ok(text) = str::from_utf8(bytes) else {
        return "no text";
    };
    match call {
        "log" => outcome_text(host.log_add(subject, text)),
        "logged" => yes_or_no(host.log_has(subject, text)),
        "installed" => yes_or_no(host.package_has(subject, text)),
        _ => "no call",
    }
}

// Returns whether the variable has the value.
fn has_value<H: Host>(host: &mut H, name: &str, value: &[u8], found: &mut Vec<u8>) -> &'static str {
    match host.env_state(name, found) {
        Ok(true) if found.as_slice() != value => "other",
        outcome => yes_or_no(outcome),
    }
}

fn state_of(outcome: Result<PathState, HostError>) -> &'static str {
    match outcome {
        Ok(PathState::Nothing) => "nothing",
        Ok(PathState::File) => "file",
        Ok(PathState::EmptyFolder) => "empty",
        Ok(PathState::Folder) => "folder",
        Ok(PathState::Other) => "other",
        Err(error) => error_text(error),
    }
}

fn yes_or_no(outcome: Result<bool, HostError>) -> &'static str {
    match outcome {
        Ok(true) => "yes",
        Ok(false) => "no",
        Err(error) => error_text(error),
    }
}

fn outcome_text(outcome: Result<(), HostError>) -> &'static str {
    match outcome {
        Ok(()) => "done",
        Err(error) => error_text(error),
    }
}

fn error_text(error: HostError) -> &'static str {
    match error {
        HostError::Failed => "failed",
        HostError::Memory => "out of memory",
    }
}
