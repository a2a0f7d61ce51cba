//! The Test of a resource.
ghost use Rattle.std.specs.Prelude.{◌≡◌, ◌≤◌, ◌↔◌, IfOk, IfSome, IsTrue, option_map};
ghost use Rattle.std.specs.Result.{IfErr};
ghost use Rattle.std.specs.Option.{option_copied};
ghost use Rattle.dsc_terms.specs.Counts.{RoseBy};
ghost use Rattle.dsc_outside.specs.Causes.{HasCauseOf};
ghost use Rattle.dsc_outside.specs.Host.{Tells};
ghost use Rattle.resource_kinds.specs.Holds.{TestsHolding};
ghost use Rattle.resource_kinds.specs.Wanted.{wanted_of};
ghost use Rattle.resource_kinds.specs.True.{AnswersKnown, AnswersTrue, BlamesHost, TestKeepsTable};
ghost use Rattle.resource_kinds.specs.Trace.{test_failures};
ghost use Rattle.resource_kinds.specs.declared.wanted.Wanted.TheVariants as wants;

use crate::entries::{has_entries, lacks_entries};
use crate::entry::{Failure, TestAnswer};
use crate::utf8::Utf8;
use crate::wanted::{Wanted, WantedError, wanted_of};
use dsc_document::Resource;
use dsc_outside::{Host, HostError, PathState};
use std::alloc::Global;

/// Returns whether what the resource asks for holds on the host, which stays as it is; one with a fault is not looked for.
pub fn test<H: Host>(alloc: Global, host: &mut H, resource: &Resource) -> TestAnswer
    ensures shown { H.shown host.new ≡ H.shown host.old }
    ensures answer { IfSome (H.shown host.old)
        (λ state. AnswersTrue state (wanted_of resource.now) result) }
    ensures table { TestKeepsTable (wanted_of resource.now) result }
    ensures unseen { IfErr (wanted_of resource.now) (λ _. host.new ≡ host.old) }
    ensures later { H.faults host.old ≤ H.faults host.new }
    ensures cause { RoseBy (test_failures result) (H.faults host.old) (H.faults host.new) }
{
    match wanted_of(alloc, resource) {
        Ok(wanted) => test_wanted(alloc, host, &wanted),
        Err(WantedError::Fault(failure)) => TestAnswer::Fault(failure),
        Err(WantedError::Memory) => TestAnswer::Memory,
    }
}

/// The same of what is asked for.
pub fn test_wanted<H: Host>(alloc: Global, host: &mut H, wanted: &Wanted) -> TestAnswer
    ensures shown { H.shown host.new ≡ H.shown host.old }
    ensures answer { IfSome (H.shown host.old) (λ state. AnswersKnown state wanted.now result) }
    ensures table { BlamesHost result }
    ensures later { H.faults host.old ≤ H.faults host.new }
    ensures cause { RoseBy (test_failures result) (H.faults host.old) (H.faults host.new) }
{
    match holds(alloc, host, wanted) {
        Ok(true) => TestAnswer::Yes,
        Ok(false) => TestAnswer::No,
        Err(HostError::Failed) => TestAnswer::Fault(Failure::HostFailed),
        Err(HostError::Memory) => TestAnswer::Memory,
    }
}

fn holds<H: Host>(alloc: Global, host: &mut H, wanted: &Wanted) -> Result<bool, HostError>
    ensures shown { H.shown host.new ≡ H.shown host.old }
    ensures answer { TestsHolding wanted.now (H.shown host.old) result }
    ensures cause { HasCauseOf HostError.Failed (H.faults host.old) (H.faults host.new) result }
{
    match wanted {
        Wanted::File { path, contents } => has_file_of(host, path, contents),
        Wanted::Folder { path } => has_folder(host, path),
        Wanted::NoFile { path } | Wanted::NoFolder { path, .. } => has_nothing(host, path),
        Wanted::Variable { name, value } => has_variable(alloc, host, name, value),
        Wanted::Entries { name, value } => has_all(alloc, host, name, value),
        Wanted::NoVariable { name } => has_no_variable(alloc, host, name),
        Wanted::NoEntries { name, value } => has_none(alloc, host, name, value),
        Wanted::Logged { id, message } => host.log_has(id.as_str(), message.as_str()),
    }
}

fn has_file_of<H: Host>(
    host: &mut H,
    path: &Utf8,
    contents: &Option<Utf8>,
) -> Result<bool, HostError>
    ensures shown { H.shown host.new ≡ H.shown host.old }
    ensures answer { TestsHolding (wants.File path.now contents.now) (H.shown host.old) result }
    ensures cause { HasCauseOf HostError.Failed (H.faults host.old) (H.faults host.new) result }
{
    match contents {
        Some(contents) => host.file_equals(path.as_str(), contents.as_bytes()),
        None => has_file(host, path),
    }
}

fn has_file<H: Host>(host: &mut H, path: &Utf8) -> Result<bool, HostError>
    ensures shown { H.shown host.new ≡ H.shown host.old }
    ensures answer { TestsHolding (wants.File path.now None) (H.shown host.old) result }
    ensures cause { HasCauseOf HostError.Failed (H.faults host.old) (H.faults host.new) result }
{
    match host.path_state(path.as_str())? {
        PathState::File => Ok(true),
        PathState::Nothing | PathState::EmptyFolder | PathState::Folder | PathState::Other => {
            Ok(false)
        }
    }
}

fn has_folder<H: Host>(host: &mut H, path: &Utf8) -> Result<bool, HostError>
    ensures shown { H.shown host.new ≡ H.shown host.old }
    ensures answer { TestsHolding (wants.Folder path.now) (H.shown host.old) result }
    ensures cause { HasCauseOf HostError.Failed (H.faults host.old) (H.faults host.new) result }
{
    match host.path_state(path.as_str())? {
        PathState::EmptyFolder | PathState::Folder => Ok(true),
        PathState::Nothing | PathState::File | PathState::Other => Ok(false),
    }
}

fn has_nothing<H: Host>(host: &mut H, path: &Utf8) -> Result<bool, HostError>
    ensures shown { H.shown host.new ≡ H.shown host.old }
    ensures answer { TestsHolding (wants.NoFile path.now) (H.shown host.old) result }
    ensures cause { HasCauseOf HostError.Failed (H.faults host.old) (H.faults host.new) result }
{
    match host.path_state(path.as_str())? {
        PathState::Nothing => Ok(true),
        PathState::File | PathState::EmptyFolder | PathState::Folder | PathState::Other => {
            Ok(false)
        }
    }
}

fn has_variable<H: Host>(
    alloc: Global,
    host: &mut H,
    name: &Utf8,
    value: &Utf8,
) -> Result<bool, HostError>
    ensures shown { H.shown host.new ≡ H.shown host.old }
    ensures answer { TestsHolding (wants.Variable name.now value.now) (H.shown host.old) result }
    ensures cause { HasCauseOf HostError.Failed (H.faults host.old) (H.faults host.new) result }
{
    match variable(alloc, host, name)? {
        Some(found) => Ok(found.as_slice() == value.as_bytes()),
        None => Ok(false),
    }
}

fn has_all<H: Host>(
    alloc: Global,
    host: &mut H,
    name: &Utf8,
    value: &Utf8,
) -> Result<bool, HostError>
    ensures shown { H.shown host.new ≡ H.shown host.old }
    ensures answer { TestsHolding (wants.Entries name.now value.now) (H.shown host.old) result }
    ensures cause { HasCauseOf HostError.Failed (H.faults host.old) (H.faults host.new) result }
{
    match variable(alloc, host, name)? {
        Some(found) => Ok(has_entries(alloc, Some(found.as_slice()), value.as_bytes())?),
        None => Ok(false),
    }
}

fn has_no_variable<H: Host>(alloc: Global, host: &mut H, name: &Utf8) -> Result<bool, HostError>
    ensures shown { H.shown host.new ≡ H.shown host.old }
    ensures answer { TestsHolding (wants.NoVariable name.now) (H.shown host.old) result }
    ensures cause { HasCauseOf HostError.Failed (H.faults host.old) (H.faults host.new) result }
{
    match variable(alloc, host, name)? {
        Some(_) => Ok(false),
        None => Ok(true),
    }
}

fn has_none<H: Host>(
    alloc: Global,
    host: &mut H,
    name: &Utf8,
    value: &Utf8,
) -> Result<bool, HostError>
    ensures shown { H.shown host.new ≡ H.shown host.old }
    ensures answer { TestsHolding (wants.NoEntries name.now value.now) (H.shown host.old) result }
    ensures cause { HasCauseOf HostError.Failed (H.faults host.old) (H.faults host.new) result }
{
    match variable(alloc, host, name)? {
        Some(found) => Ok(lacks_entries(alloc, Some(found.as_slice()), value.as_bytes())?),
        None => Ok(lacks_entries(alloc, None, value.as_bytes())?),
    }
}

/// The value of the variable of that folded name, where it is there.
pub fn variable<H: Host>(
    alloc: Global,
    host: &mut H,
    name: &Utf8,
) -> Result<Option<Vec<u8>>, HostError>
    ensures shown { H.shown host.new ≡ H.shown host.old }
    ensures answer { Tells (H.shown host.old) result (λ state found.
        option_map (λ v. v.items) found ≡ state.variable name.now) }
    ensures cause { HasCauseOf HostError.Failed (H.faults host.old) (H.faults host.new) result }
{
    let mut found = Vec::new(alloc);
    if host.env_state(name.as_str(), &mut found)? {
        return Ok(Some(found));
    }
    Ok(None)
}
