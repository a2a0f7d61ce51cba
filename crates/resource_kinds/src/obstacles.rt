//! What is in the way of a Set.
ghost use Rattle.std.specs.Prelude.{◌≡◌, ◌↔◌, ◌⊎◌, IfOk, IsTrue, take, length, ◌≤◌, ◌<◌};
ghost use Rattle.dsc_outside.specs.Causes.{HasCauseOf};
ghost use Rattle.dsc_outside.specs.Host.{Tells};
ghost use Rattle.resource_kinds.specs.Holds.{AsksPath, BarsFile, BarsFolder, InTheWay, IsBarred, TestsInTheWay};
ghost use Rattle.resource_kinds.specs.declared.wanted.Wanted.TheVariants as wants;

use crate::utf8::Utf8;
use crate::wanted::Wanted;
use dsc_outside::{Host, HostError, PathState};

/// Returns whether something on the host is in the way of what is asked for.
pub fn is_in_the_way<H: Host>(host: &mut H, wanted: &Wanted) -> Result<bool, HostError>
    ensures shown { H.shown host.new ≡ H.shown host.old }
    ensures answer { TestsInTheWay wanted.now (H.shown host.old) result }
    ensures path { IfOk result (λ yes. IsTrue yes → AsksPath wanted.now) }
    ensures cause { HasCauseOf HostError.Failed (H.faults host.old) (H.faults host.new) result }
{
    match wanted {
        Wanted::File { path, .. } => bars_file(host, path),
        Wanted::NoFile { path } => bars_file(host, path),
        Wanted::Folder { path } => bars_folder(host, path),
        Wanted::NoFolder { path, forced } => bars_removal(host, path, *forced),
        Wanted::Variable { .. }
        | Wanted::Entries { .. }
        | Wanted::NoVariable { .. }
        | Wanted::NoEntries { .. }
        | Wanted::Logged { .. } => Ok(false),
    }
}

fn bars_file<H: Host>(host: &mut H, path: &Utf8) -> Result<bool, HostError>
    ensures shown { H.shown host.new ≡ H.shown host.old }
    ensures answer { TestsInTheWay (wants.NoFile path.now) (H.shown host.old) result }
    ensures cause { HasCauseOf HostError.Failed (H.faults host.old) (H.faults host.new) result }
{
    if is_barred(host, path.as_str())? {
        return Ok(true);
    }
    match host.path_state(path.as_str())? {
        PathState::EmptyFolder | PathState::Folder | PathState::Other => Ok(true),
        PathState::Nothing | PathState::File => Ok(false),
    }
}

fn bars_folder<H: Host>(host: &mut H, path: &Utf8) -> Result<bool, HostError>
    ensures shown { H.shown host.new ≡ H.shown host.old }
    ensures answer { TestsInTheWay (wants.Folder path.now) (H.shown host.old) result }
    ensures cause { HasCauseOf HostError.Failed (H.faults host.old) (H.faults host.new) result }
{
    if is_barred(host, path.as_str())? {
        return Ok(true);
    }
    stands_for_folder(host, path.as_str())
}

// Returns whether something that is no folder stands at the path.
fn stands_for_folder<H: Host>(host: &mut H, path: &str) -> Result<bool, HostError>
    ensures shown { H.shown host.new ≡ H.shown host.old }
    ensures answer { Tells (H.shown host.old) result
        (λ state yes. IsTrue yes ↔ BarsFolder (state.path path.now)) }
    ensures cause { HasCauseOf HostError.Failed (H.faults host.old) (H.faults host.new) result }
{
    match host.path_state(path)? {
        PathState::File | PathState::Other => Ok(true),
        PathState::Nothing | PathState::EmptyFolder | PathState::Folder => Ok(false),
    }
}

fn bars_removal<H: Host>(host: &mut H, path: &Utf8, forced: bool) -> Result<bool, HostError>
    ensures shown { H.shown host.new ≡ H.shown host.old }
    ensures answer { TestsInTheWay (wants.NoFolder path.now forced) (H.shown host.old) result }
    ensures cause { HasCauseOf HostError.Failed (H.faults host.old) (H.faults host.new) result }
{
    if is_barred(host, path.as_str())? {
        return Ok(true);
    }
    match host.path_state(path.as_str())? {
        PathState::File | PathState::Other => Ok(true),
        PathState::Folder => Ok(!forced),
        PathState::Nothing | PathState::EmptyFolder => Ok(false),
    }
}

// Returns whether something that is no folder stands above the path; it looks from the top, and no further than that.
fn is_barred<H: Host>(host: &mut H, path: &str) -> Result<bool, HostError>
    ensures shown { H.shown host.new ≡ H.shown host.old }
    ensures answer { Tells (H.shown host.old) result
        (λ state yes. IsTrue yes ↔ IsBarred state.path path.now) }
    ensures cause { HasCauseOf HostError.Failed (H.faults host.old) (H.faults host.new) result }
{
    for at in 0..path.len() {
        if path.as_bytes()[at] == b'/' && stands_for_folder(host, path.split_at(at).0)? {
            return Ok(true);
        }
    }
    Ok(false)
}
