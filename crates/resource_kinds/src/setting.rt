//! The Set of a resource.
ghost use Rattle.std.specs.Prelude.{◌≡◌, ◌≤◌, ◌↔◌, ◌⊎◌, ⊤, IfOk, IfSome, IsTrue, OnErr};
ghost use Rattle.std.specs.Result.{IfErr};
ghost use Rattle.dsc_terms.specs.Counts.{RoseBy};
ghost use Rattle.dsc_outside.specs.Causes.{HasCauseOf};
ghost use Rattle.resource_kinds.specs.Holds.{Applies, InTheWay};
ghost use Rattle.resource_kinds.specs.Wanted.{wanted_of};
ghost use Rattle.resource_kinds.specs.True.{BlamesMachine, SetKeepsTable, SetsKnown, SetsTrue, TellsStep};
ghost use Rattle.resource_kinds.specs.Trace.{set_failures};
ghost use Rattle.resource_kinds.specs.declared.wanted.Wanted.TheVariants as wants;

use crate::entries::{with_entries, without_entries};
use crate::entry::{Failure, SetAnswer};
use crate::obstacles::is_in_the_way;
use crate::testing::variable;
use crate::utf8::Utf8;
use crate::wanted::{Wanted, WantedError, wanted_of};
use dsc_document::Resource;
use dsc_outside::{Host, HostError};
use mof_values::Text;
use std::alloc::{AllocError, Global};

/// Makes of the host what the resource asks for, where nothing is in the way, and returns whether the host wants a reboot
/// for it; with a fault of its own the host is not called.
pub fn set<H: Host>(alloc: Global, host: &mut H, resource: &Resource) -> SetAnswer
    ensures shown { TellsStep (H.shown host.old) (H.shown host.new)
        (λ before after. SetsTrue before resource.now.id (wanted_of resource.now) result after) }
    ensures table { SetKeepsTable (wanted_of resource.now) result }
    ensures unseen { IfErr (wanted_of resource.now) (λ _. host.new ≡ host.old) }
    ensures later { H.faults host.old ≤ H.faults host.new }
    ensures cause { RoseBy (set_failures result) (H.faults host.old) (H.faults host.new) }
{
    match wanted_of(alloc, resource) {
        Ok(wanted) => set_wanted(alloc, host, &resource.id, &wanted),
        Err(WantedError::Fault(failure)) => SetAnswer::Fault(failure),
        Err(WantedError::Memory) => SetAnswer::Memory,
    }
}

/// The same of what is asked for.
pub fn set_wanted<H: Host>(alloc: Global, host: &mut H, id: &Text, wanted: &Wanted) -> SetAnswer
    ensures shown { TellsStep (H.shown host.old) (H.shown host.new)
        (λ before after. SetsKnown before id.now wanted.now result after) }
    ensures table { BlamesMachine wanted.now result }
    ensures later { H.faults host.old ≤ H.faults host.new }
    ensures cause { RoseBy (set_failures result) (H.faults host.old) (H.faults host.new) }
{
    match is_in_the_way(host, wanted) {
        Ok(true) => SetAnswer::Fault(Failure::InTheWay),
        Ok(false) => set_clear(alloc, host, id, wanted),
        Err(HostError::Failed) => SetAnswer::Fault(Failure::HostFailed),
        Err(HostError::Memory) => SetAnswer::Memory,
    }
}

// The Set of a resource that nothing is in the way of.
fn set_clear<H: Host>(alloc: Global, host: &mut H, id: &Text, wanted: &Wanted) -> SetAnswer
    requires { IfSome (H.shown host.old) (λ state. InTheWay state wanted.now → ⊥) }
    ensures shown { TellsStep (H.shown host.old) (H.shown host.new)
        (λ before after. SetsKnown before id.now wanted.now result after) }
    ensures table { BlamesMachine wanted.now result }
    ensures later { H.faults host.old ≤ H.faults host.new }
    ensures cause { RoseBy (set_failures result) (H.faults host.old) (H.faults host.new) }
{
    let id = match Utf8::folded(alloc, id) {
        Ok(id) => id,
        Err(AllocError) => return SetAnswer::Memory,
    };
    match apply(alloc, host, wanted) {
        Ok(()) => {}
        Err(HostError::Failed) => return SetAnswer::Fault(Failure::HostFailed),
        Err(HostError::Memory) => return SetAnswer::Memory,
    }
    match host.reboot_wanted(id.as_str()) {
        Ok(true) => SetAnswer::Reboot,
        Ok(false) => SetAnswer::Done,
        Err(HostError::Failed) => SetAnswer::Fault(Failure::HostFailed),
        Err(HostError::Memory) => SetAnswer::Memory,
    }
}

// Makes of the host what is asked for.
fn apply<H: Host>(alloc: Global, host: &mut H, wanted: &Wanted) -> Result<(), HostError>
    ensures change { Applies wanted.now (H.shown host.old) (H.shown host.new) result }
    ensures cause { HasCauseOf HostError.Failed (H.faults host.old) (H.faults host.new) result }
{
    match wanted {
        Wanted::File {
            path,
            contents: Some(contents),
        } => host.put_file(path.as_str(), contents.as_bytes()),
        Wanted::File {
            path,
            contents: None,
        } => host.put_file(path.as_str(), &[]),
        Wanted::Folder { path } => host.make_dir(path.as_str()),
        Wanted::NoFile { path } | Wanted::NoFolder { path, .. } => host.remove(path.as_str()),
        Wanted::Variable { name, value } => host.env_put(name.as_str(), value.as_bytes()),
        Wanted::Entries { name, value } => add_entries(alloc, host, name, value),
        Wanted::NoVariable { name } => host.env_remove(name.as_str()),
        Wanted::NoEntries { name, value } => take_entries(alloc, host, name, value),
        Wanted::Logged { id, message } => host.log_add(id.as_str(), message.as_str()),
    }
}

fn add_entries<H: Host>(
    alloc: Global,
    host: &mut H,
    name: &Utf8,
    value: &Utf8,
) -> Result<(), HostError>
    ensures change { Applies (wants.Entries name.now value.now)
        (H.shown host.old) (H.shown host.new) result }
    ensures cause { HasCauseOf HostError.Failed (H.faults host.old) (H.faults host.new) result }
{
    let found = variable(alloc, host, name)?;
    let made = with_entries(alloc, found.as_deref(), value.as_bytes())?;
    host.env_put(name.as_str(), made.as_slice())
}

fn take_entries<H: Host>(
    alloc: Global,
    host: &mut H,
    name: &Utf8,
    value: &Utf8,
) -> Result<(), HostError>
    ensures change { Applies (wants.NoEntries name.now value.now)
        (H.shown host.old) (H.shown host.new) result }
    ensures cause { HasCauseOf HostError.Failed (H.faults host.old) (H.faults host.new) result }
{
    match variable(alloc, host, name)? {
        Some(found) => match without_entries(alloc, found.as_slice(), value.as_bytes())? {
            Some(left) => host.env_put(name.as_str(), left.as_slice()),
            None => host.env_remove(name.as_str()),
        },
        None => host.env_remove(name.as_str()),
    }
}
