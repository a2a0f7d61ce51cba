//! What runs of commands answer, and which programs they run.
ghost use Rattle.std.specs.Prelude.{◌≡◌, ◌<◌, ◌≤◌, ◌*◌, ◌^◌, [], length, IfOk};
ghost use Rattle.command_kind.specs.Laws.{RunOfCommands};
ghost use Rattle.command_kind.specs.Parts.{calls_of, spare_of};
ghost use Rattle.depend_order.specs.Documents.{IsOrderOfDocument};
ghost use Rattle.dsc_document.specs.Dependencies.{HasDistinctIds, NamesResources};

mod documents;
mod rows;
mod words;

use command_kind::{Commands, MemorySpawner, SpawnError, Spawner, command_laws};
use depend_order::order;
use documents::{document, text};
use dsc_document::Document;
use lcm_core::{RunEnd, RunMode, run};
use memory_outside::MemoryHost;
use resource_kinds::{Kinds, Machine, Resources};
use rows::{FAULTS, FaultRow, RUNS, RunRow};
use std::alloc::Global;
use std::test::Fail;
use words::{run_words, trace_words};

fn spawner(rt: &impl AllocGlobal, statuses: &[u8]) -> Result<MemorySpawner, Fail> {
    Ok(MemorySpawner::new(statuses.to_vec(rt.alloc())?))
}

// The kinds of resources of an empty machine, with commands of these statuses.
fn commands(
    rt: &impl AllocGlobal,
    statuses: &[u8],
) -> Result<Commands<Kinds<MemoryHost>, MemorySpawner>, Fail>
    ensures { IfOk result (λ commands. calls_of commands ≡ []) }
{
    let alloc = rt.alloc();
    let kinds = Kinds::new(alloc, MemoryHost::new(Vec::new(alloc), Vec::new(alloc)));
    Ok(Commands::new(alloc, kinds, spawner(rt, statuses)?))
}

// A run over commands, of which its trace says what was run.
fn run_commands<M: Machine, P: Spawner>(
    alloc: Global,
    document: &Document,
    order: &[u32],
    mode: RunMode,
    commands: &mut Commands<M, P>,
) -> RunEnd
    requires few { length document.now.resources < 2 ^ 32 }
    requires known { NamesResources document.now }
    requires distinct { HasDistinctIds document.now }
    requires order { IsOrderOfDocument document.now order.now }
    requires fresh { calls_of commands.old ≡ [] }
    requires capacity { 3 * length document.now.resources ≤ spare_of M.spare commands.old }
    ensures { RunOfCommands P.Spawner document.now (calls_of commands.new)
        commands.old commands.new }
{
    command_laws::<M, P>();
    run(alloc, document, order, mode, commands)
}

// The entries and how the run ended, and then the runs.
fn ran(rt: &impl AllocGlobal, mode: RunMode, text: &str, statuses: &[u8]) -> Result<String, Fail> {
    let document = document(rt, text)?;
    ran_over(rt, mode, &document, statuses)
}

fn ran_over(
    rt: &impl AllocGlobal,
    mode: RunMode,
    document: &Document,
    statuses: &[u8],
) -> Result<String, Fail>
    requires few { length document.now.resources ≤ 4 }
    requires known { NamesResources document.now }
    requires distinct { HasDistinctIds document.now }
{
    let order = order(rt.alloc(), document)?;
    let mut commands = commands(rt, statuses)?;
    // three entries for each of four resources
    commands.reserve(12)?;
    let end = run_commands(rt.alloc(), document, &order, mode, &mut commands);
    let mut made = trace_words(rt, document, commands.calls(), end)?;
    let (_, spawner) = commands.into_parts();
    made.push_str(" |")?;
    made.push_str(&run_words(rt, spawner.runs())?)?;
    Ok(made)
}

fn check_run(rt: &impl AllocGlobal, row: &RunRow) -> Result<(), Fail> {
    let (mode, text, statuses, wanted) = *row;
    if ran(rt, mode, text, statuses)?.as_str() != wanted {
        return Err(wanted.into());
    }
    Ok(())
}

#[test]
fn a_command_runs_its_programs_in_turn(rt: HostRuntime) -> Result<(), Fail> {
    for row in RUNS {
        check_run(&rt, row)?;
    }
    Ok(())
}

fn check_fault(rt: &impl AllocGlobal, row: &FaultRow) -> Result<(), Fail> {
    let (properties, wanted) = *row;
    let text = format!(in rt.alloc(); "C A {properties}")?;
    if ran(rt, RunMode::Repair, &text, &[0])?.as_str() != wanted {
        return Err(properties.into());
    }
    Ok(())
}

#[test]
fn a_command_with_a_fault_of_its_own_runs_nothing(rt: HostRuntime) -> Result<(), Fail> {
    for row in FAULTS {
        check_fault(&rt, row)?;
    }
    Ok(())
}

#[test]
fn a_spawner_in_memory_tells_what_it_was_given(rt: HostRuntime) -> Result<(), Fail> {
    let mut spawner = spawner(&rt, &[7])?;
    let words = vec![in rt.alloc(); text(&rt, "a b")?]?;
    if spawner.run("/x", &words)? != 7 || spawner.run("y", &[]) != Err(SpawnError::Failed) {
        return Err("other statuses".into());
    }
    if run_words(&rt, spawner.runs())?.as_str() != " /x(a b)=7 y()=none" {
        return Err("other runs".into());
    }
    Ok(())
}
