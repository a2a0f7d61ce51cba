//! The play of a rehearsal.
ghost use Rattle.std.specs.Prelude.{◌≡◌, ◌+◌, ◌<◌, ◌≤◌, IfOk, length, string_bytes};
ghost use Rattle.rehearsal.specs.Living.{IsBetween, world_of};
ghost use Rattle.rehearsal.specs.Playing.{IsPlayed, IsPlayedFrom, Starts, StepLeads, input_of};
ghost use Rattle.rehearsal.specs.declared.limits.TheConstants.{MAX_SCRIPT};

use crate::row::push_row;
use crate::starter::Starter;
use crate::starting::{Started, start, start_to_stop};
use crate::step::{Step, StopAt};
use crate::texts::ScriptText;
use crate::words::Word;
use crate::world::LiveWorld;
use mof_values::Memory;
use std::alloc::Global;

/// Plays the steps of a script with that program, and gives a line for each start.
///
/// # Errors
///
/// `Memory`, where a growth was refused, or a disk or a machine in memory ran out of it.
pub fn play<S: Starter>(alloc: Global, steps: &[Step<'_>]) -> Result<String, Memory>
    requires { length steps.now ≤ MAX_SCRIPT }
    ensures { IfOk result (λ text. IsPlayed S.Starter steps.now (string_bytes text)) }
{
    let first = LiveWorld::new(alloc)?;
    play_from::<S>(alloc, first, steps)
}

// Plays the steps in that world.
fn play_from<S: Starter>(
    alloc: Global,
    first: LiveWorld,
    steps: &[Step<'_>],
) -> Result<String, Memory>
    requires between { IsBetween first }
    requires few { first.starts + length steps.now ≤ MAX_SCRIPT }
    ensures { IfOk result (λ text. IsPlayedFrom S.Starter (world_of first) steps.now
        (string_bytes text)) }
{
    let mut text = String::new(alloc);
    let mut live = first;
    let mut left = steps;
    while let [step, more @ ..] = left {
        live = take_step::<S>(alloc, live, step, &mut text)?;
        left = more;
    }
    Ok(text)
}

// Takes the step, and appends the line of its start, where it is one.
fn take_step<S: Starter>(
    alloc: Global,
    live: LiveWorld,
    step: &Step<'_>,
    text: &mut String,
) -> Result<LiveWorld, Memory>
    requires between { IsBetween live }
    requires few { live.starts < MAX_SCRIPT }
    ensures leads { IfOk result (λ next. StepLeads S.Starter step.now
        (world_of live) (string_bytes text.old) (world_of next) (string_bytes text.new)) }
    ensures between { IfOk result IsBetween }
{
    match step {
        Step::Shelf {
            configuration,
            content,
        } => Ok(live.put_configuration(alloc, configuration.as_str(), content.as_slice())?),
        Step::Key { key } => Ok(live.add_key(alloc, key.as_slice())?),
        Step::Wants { id } => Ok(live.add_wish(alloc, id.as_str())?),
        Step::Start { words, input, stop } => {
            let input = input_of(input);
            let started = start_or_stop::<S>(alloc, live, words.as_slice(), input, *stop)?;
            push_row(text, &started.row)?;
            Ok(started.world)
        }
    }
}

fn input_of<'a>(input: &Option<ScriptText<'a>>) -> &'a [u8]
    ensures { result.now ≡ input_of input.now }
{
    match input {
        Some(text) => text.as_slice(),
        None => &[],
    }
}

fn start_or_stop<S: Starter>(
    alloc: Global,
    live: LiveWorld,
    words: &[Word<'_>],
    input: &[u8],
    stop: Option<StopAt>,
) -> Result<Started, Memory>
    requires between { IsBetween live }
    requires few { live.starts < MAX_SCRIPT }
    ensures starts { IfOk result (λ started. Starts S.Starter stop words.now input.now
        (world_of live) started.row (world_of started.world)) }
    ensures between { IfOk result (λ started. IsBetween started.world) }
{
    match stop {
        None => start::<S>(alloc, live, words, input),
        Some(stop) => start_to_stop::<S>(alloc, live, words, input, stop),
    }
}
