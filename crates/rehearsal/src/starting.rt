//! One start of a rehearsal.
ghost use Rattle.std.specs.Prelude.{◌<◌, IfOk};
ghost use Rattle.rehearsal.specs.Living.{IsBetween, world_of};
ghost use Rattle.rehearsal.specs.Playing.{Ends, EndsOrStops};
ghost use Rattle.rehearsal.specs.Rows.{IsRow};
ghost use Rattle.rehearsal.specs.declared.limits.TheConstants.{MAX_SCRIPT};

use crate::lasting::{lasted_to_stop, stop_has_come};
use crate::row::{Ending, StartRow, ending_of};
use crate::running::{asked_of, left_by, left_by_stop, run, run_to_stop, stopping};
use crate::slots::read_slots;
use crate::starter::Starter;
use crate::step::StopAt;
use crate::words::Word;
use crate::world::LiveWorld;
use mof_values::Memory;
use std::alloc::Global;

/// The row of a start, and what it left.
#[derive(Drop)]
pub struct Started {
    pub row: StartRow,
    pub world: LiveWorld,
}

/// A start that does not stop.
pub fn start<S: Starter>(
    alloc: Global,
    live: LiveWorld,
    words: &[Word<'_>],
    input: &[u8],
) -> Result<Started, Memory>
    requires between { IsBetween live }
    requires few { live.starts < MAX_SCRIPT }
    ensures ends { IfOk result (λ started. Ends S.Starter words.now input.now
        (world_of live) started.row (world_of started.world)) }
    ensures between { IfOk result (λ started. IsBetween started.world) }
{
    let asked = asked_of(alloc, words, input)?;
    let ran = run::<S>(alloc, live, asked);
    let name = ran.name;
    let world = left_by(ran)?;
    let row = row_of(alloc, ending_of(false, name), &world)?;
    Ok(Started { row, world })
}

/// A start that stops, where it reaches the call of the stop.
pub fn start_to_stop<S: Starter>(
    alloc: Global,
    live: LiveWorld,
    words: &[Word<'_>],
    input: &[u8],
    stop: StopAt,
) -> Result<Started, Memory>
    requires between { IsBetween live }
    requires few { live.starts < MAX_SCRIPT }
    ensures ends { IfOk result (λ started. EndsOrStops S.Starter stop.part words.now input.now
        (world_of live) started.row (world_of started.world)) }
    ensures between { IfOk result (λ started. IsBetween started.world) }
{
    let asked = asked_of(alloc, words, input)?;
    let ready = stopping(alloc, live, stop)?;
    let ran = run_to_stop::<S>(alloc, ready, asked);
    lasted_to_stop(&ran.disk, &ran.host)?;
    let ending = ending_of(stop_has_come(&ran.disk, &ran.host), ran.name);
    let world = left_by_stop(ran, stop.part)?;
    let row = row_of(alloc, ending, &world)?;
    Ok(Started { row, world })
}

// The row of a start that ended so and left this world.
fn row_of(alloc: Global, ending: Ending, live: &LiveWorld) -> Result<StartRow, Memory>
    requires { IsBetween live.now }
    ensures { IfOk result (IsRow ending (world_of live.now)) }
{
    let slots = read_slots(alloc, live.disk.bytes())?;
    Ok(StartRow {
        number: live.starts,
        ending,
        slots,
    })
}
