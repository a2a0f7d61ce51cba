//! Stops that come in a call of several things together.
ghost use Rattle.std.specs.Prelude.{◌≡◌};
ghost use Rattle.memory_outside.specs.SharedStop.{Follows, has_come, turn_at};
ghost use Rattle.memory_outside.specs.declared.shared_stop.Turn.TheVariants as turns;

use std::cell::Cell;
use std::cmp::Ordering;
use std::marker::Model;
use std::rc::Rc;

/// How a call lies to a stop.
#[derive(Clone, Copy, Debug, PartialEq, Eq)]
pub enum Turn {
    Before,

    /// It is the call that the stop comes in.
    Within,

    After,
}

/// The stop of a thing that shares a count of calls with others. A clause sees how the last call lies to it.
#[derive(Drop)]
pub struct SharedStop {
    calls: Rc<Cell<u64>>,
    at: u64,
    turn: Turn,
}

impl Model for SharedStop {
    ghost use Rattle.memory_outside.specs.declared.shared_stop.Turn.{Turn};

    ghost Value = { Turn };

    ghost view = { λ s. s.turn };
}

impl SharedStop {
    /// A stop in the call of that number, counted from 1 and from the first call in the cell.
    pub fn new(calls: Rc<Cell<u64>>, at: u64) -> SharedStop
        ensures { result ≡ turns.Before }
    {
        SharedStop {
            calls,
            at,
            turn: Turn::Before,
        }
    }

    /// Counts a call that begins, and answers how it lies to the stop. The cell says when the stop comes; from then on
    /// each call lies after it.
    pub fn begin_call(&mut self) -> Turn
        ensures turn { result ≡ self.new }
        ensures order { Follows self.old self.new }
    {
        self.turn = next_turn(self.turn, &self.calls, self.at);
        self.turn
    }

    /// How the last call lies to the stop; before the first call, as one before it.
    pub fn turn(&self) -> Turn
        ensures { result ≡ self.now }
    {
        self.turn
    }

    /// Answers whether the stop has reached a call.
    pub fn has_come(&self) -> bool
        ensures { result ≡ has_come self.now }
    {
        self.turn != Turn::Before
    }
}

fn next_turn(last: Turn, calls: &Cell<u64>, stop: u64) -> Turn
    ensures { Follows last result }
{
    match last {
        Turn::Before => turn_at(count_call(calls), stop),
        Turn::Within => Turn::After,
        Turn::After => Turn::After,
    }
}

// Counts a call, and answers its number.
fn count_call(calls: &Cell<u64>) -> u64 {
    let number = calls.get().saturating_add(1);
    calls.set(number);
    number
}

fn turn_at(number: u64, stop: u64) -> Turn
    ensures { result ≡ turn_at number stop }
{
    match number.cmp(&stop) {
        Ordering::Less => Turn::Before,
        Ordering::Equal => Turn::Within,
        Ordering::Greater => Turn::After,
    }
}
