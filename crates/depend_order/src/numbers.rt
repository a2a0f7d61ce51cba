//! The order of places whose dependencies are numbers.
ghost use Rattle.std.specs.Prelude.{◌≡◌, ◌+◌, ◌*◌, ◌<◌, ◌≤◌, ◌^◌, IfOk, length};
ghost use Rattle.depend_order.specs.Answers.{IfCycle, OnCycle};
ghost use Rattle.depend_order.specs.Numbers.{AreBelow, AreUnordered, IsCycleOfNumbers, IsOrderOfNumbers, numbers_in};

use crate::counts::{counts_of, first_ready, first_waiting, release};
use crate::dependents::dependents_of;
use crate::walk::closed_walk;
use crate::{OrderError, Steps};
use std::alloc::Global;
use std::cmp::Reverse;
use std::marker::Brand;
use std::sync::ledger::{Blank, Ledger};

/// The order of the places 0, 1 and so on, where `depends[r]` lists the places that place `r` depends on.
///
/// At each position stands the least place that stands at no earlier position and whose dependencies all do.
/// `Cycle` comes exactly where no such list of all places exists. The walk that finds it begins at the least
/// place that is left, and goes on from each to the first of its dependencies that is left.
pub fn order_of(alloc: Global, depends: &[Vec<u32>]) -> Result<Vec<u32>, OrderError>
    requires few { length depends.now < 2 ^ 32 }
    requires below { AreBelow (length depends.now) depends.now }
    ensures order { IfOk result (λ order. IsOrderOfNumbers depends.now order.items) }
    ensures cycle { IfCycle result (IsCycleOfNumbers depends.now) }
    ensures no_order { OnCycle result (AreUnordered depends.now) }
{
    order_of_uncounted::<Brand>(alloc, depends, Blank::new(1))
}

// The same, with a ledger for steps that nobody reads.
fn order_of_uncounted<L: Ledger>(
    alloc: Global,
    depends: &[Vec<u32>],
    blank: Blank,
) -> Result<Vec<u32>, OrderError>
    requires name { blank.name ≡ L.name }
    requires parts { blank.parts ≡ L.parts }
    requires some { 0 < blank.parts }
    requires few { length depends.now < 2 ^ 32 }
    requires below { AreBelow (length depends.now) depends.now }
    ensures order { IfOk result (λ order. IsOrderOfNumbers depends.now order.items) }
    ensures cycle { IfCycle result (IsCycleOfNumbers depends.now) }
    ensures no_order { OnCycle result (AreUnordered depends.now) }
{
    let mut steps = Steps::<L>::new(blank);
    order_of_counted(alloc, depends, &mut steps)
}

/// The same as [`order_of`], and its steps are counted.
pub fn order_of_counted<L: Ledger>(
    alloc: Global,
    depends: &[Vec<u32>],
    steps: &mut Steps<L>,
) -> Result<Vec<u32>, OrderError>
    requires few { length depends.now < 2 ^ 32 }
    requires below { AreBelow (length depends.now) depends.now }
    ensures order { IfOk result (λ order. IsOrderOfNumbers depends.now order.items) }
    ensures cycle { IfCycle result (IsCycleOfNumbers depends.now) }
    ensures no_order { OnCycle result (AreUnordered depends.now) }
    ensures steps { steps.new ≤ steps.old + (2 * length depends.now + numbers_in depends.now) }
{
    let dependents = dependents_of(alloc, depends)?;
    let mut waiting = counts_of(alloc, depends)?;
    let mut ready = first_ready(alloc, &waiting, steps)?;
    let mut order = Vec::new(alloc);
    while let Some(Reverse(place)) = ready.pop() {
        steps.tick();
        release(&dependents[place as usize], &mut waiting, &mut ready, steps)?;
        order.push(place)?;
    }
    match first_waiting(&waiting) {
        None => Ok(order),
        Some(start) => {
            let cycle = closed_walk(alloc, depends, &waiting, start)?;
            Err(OrderError::Cycle(cycle))
        }
    }
}
