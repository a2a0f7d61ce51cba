//! The places that depend on each place.
ghost use Rattle.std.specs.Prelude.{◌≡◌, ◌≢◌, ◌+◌, ◌<◌, ◌^◌, ℕ, [], All, IfOk, OnOk, length};
ghost use Rattle.depend_order.specs.Counts.{AreDependents, times};
ghost use Rattle.depend_order.specs.Numbers.{AreBelow, numbers_of};

use std::alloc::{AllocError, Global};

/// For each place those that depend on it, each as often as it lists it.
pub fn dependents_of(alloc: Global, depends: &[Vec<u32>]) -> Result<Vec<Vec<u32>>, AllocError>
    requires few { length depends.now < 2 ^ 32 }
    requires below { AreBelow (length depends.now) depends.now }
    ensures { IfOk result (λ dependents. AreDependents depends.now dependents.items) }
{
    let mut dependents = no_places(alloc, depends.len())?;
    for (place, numbers) in depends.iter().enumerate() {
        add(place as u32, numbers, &mut dependents)?;
    }
    Ok(dependents)
}

// This many lists without a place.
fn no_places(alloc: Global, count: usize) -> Result<Vec<Vec<u32>>, AllocError>
    ensures count { IfOk result (λ lists. length lists.items ≡ count) }
    ensures none { IfOk result (λ lists. (q : ℕ) → numbers_of lists.items q ≡ []) }
{
    let mut lists = Vec::with_capacity(alloc, count)?;
    for _ in 0..count {
        lists.push(Vec::new(alloc))?;
    }
    Ok(lists)
}

// Adds the place to the lists of those that it depends on.
fn add(place: u32, numbers: &[u32], dependents: &mut Vec<Vec<u32>>) -> Result<(), AllocError>
    requires below { All (λ q. q < length dependents.old.items) numbers.now }
    ensures count { length dependents.new.items ≡ length dependents.old.items }
    ensures here { OnOk result ((q : ℕ) → times place (numbers_of dependents.new.items q) ≡ times place (numbers_of dependents.old.items q) + times q numbers.now) }
    ensures others { OnOk result ((q r : ℕ) → r ≢ place → times r (numbers_of dependents.new.items q) ≡ times r (numbers_of dependents.old.items q)) }
{
    for number in numbers {
        dependents[*number as usize].push(place)?;
    }
    Ok(())
}
