//! The closed walk that shows why there is no order.
ghost use Rattle.std.specs.Prelude.{◌≡◌, ◌<◌, ◌++◌, ◌∷◌, ℕ, List, All, Contains, IfNone, IfOk, IfSome, Some, length, slice_get, slice_index};
ghost use Rattle.depend_order.specs.Counts.{IsStuck};
ghost use Rattle.depend_order.specs.Cycle.{IsCycle, IsLeastLeft};
ghost use Rattle.depend_order.specs.Numbers.{AreBelow, Lists};

use mof_values::Items;
use std::alloc::{AllocError, Global};

/// The places from the first visit of a place up to the last before the walk comes to it again.
///
/// The walk begins at the least place that is left, and goes on from each place to its first dependency that is
/// left. Those that are left are those that wait.
pub fn closed_walk(
    alloc: Global,
    depends: &[Vec<u32>],
    waiting: &[usize],
    start: u32,
) -> Result<Items<u32>, AllocError>
    requires below { AreBelow (length depends.now) depends.now }
    requires start { IsLeastLeft (length depends.now) (Lists depends.now) start }
    requires stuck { IsStuck depends.now waiting.now }
    ensures { IfOk result (IsCycle (length depends.now) (Lists depends.now)) }
{
    let mut visited = vec![in alloc; false; depends.len()]?;
    let mut walk = Vec::new(alloc);
    let mut place = start;
    while !visited[place as usize] {
        visited[place as usize] = true;
        walk.push(place)?;
        match first_waiting(&depends[place as usize], waiting) {
            Some(next) => place = next,
            None => unreachable!(),
        }
    }
    let cycle = from_first(&walk, place).to_vec(alloc)?;
    Ok(Items::of(cycle))
}

// The first of the numbers that waits.
fn first_waiting(numbers: &[u32], waiting: &[usize]) -> Option<u32>
    requires below { All (λ q. q < length waiting.now) numbers.now }
    ensures found { IfSome result (λ s. (k : ℕ) × (slice_get numbers.now k ≡ Some s) × (0 < slice_index waiting.now s)
        × ((j q : ℕ) → j < k → slice_get numbers.now j ≡ Some q → slice_index waiting.now q ≡ 0)) }
    ensures none { IfNone result ((k q : ℕ) → slice_get numbers.now k ≡ Some q → slice_index waiting.now q ≡ 0) }
{
    for number in numbers {
        if waiting[*number as usize] != 0 {
            return Some(*number);
        }
    }
    None
}

// The walk from the first visit of the place on.
fn from_first(walk: &[u32], place: u32) -> &[u32]
    requires { Contains walk.now place }
    ensures { (lead : List ℕ) × (rest : List ℕ)
        × (walk.now ≡ lead ++ place ∷ rest) × (result.now ≡ place ∷ rest) }
{
    let mut rest = walk;
    while let [visited, after @ ..] = rest {
        if *visited == place {
            return rest;
        }
        rest = after;
    }
    rest
}
