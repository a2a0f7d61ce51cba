//! How many dependencies each place waits for, and the places that wait for none.
ghost use Rattle.std.specs.Prelude.{◌≡◌, ◌+◌, ◌<◌, ◌≤◌, ◌^◌, ◌==◌, ℕ, [], All, IfOk, IfSome, IfNone, OnOk, if◌then◌else◌, length, map, slice_index, sum, vec_len};
ghost use Rattle.std.specs.BinaryHeap.{IsHeap, heap_items};
ghost use Rattle.std.specs.Ordering.{nat_cmp};
ghost use Rattle.depend_order.specs.Counts.{IsReadied, none_left, times, zeros};

use crate::Steps;
use std::alloc::{AllocError, Global};
use std::cmp::Reverse;
use std::collections::BinaryHeap;
use std::sync::ledger::Ledger;

/// How many dependencies each place has.
pub fn counts_of(alloc: Global, depends: &[Vec<u32>]) -> Result<Vec<usize>, AllocError>
    ensures { IfOk result (λ counts. counts.items ≡ map vec_len depends.now) }
{
    depends.iter().map(|numbers| numbers.len()).collect(alloc)
}

/// The places that wait for none.
pub fn first_ready<L: Ledger>(
    alloc: Global,
    waiting: &[usize],
    steps: &mut Steps<L>,
) -> Result<BinaryHeap<Reverse<u32>>, AllocError>
    requires few { length waiting.now < 2 ^ 32 }
    ensures ready { IfOk result (λ ready.
        IsReadied waiting.now [] (map (λ x. x.0) (heap_items ready))) }
    ensures heap { IfOk result (λ ready. IsHeap (λ x y. nat_cmp y.0 x.0) (heap_items ready)) }
    ensures steps { steps.new ≤ steps.old + zeros waiting.now }
{
    let mut ready = BinaryHeap::new(alloc);
    for (place, left) in waiting.iter().enumerate() {
        if *left == 0 {
            ready.push(Reverse(place as u32))?;
            steps.tick();
        }
    }
    Ok(ready)
}

/// Lowers the counts of the places that wait for a place that is put, and readies those that wait for none more.
pub fn release<L: Ledger>(
    dependents: &[u32],
    waiting: &mut [usize],
    ready: &mut BinaryHeap<Reverse<u32>>,
    steps: &mut Steps<L>,
) -> Result<(), AllocError>
    requires below { All (λ r. r < length waiting.old) dependents.now }
    requires enough { (r : ℕ) → times r dependents.now ≤ slice_index waiting.old r }
    requires heap { IsHeap (λ x y. nat_cmp y.0 x.0) (heap_items ready.old) }
    ensures len { length waiting.new ≡ length waiting.old }
    ensures lowered { OnOk result ((r : ℕ)
        → slice_index waiting.new r + times r dependents.now ≡ slice_index waiting.old r) }
    ensures ready { OnOk result ((r : ℕ)
        → times r (map (λ x. x.0) (heap_items ready.new)) + none_left (slice_index waiting.old r)
        ≡ times r (map (λ x. x.0) (heap_items ready.old)) + none_left (slice_index waiting.new r)) }
    ensures heap { OnOk result (IsHeap (λ x y. nat_cmp y.0 x.0) (heap_items ready.new)) }
    ensures steps { steps.new + sum waiting.new + zeros waiting.old
        ≤ steps.old + sum waiting.old + zeros waiting.new }
{
    for dependent in dependents {
        let left = waiting[*dependent as usize] - 1;
        waiting[*dependent as usize] = left;
        steps.tick();
        if left == 0 {
            ready.push(Reverse(*dependent))?;
            steps.tick();
        }
    }
    Ok(())
}

/// The least place that waits.
pub fn first_waiting(waiting: &[usize]) -> Option<u32>
    requires few { length waiting.now < 2 ^ 32 }
    ensures found { IfSome result (λ r. r < length waiting.now) }
    ensures waits { IfSome result (λ r. 0 < slice_index waiting.now r) }
    ensures least { IfSome result (λ r. (s : ℕ) → s < r → slice_index waiting.now s ≡ 0) }
    ensures none { IfNone result ((r : ℕ) → r < length waiting.now
        → slice_index waiting.now r ≡ 0) }
{
    for (place, left) in waiting.iter().enumerate() {
        if *left != 0 {
            return Some(place as u32);
        }
    }
    None
}
