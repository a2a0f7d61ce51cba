//! Orders and closed walks worked by hand, and that ample memory gives an answer at every size.
ghost use Rattle.std.specs.Prelude.{◌<◌, ◌↔◌, All, IsTrue, length};
ghost use Rattle.depend_order.specs.Numbers.{AreBelow};

use depend_order::*;
use std::test::Fail;

// What each place depends on, whether there is an order, and that order or the closed walk.
const ROWS: &[(&[&[u32]], bool, &[u32])] = &[
    (&[], true, &[]),
    (&[&[]], true, &[0]),
    (&[&[], &[], &[]], true, &[0, 1, 2]),
    (&[&[2], &[], &[]], true, &[1, 2, 0]),
    (&[&[1], &[2], &[]], true, &[2, 1, 0]),
    (&[&[], &[2], &[]], true, &[0, 2, 1]),
    (&[&[1, 1, 1], &[]], true, &[1, 0]),
    (&[&[3], &[], &[1], &[]], true, &[1, 2, 3, 0]),
    (&[&[0]], false, &[0]),
    (&[&[1], &[0]], false, &[0, 1]),
    (&[&[], &[2], &[1]], false, &[1, 2]),
    (&[&[2], &[], &[3], &[2]], false, &[2, 3]),
    (&[&[1], &[0], &[3], &[2]], false, &[0, 1]),
    (&[&[1, 2], &[], &[0]], false, &[0, 2]),
    (&[&[3], &[3], &[3], &[2, 1]], false, &[3, 2]),
    (&[&[1, 0], &[0]], false, &[0, 1]),
];

fn lists(rt: &impl AllocGlobal, rows: &[&[u32]]) -> Result<Vec<Vec<u32>>, Fail> {
    let mut depends = Vec::new(rt.alloc());
    for row in rows {
        depends.push(row.to_vec(rt.alloc())?)?;
    }
    Ok(depends)
}

// Each place depends on the next, and the last on none, or on the first.
fn chain(rt: &impl AllocGlobal, count: u32, closed: bool) -> Result<Vec<Vec<u32>>, Fail> {
    let mut depends = Vec::new(rt.alloc());
    for next in 1..count {
        depends.push(vec![in rt.alloc(); next]?)?;
    }
    if count > 0 {
        let mut last = Vec::new(rt.alloc());
        if closed {
            last.push(0)?;
        }
        depends.push(last)?;
    }
    Ok(depends)
}

fn are_below(depends: &[Vec<u32>]) -> bool
    ensures { IsTrue result ↔ AreBelow (length depends.now) depends.now }
{
    let count = depends.len();
    depends.iter().all(|numbers| all_below(numbers, count))
}

fn all_below(numbers: &[u32], count: usize) -> bool
    ensures { IsTrue result ↔ All (λ q. q < count) numbers.now }
{
    numbers.iter().all(|q| (*q as usize) < count)
}

fn answer(
    rt: &impl AllocGlobal,
    depends: &[Vec<u32>],
) -> Result<Result<Vec<u32>, OrderError>, Fail> {
    if depends.len() > 5000 || !are_below(depends) {
        return Err(Fail::new("a number of the row is no place"));
    }
    Ok(order_of(rt.alloc(), depends))
}

fn is_answer(found: &Result<Vec<u32>, OrderError>, ordered: bool, wanted: &[u32]) -> bool {
    match found {
        Ok(order) => ordered && order.as_slice() == wanted,
        Err(OrderError::Cycle(walk)) => !ordered && walk.as_slice() == wanted,
        Err(OrderError::Memory) => false,
    }
}

#[test]
fn places_have_an_order_or_a_closed_walk(rt: HostRuntime) -> Result<(), Fail> {
    for (numbers, ordered, wanted) in ROWS {
        let depends = lists(&rt, numbers)?;
        let found = answer(&rt, &depends)?;
        assert!(rt;
            is_answer(&found, *ordered, wanted),
            "{numbers:?}: {found:?}"
        );
    }
    Ok(())
}

#[test]
fn every_size_has_an_answer(rt: HostRuntime) -> Result<(), Fail> {
    for count in [0, 1, 2, 7, 63, 64, 65, 4096] {
        for closed in [false, true] {
            let depends = chain(&rt, count, closed)?;
            let mut wanted: Vec<u32> = (0..count).collect(rt.alloc())?;
            if !closed {
                wanted.reverse();
            }
            let found = answer(&rt, &depends)?;
            assert!(rt;
                is_answer(&found, !closed || count == 0, &wanted),
                "{count} {closed}"
            );
        }
    }
    Ok(())
}
