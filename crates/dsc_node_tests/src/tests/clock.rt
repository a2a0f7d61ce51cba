//! Starts whose clock fails or is set back.
use crate::{Left, Trouble, started};
use memory_outside::HostContents;
use mof_values::Memory;
use std::alloc::Global;
use std::test::Fail;

const HEADER: &str = "instance of OMI_ConfigurationDocument{Version=\"2.0.0\";};";

// The number of a push to a new node whose clock fails at these calls, or is set back.
fn number_of(alloc: Global, clock: &[u64], is_set_back: bool) -> Result<u8, Memory> {
    let left = Left {
        store: Vec::new(alloc),
        host: HostContents::empty(alloc),
    };
    let (_, left) = started(alloc, left, "init", "", &Trouble::none())?;
    let trouble = Trouble {
        disk: &[],
        host: &[],
        link: &[],
        clock,
        is_set_back,
    };
    let (outcome, _) = started(alloc, left, "push", HEADER, &trouble)?;
    Ok(outcome.status.number())
}

#[test]
fn the_first_reading_counts(rt: HostRuntime) -> Result<(), Fail> {
    for (failing, is_set_back, number) in [(&[0][..], false, 4), (&[1], false, 0), (&[], true, 0)] {
        assert!(rt; number_of(rt.alloc(), failing, is_set_back)? == number);
    }
    Ok(())
}
