//! The turn of one resource in a repair: its Test, its Set where that answers no, and its second Test.
ghost use Rattle.std.specs.Prelude.{◌≡◌, ◌<◌, ◌≤◌, ◌+◌, length};
ghost use Rattle.resource_kinds.specs.declared.entry.Entry.TheVariants.{Set, Tested};
ghost use Rattle.lcm_core.specs.Turn.{Shows, TookTurn, TookRest};

use dsc_document::Document;
use resource_kinds::{Resources, SetAnswer, TestAnswer};

/// Why a run stops before its last resource.
#[derive(Clone, Copy, Debug, PartialEq, Eq)]
pub enum Stop {
    /// The machine wants a reboot for the resource at this place.
    RebootAsked(u32),
    Memory,
}

/// Takes the turn of the resource at that place, and returns whether it succeeded.
pub fn take_turn<R: Resources>(
    document: &Document,
    place: u32,
    resources: &mut R,
) -> Result<bool, Stop>
    requires place { place < length document.now.resources }
    requires capacity { 3 ≤ R.spare resources.old }
    ensures turn { TookTurn R.trace R.spare R.does R.still R.faults document.now place resources.old
        resources.new result }
    ensures capacity { R.spare resources.old ≤ R.spare resources.new + 3 }
{
    match resources.test(document, place) {
        TestAnswer::No => set_and_test(document, place, resources),
        answer => shown_by_test(answer, place),
    }
}

// Sets the resource, whose Test answered no, and tests it again where that is done.
fn set_and_test<R: Resources>(
    document: &Document,
    place: u32,
    resources: &mut R,
) -> Result<bool, Stop>
    requires place { place < length document.now.resources }
    requires capacity { 2 ≤ R.spare resources.old }
    ensures rest { TookRest R.trace R.spare R.does R.still R.faults document.now place resources.old
        resources.new result }
    ensures capacity { R.spare resources.old ≤ R.spare resources.new + 2 }
{
    match resources.set(document, place) {
        SetAnswer::Done => shown_by_test(resources.test(document, place), place),
        answer => shown_by_set(answer, place),
    }
}

// What a Test shows.
fn shown_by_test(answer: TestAnswer, place: u32) -> Result<bool, Stop>
    ensures { Shows (Tested place answer) result place }
{
    match answer {
        TestAnswer::Yes => Ok(true),
        TestAnswer::No | TestAnswer::Fault(_) => Ok(false),
        TestAnswer::Memory => Err(Stop::Memory),
    }
}

// What a Set shows after which the resource is not tested again.
fn shown_by_set(answer: SetAnswer, place: u32) -> Result<bool, Stop>
    ensures { Shows (Set place answer) result place }
{
    match answer {
        SetAnswer::Done | SetAnswer::Fault(_) => Ok(false),
        SetAnswer::Reboot => Err(Stop::RebootAsked(place)),
        SetAnswer::Memory => Err(Stop::Memory),
    }
}
