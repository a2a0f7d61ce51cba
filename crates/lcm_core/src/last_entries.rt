//! Which resources succeeded in a run.
ghost use Rattle.std.specs.Prelude.{◌≡◌, ◌<◌, ◌≤◌, All, count_by, ℕ};
ghost use Rattle.dsc_terms.specs.Lists.{places_below};
ghost use Rattle.resource_kinds.specs.Trace.{entry_is_yes, has_succeeded, place_of};
ghost use Rattle.lcm_core.specs.RunLaws.{EndsAtYes};

use resource_kinds::Entry;

/// Returns whether the last entry of the resource at that place is a Test that answered yes; takes no memory.
pub fn succeeded(calls: &[Entry], place: u32) -> bool
    ensures { result ≡ has_succeeded calls.now place }
{
    let mut yes = false;
    for entry in calls {
        if entry.place() == place {
            yes = entry.is_yes();
        }
    }
    yes
}

/// How many resources succeeded; takes no memory, and one pass over the entries.
///
/// It counts the yeses: in the trace of a run no entry of a resource stands after a Test of it that answered yes, as
/// `trace_laws` says.
pub fn count_succeeded(calls: &[Entry]) -> usize
    requires { EndsAtYes calls.now }
    ensures value { (count : ℕ) → All (λ e. place_of e < count) calls.now
        → result ≡ count_by (has_succeeded calls.now) (places_below count) }
    ensures bound { (count : ℕ) → All (λ e. place_of e < count) calls.now → result ≤ count }
{
    count_yes(calls)
}

fn count_yes(calls: &[Entry]) -> usize
    ensures { result ≡ count_by entry_is_yes calls.now }
{
    calls.iter().filter(|entry| entry.is_yes()).count()
}
