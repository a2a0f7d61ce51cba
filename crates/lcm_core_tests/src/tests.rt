mod documents;
mod reports;
mod script;

use crate::tests::documents::{document, letter};
use crate::tests::script::{Script, said};
use depend_order::order;
use dsc_document::Document;
use lcm_core::*;
use resource_kinds::{Entry, Resources};
use std::test::Fail;

type Words = &'static [&'static str];

/// A mode, a document, the answers of Tests and of Sets, and what the run comes to.
type RunRow = (RunMode, &'static str, Words, Words, &'static str);

/// B depends on A, C on B, and E on D; their order is by letters.
const TREE: &str = "[L]E [L]D; [L]C [L]B; [L]A; [L]B [L]A; [L]D";

// the entries, each as a resource's letter, `?` or `!`, and the answer; then how the run ended
fn shown(
    rt: &impl AllocGlobal,
    document: &Document,
    calls: &[Entry],
    end: RunEnd,
) -> Result<String, Fail> {
    let mut made = String::new(rt.alloc());
    for entry in calls {
        let (mark, answer) = said(entry);
        made.push(letter(document, entry.place()))?;
        made.push(mark)?;
        made.push_str(answer)?;
        made.push(' ')?;
    }
    let (word, place) = match end {
        RunEnd::Finished => ("finished", None),
        RunEnd::RebootAsked(place) => ("reboot ", Some(place)),
        RunEnd::Memory => ("memory", None),
    };
    made.push_str(word)?;
    if let Some(place) = place {
        made.push(letter(document, place))?;
    }
    Ok(made)
}

const RUNS: &[RunRow] = &[
    (
        RunMode::Monitor,
        TREE,
        &["no", "no", "yes", "no", "no"],
        &[],
        "A?no B?no C?yes D?no E?no finished",
    ),
    (
        RunMode::Monitor,
        TREE,
        &[
            "NoSuchResource",
            "OutOfProfile",
            "BadPath",
            "InTheWay",
            "HostFailed",
        ],
        &[],
        "A?NoSuchResource B?OutOfProfile C?BadPath D?InTheWay E?HostFailed finished",
    ),
    (
        RunMode::Monitor,
        TREE,
        &["no", "HostFailed", "memory"],
        &[],
        "A?no B?HostFailed C?memory memory",
    ),
    (
        RunMode::Repair,
        TREE,
        &[
            "no", "yes", "no", "yes", "no", "yes", "no", "yes", "no", "yes",
        ],
        &[],
        "A?no A!done A?yes B?no B!done B?yes C?no C!done C?yes D?no D!done D?yes E?no E!done E?yes finished",
    ),
    // it does not hold after its Set
    (
        RunMode::Repair,
        TREE,
        &["yes", "no", "no", "no", "HostFailed"],
        &[],
        "A?yes B?no B!done B?no D?no D!done D?HostFailed finished",
    ),
    // a fault ends no run, and what depends on it is skipped
    (
        RunMode::Repair,
        TREE,
        &["InTheWay", "HostFailed"],
        &[],
        "A?InTheWay D?HostFailed finished",
    ),
    (
        RunMode::Repair,
        TREE,
        &["no", "yes", "no", "no"],
        &["done", "HostFailed"],
        "A?no A!done A?yes B?no B!HostFailed D?no D!done D?yes E?yes finished",
    ),
    (
        RunMode::Repair,
        "[L]A; [L]B; [L]C [L]A [L]B; [L]D [L]A",
        &["yes", "HostFailed"],
        &[],
        "A?yes B?HostFailed D?yes finished",
    ),
    (
        RunMode::Repair,
        TREE,
        &["HostFailed", "yes", "no"],
        &["reboot"],
        "A?HostFailed D?yes E?no E!reboot reboot E",
    ),
    (
        RunMode::Repair,
        TREE,
        &["yes", "no"],
        &["memory"],
        "A?yes B?no B!memory memory",
    ),
    (
        RunMode::Repair,
        TREE,
        &["no", "memory"],
        &[],
        "A?no A!done A?memory memory",
    ),
];

fn check_run(rt: &impl AllocGlobal, row: &RunRow) -> Result<(), Fail> {
    let (mode, declarations, tests, sets, wanted) = *row;
    let document = document(rt, declarations)?;
    let order = order(rt.alloc(), &document)?;
    let mut script = Script::new(rt.alloc(), tests, sets);
    // three entries for each of five resources
    script.reserve(15)?;
    let end = run(rt.alloc(), &document, &order, mode, &mut script);
    if shown(rt, &document, script.calls(), end)?.as_str() != wanted {
        return Err(wanted.into());
    }
    Ok(())
}

#[test]
fn runs_test_and_set_in_turn(rt: HostRuntime) -> Result<(), Fail> {
    for row in RUNS {
        check_run(&rt, row)?;
    }
    Ok(())
}
