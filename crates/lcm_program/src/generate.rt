//! The command `generate`: the repair of a document that is made of a number, on an empty machine in memory.
ghost use Rattle.std.specs.Prelude.{◌≡◌, ◌<◌, ◌≤◌, ◌-◌, ◌++◌, All, IfOk, OnOk, count_by, length, string_bytes};
ghost use Rattle.dsc_document.specs.declared.limits.TheConstants.{MAX_RESOURCES};
ghost use Rattle.resource_kinds.specs.Trace.{place_of};
ghost use Rattle.lcm_core.specs.RunLaws.{EndsAtYes};
ghost use Rattle.lcm_program.specs.Generate.{IsGeneratedText, calls_line, ends_line, generated_lines, is_set, is_test};

use dsc_document::Document;
use dsc_node::{id, ordered_of_merged, push_resources, run_kinds};
use generated_document::generated_document;
use lcm_core::{RunEnd, RunMode, count_succeeded, repair_laws};
use memory_outside::{HostContents, ReliableHost};
use mof_codec::push_literal;
use mof_values::Memory;
use resource_kinds::{Entry, Kinds, Resources};
use std::alloc::{AllocError, Global};

/// Makes the document of this number of resources, 1 to 4,096, repairs an empty machine in memory by it, and gives the lines that
/// print that.
pub fn repair_generated(alloc: Global, count: u32) -> Result<String, Memory>
    requires some { 0 < count }
    requires few { count ≤ MAX_RESOURCES }
    ensures { IfOk result (λ text. IsGeneratedText count (string_bytes text)) }
{
    let ordered = ordered_of_merged(alloc, generated_document(alloc, count)?)?;
    let mut kinds = Kinds::new(alloc, ReliableHost::of(HostContents::empty(alloc)));
    match run_kinds(alloc, &ordered, RunMode::Repair, &mut kinds) {
        RunEnd::Finished | RunEnd::RebootAsked(_) => {
            repair_laws();
            let order = ordered.order.as_slice();
            Ok(lines(alloc, count, &ordered.document, order, kinds.calls())?)
        }
        RunEnd::Memory => Err(Memory),
    }
}

// The lines of such a repair.
fn lines(
    alloc: Global,
    count: u32,
    document: &Document,
    order: &[u32],
    calls: &[Entry],
) -> Result<String, AllocError>
    requires some { 0 < length order.now }
    requires order { All (λ r. r < length document.now.resources) order.now }
    requires known { All (λ e. place_of e < length document.now.resources) calls.now }
    requires ends { EndsAtYes calls.now }
    ensures { IfOk result (λ text. string_bytes text
        ≡ generated_lines count document.now order.now calls.now) }
{
    let total = document.resources.as_slice().len();
    let good = count_succeeded(calls);
    let mut text = String::new(alloc);
    write!(text, "generated {count}\n")?;
    push_resources(&mut text, total, good)?;
    push_calls(&mut text, calls)?;
    push_ends(&mut text, document, order)?;
    Ok(text)
}

fn push_calls(text: &mut String, calls: &[Entry]) -> Result<(), AllocError>
    ensures { OnOk result (string_bytes text.new ≡ string_bytes text.old ++ calls_line calls.now) }
{
    let tests = count_tests(calls);
    let sets = count_sets(calls);
    write!(text, "tests {tests} sets {sets}\n")
}

fn count_tests(calls: &[Entry]) -> usize
    ensures { result ≡ count_by is_test calls.now }
{
    calls.iter().filter(|entry| is_test(entry)).count()
}

fn count_sets(calls: &[Entry]) -> usize
    ensures { result ≡ count_by is_set calls.now }
{
    calls.iter().filter(|entry| is_set(entry)).count()
}

fn is_test(entry: &Entry) -> bool
    ensures { result ≡ is_test entry.now }
{
    matches!(entry, Entry::Tested { .. })
}

fn is_set(entry: &Entry) -> bool
    ensures { result ≡ is_set entry.now }
{
    matches!(entry, Entry::Set { .. })
}

fn push_ends(text: &mut String, document: &Document, order: &[u32]) -> Result<(), AllocError>
    requires some { 0 < length order.now }
    requires order { All (λ r. r < length document.now.resources) order.now }
    ensures { OnOk result (string_bytes text.new
        ≡ string_bytes text.old ++ ends_line document.now order.now) }
{
    text.push_str("first ")?;
    push_literal(text, id(document, order[0]))?;
    text.push_str(" last ")?;
    push_literal(text, id(document, order[order.len() - 1]))?;
    text.push_str("\n")
}
