//! The printed lines of a run.
ghost use Rattle.std.specs.Prelude.{◌≡◌, ◌<◌, ◌≤◌, ◌-◌, ◌++◌, length, codes, All, OnOk, IfOk, string_bytes};
ghost use Rattle.std.specs.List.{flat_map};
ghost use Rattle.resource_kinds.specs.Trace.{place_of, succeeded_count};
ghost use Rattle.resource_kinds.specs.Names.{failure_name};
ghost use Rattle.dsc_node.specs.Lines.{test_words, set_words, id_at, line_of, overlap_line, resources_line, verdict, summary, run_lines};

use dsc_document::Document;
use mof_codec::push_literal;
use resource_kinds::{Entry, Failure, SetAnswer, TestAnswer};
use std::alloc::{AllocError, Global};

/// The lines of a run in which this number of resources succeeded; `overlaps` says whether some of them do.
pub fn lines_of(
    alloc: Global,
    document: &Document,
    calls: &[Entry],
    good: usize,
    overlaps: bool,
) -> Result<String, AllocError>
    requires known { All (λ e. place_of e < length document.now.resources) calls.now }
    requires good { good ≡ succeeded_count document.now calls.now }
    requires bound { good ≤ length document.now.resources }
    ensures { IfOk result (λ s. string_bytes s
        ≡ run_lines document.now calls.now ++ overlap_line overlaps) }
{
    let mut out = String::new(alloc);
    for entry in calls {
        push_line(&mut out, document, entry)?;
    }
    let total = document.resources.as_slice().len();
    push_summary(&mut out, total, good)?;
    push_overlap(&mut out, overlaps)?;
    Ok(out)
}

fn push_line(out: &mut String, document: &Document, entry: &Entry) -> Result<(), AllocError>
    requires { place_of entry.now < length document.now.resources }
    ensures { OnOk result (string_bytes out.new
        ≡ string_bytes out.old ++ line_of document.now entry.now) }
{
    match entry {
        Entry::Tested { place, answer } => {
            out.push_str("test ")?;
            push_literal(out, id(document, *place))?;
            push_test(out, answer)?;
        }
        Entry::Set { place, answer } => {
            out.push_str("set ")?;
            push_literal(out, id(document, *place))?;
            push_set(out, answer)?;
        }
    }
    out.push_str("\n")?;
    Ok(())
}

/// The id of the resource at that place.
pub fn id(document: &Document, place: u32) -> &[char]
    requires { place < length document.now.resources }
    ensures { result.now ≡ id_at document.now place }
{
    document.resources.as_slice()[place as usize].id.as_slice()
}

fn push_test(out: &mut String, answer: &TestAnswer) -> Result<(), AllocError>
    ensures { OnOk result (string_bytes out.new ≡ string_bytes out.old ++ test_words answer.now) }
{
    match answer {
        TestAnswer::Yes => out.push_str(" yes"),
        TestAnswer::No => out.push_str(" no"),
        TestAnswer::Fault(failure) => push_fault(out, failure),
        TestAnswer::Memory => Ok(()),
    }
}

fn push_set(out: &mut String, answer: &SetAnswer) -> Result<(), AllocError>
    ensures { OnOk result (string_bytes out.new ≡ string_bytes out.old ++ set_words answer.now) }
{
    match answer {
        SetAnswer::Done => out.push_str(" done"),
        SetAnswer::Reboot => out.push_str(" reboot"),
        SetAnswer::Fault(failure) => push_fault(out, failure),
        SetAnswer::Memory => Ok(()),
    }
}

fn push_fault(out: &mut String, failure: &Failure) -> Result<(), AllocError>
    ensures { OnOk result (string_bytes out.new
        ≡ string_bytes out.old ++ codes " fault " ++ failure_name failure.now) }
{
    out.push_str(" fault ")?;
    out.push_str(failure.name())?;
    Ok(())
}

fn push_overlap(out: &mut String, overlaps: bool) -> Result<(), AllocError>
    ensures { OnOk result (string_bytes out.new ≡ string_bytes out.old ++ overlap_line overlaps) }
{
    if overlaps {
        return out.push_str("overlapping\n");
    }
    Ok(())
}

fn push_summary(out: &mut String, total: usize, good: usize) -> Result<(), AllocError>
    requires { good ≤ total }
    ensures { OnOk result (string_bytes out.new
        ≡ string_bytes out.old ++ summary total good (total - good)) }
{
    push_resources(out, total, good)?;
    let missed = total - good;
    push_verdict(out, missed)
}

/// Appends how many resources there are, and how many succeeded.
pub fn push_resources(out: &mut String, total: usize, good: usize) -> Result<(), AllocError>
    ensures { OnOk result (string_bytes out.new
        ≡ string_bytes out.old ++ resources_line total good) }
{
    write!(out, "resources {total} succeeded {good}\n")
}

fn push_verdict(out: &mut String, missed: usize) -> Result<(), AllocError>
    ensures { OnOk result (string_bytes out.new ≡ string_bytes out.old ++ verdict missed) }
{
    if missed == 0 {
        return out.push_str("compliant\n");
    }
    write!(out, "not compliant {missed}\n")
}
