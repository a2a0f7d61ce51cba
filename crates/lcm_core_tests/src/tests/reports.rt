//! What `report_log` reports of runs.
ghost use Rattle.std.specs.Prelude.{◌≤◌, length};
ghost use Rattle.dsc_document.specs.Dependencies.{HasDistinctIds, NamesResources};
ghost use Rattle.dsc_document.specs.Sizes.{DocumentInSize};
ghost use Rattle.depend_order.specs.Documents.{IsOrderOfDocument};
ghost use Rattle.report_log.specs.Sizes.{FrameInSize};

use super::Words;
use super::documents::document;
use super::script::Script;
use depend_order::order;
use dsc_document::Document;
use generated_document::generated_document;
use lcm_core::{RunEnd, RunMode, report_laws, run};
use mof_values::Items;
use report_log::{Frame, Report, is_in_size, report_of, room_for};
use resource_kinds::Resources;
use std::alloc::Global;
use std::test::Fail;

/// A mode, a document, the answers of Tests and of Sets, and what is reported.
type ReportRow = (RunMode, &'static str, Words, Words, &'static str);

const REPORTS: &[ReportRow] = &[
    (RunMode::Monitor, "[L]A", &[], &[], "Success 0 of 1"),
    (
        RunMode::Repair,
        "[L]A",
        &["no", "yes"],
        &[],
        "Success 0 of 1",
    ),
    (
        RunMode::Repair,
        "[L]A [L]B; [L]B",
        &["no", "no"],
        &[],
        "Failure 2 of 2 [L]A Skipped [L]B NotInDesiredState",
    ),
    (
        RunMode::Monitor,
        "[L]A; [L]B; [L]C",
        &["NoSuchResource", "OutOfProfile", "BadPath"],
        &[],
        "Failure 3 of 3 [L]A Failed(NoSuchResource) [L]B Failed(OutOfProfile) [L]C Failed(BadPath)",
    ),
    (
        RunMode::Repair,
        "[L]A; [L]B; [L]C",
        &["yes", "no", "no"],
        &["InTheWay", "HostFailed"],
        "Failure 2 of 3 [L]B Failed(InTheWay) [L]C Failed(HostFailed)",
    ),
    (
        RunMode::Repair,
        "[L]A [L]B; [L]B [L]D; [L]C [L]B; [L]D",
        &["yes", "no"],
        &["reboot"],
        "Reboot 3 of 4 [L]A NotReached [L]B RebootAsked [L]C NotReached",
    ),
];

// The frame of a first run.
fn frame(alloc: Global) -> Frame
    ensures { FrameInSize result }
{
    Frame {
        job: 1,
        initial: true,
        pull: false,
        start: 0,
        end: 1,
        parts: Items::of(Vec::new(alloc)),
    }
}

// The report of the run of a row, or none where the run ends out of memory.
fn reported(
    alloc: Global,
    document: &Document,
    order: &[u32],
    row: &ReportRow,
) -> Result<Option<Report>, Fail>
    requires few { length document.now.resources ≤ 5 }
    requires known { NamesResources document.now }
    requires distinct { HasDistinctIds document.now }
    requires size { DocumentInSize document.now }
    requires order { IsOrderOfDocument document.now order.now }
{
    let room = room_for(alloc, document)?;
    let mut script = Script::new(alloc, row.2, row.3);
    // three entries for each of five resources
    script.reserve(15)?;
    let end = run(alloc, document, order, row.0, &mut script);
    if end == RunEnd::Memory {
        return Ok(None);
    }
    report_laws();
    Ok(Some(report_of(room, document, script.calls(), frame(alloc))))
}

// What the run came to, how many were missed, and what is listed.
fn shown(rt: &impl AllocGlobal, report: &Report) -> Result<String, Fail> {
    let mut made = format!(in rt.alloc();
        "{:?} {} of {}",
        report.outcome, report.missed, report.total
    )?;
    for missed in report.listed.as_slice() {
        made.push(' ')?;
        made.extend(missed.id.as_slice().iter().copied())?;
        write!(made, " {:?}", missed.reason)?;
    }
    Ok(made)
}

fn check_report(rt: &impl AllocGlobal, report: Option<Report>, wanted: &str) -> Result<(), Fail> {
    match report {
        Some(report) if is_in_size(&report) && shown(rt, &report)?.as_str() == wanted => Ok(()),
        _ => Err(wanted.into()),
    }
}

fn check_row(rt: &impl AllocGlobal, row: &ReportRow) -> Result<(), Fail> {
    let document = document(rt, row.1)?;
    let order = order(rt.alloc(), &document)?;
    check_report(rt, reported(rt.alloc(), &document, &order, row)?, row.4)
}

#[test]
fn a_report_tells_why_resources_did_not_succeed(rt: HostRuntime) -> Result<(), Fail> {
    for row in REPORTS {
        check_row(&rt, row)?;
    }
    Ok(())
}

#[test]
fn with_ample_memory_a_document_of_each_size_has_capacity(rt: HostRuntime) -> Result<(), Fail> {
    for count in [0, 1, 2, 7, 63, 64, 65, 4096] {
        let document = generated_document(rt.alloc(), count)?;
        assert!(rt; room_for(rt.alloc(), &document).is_ok(), "{count}");
    }
    Ok(())
}
