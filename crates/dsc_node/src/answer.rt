//! How a start ends, and what it prints.
ghost use Rattle.std.specs.Prelude.{◌≡◌, ◌<◌, ◌++◌, [], All, Err, IfOk, IsErr, List, ℕ, length, string_bytes};
ghost use Rattle.resource_kinds.specs.Trace.{place_of};
ghost use Rattle.lcm_core.specs.RunLaws.{EndsAtYes};
ghost use Rattle.dsc_node.specs.Lines.{overlap_line, run_lines};
ghost use Rattle.dsc_node.specs.Runs.{end_line, status_after};
ghost use Rattle.dsc_node.specs.Endings.{Answers, Ends, status_of, status_of_input, status_of_staging};
ghost use Rattle.dsc_node.specs.Sending.{EndsAfterSending};
ghost use Rattle.dsc_node.specs.Shown.{printed_text};

use crate::lines::lines_of;
use crate::plan::Printed;
use crate::showing::{node_text, reports_text};
use crate::status::{InputError, Status};
use dsc_document::Document;
use lcm_core::{RunEnd, count_succeeded};
use node_state::{Node, StageError};
use node_store::StoreError;
use partial_merge::MergeError;
use resource_kinds::Entry;
use std::alloc::{AllocError, Global};

/// How a start ended, and what it prints beside the line of a refusal.
#[derive(Drop)]
pub struct StartEnd {
    pub status: Status,

    /// Lines that end with LF.
    pub lines: String,
}

impl StartEnd {
    /// An end that prints nothing; takes no memory.
    pub(crate) fn silent(alloc: Global, status: Status) -> StartEnd
        ensures status { result.status ≡ status }
        ensures lines { string_bytes result.lines ≡ [] }
    {
        StartEnd {
            status,
            lines: String::new(alloc),
        }
    }

    /// An end that prints the text that was made, and for which memory may have been refused.
    pub(crate) fn showing(alloc: Global, text: Result<String, AllocError>) -> StartEnd
        ensures shown { IfOk text (λ lines. Answers Status.Done (string_bytes lines) result.status
            (string_bytes result.lines)) }
        ensures memory { IsErr text → Ends Status.Memory [] result.status
            (string_bytes result.lines) }
    {
        match text {
            Ok(lines) => StartEnd {
                status: Status::Done,
                lines,
            },
            Err(AllocError) => StartEnd::silent(alloc, Status::Memory),
        }
    }

    /// An end that prints these texts, one after the other.
    pub(crate) fn joining(alloc: Global, status: Status, first: &str, second: &str) -> StartEnd
        ensures { Answers status (first.now ++ second.now) result.status
            (string_bytes result.lines) }
    {
        match joined(alloc, first, second) {
            Ok(lines) => StartEnd { status, lines },
            Err(AllocError) => StartEnd::silent(alloc, Status::Memory),
        }
    }

    /// An end that prints this text.
    pub(crate) fn printing(alloc: Global, status: Status, text: &str) -> StartEnd
        ensures { Answers status text.now result.status (string_bytes result.lines) }
    {
        match String::from_str(alloc, text) {
            Ok(lines) => StartEnd { status, lines },
            Err(AllocError) => StartEnd::silent(alloc, Status::Memory),
        }
    }
}

fn joined(alloc: Global, first: &str, second: &str) -> Result<String, AllocError>
    ensures { IfOk result (λ text. string_bytes text ≡ first.now ++ second.now) }
{
    let mut text = String::from_str(alloc, first)?;
    text.push_str(second)?;
    Ok(text)
}

/// The end of a start that runs nothing: this text of the node.
pub(crate) fn without_run(alloc: Global, text: Printed, node: &Node) -> StartEnd
    ensures { Answers Status.Done (printed_text text node.now) result.status
        (string_bytes result.lines) }
{
    match text {
        Printed::Done => StartEnd::printing(alloc, Status::Done, "ok\n"),
        Printed::Node => StartEnd::showing(alloc, node_text(alloc, node)),
        Printed::Reports => StartEnd::showing(alloc, reports_text(alloc, node)),
    }
}

/// The end of a start that ran: the run's lines, and these texts after them.
pub(crate) fn after_run(
    alloc: Global,
    document: &Document,
    calls: &[Entry],
    overlap: bool,
    last: &str,
    tried: &str,
    status: Status,
) -> StartEnd
    requires known { All (λ e. place_of e < length document.now.resources) calls.now }
    requires ends { EndsAtYes calls.now }
    ensures { Answers status ((run_lines document.now calls.now ++ overlap_line overlap) ++ last.now
        ++ tried.now) result.status (string_bytes result.lines) }
{
    match run_text(alloc, document, calls, overlap, last, tried) {
        Ok(lines) => StartEnd { status, lines },
        Err(AllocError) => StartEnd::silent(alloc, Status::Memory),
    }
}

/// The end of a start that ran, and whose report was kept, but in which a commit after that was refused.
pub(crate) fn refused_after_run(
    alloc: Global,
    document: &Document,
    calls: &[Entry],
    overlap: bool,
    error: StoreError,
) -> StartEnd
    requires known { All (λ e. place_of e < length document.now.resources) calls.now }
    requires ends { EndsAtYes calls.now }
    ensures { (wanted : Status) (end : List ℕ) → EndsAfterSending wanted
        (run_lines document.now calls.now ++ overlap_line overlap) end (Err error) result.status
        (string_bytes result.lines) }
{
    match error {
        StoreError::Memory => StartEnd::silent(alloc, Status::Memory),
        refusal => after_run(alloc, document, calls, overlap, "", "", status_of(refusal)),
    }
}

fn run_text(
    alloc: Global,
    document: &Document,
    calls: &[Entry],
    overlap: bool,
    last: &str,
    tried: &str,
) -> Result<String, AllocError>
    requires known { All (λ e. place_of e < length document.now.resources) calls.now }
    requires ends { EndsAtYes calls.now }
    ensures { IfOk result (λ lines. string_bytes lines
        ≡ (run_lines document.now calls.now ++ overlap_line overlap) ++ last.now ++ tried.now) }
{
    let good = count_succeeded(calls);
    let mut lines = lines_of(alloc, document, calls, good, overlap)?;
    lines.push_str(last)?;
    lines.push_str(tried)?;
    Ok(lines)
}

/// The status after a run in which this number of resources did not succeed.
pub(crate) fn status_after(now: bool, end: RunEnd, missed: u32) -> Status
    ensures { result ≡ status_after now end missed }
{
    match end {
        RunEnd::RebootAsked(index) => Status::RebootAsked { index, now },
        RunEnd::Finished => {
            if missed == 0 {
                Status::Done
            } else {
                Status::NotCompliant { count: missed }
            }
        }
        RunEnd::Memory => Status::Memory,
    }
}

/// The last line of a run whose report is kept.
pub(crate) fn end_line(end: RunEnd, pending: bool, missed: u32) -> &'static str
    ensures { result.now ≡ end_line end pending missed }
{
    match end {
        RunEnd::RebootAsked(_) => "end reboot\n",
        RunEnd::Finished => {
            if pending && missed == 0 {
                "end promoted\n"
            } else {
                "end noted\n"
            }
        }
        RunEnd::Memory => "",
    }
}

/// The status of a start whose store was not opened, or whose event was not committed.
pub(crate) fn status_of(error: StoreError) -> Status
    ensures { result ≡ status_of error }
{
    match error {
        StoreError::Spent | StoreError::Disk => Status::DiskFault,
        StoreError::NotAStore { at } => Status::NotAStore { at },
        StoreError::NotAllowed(why) => Status::NotAllowed(why),
        StoreError::Memory => Status::Memory,
    }
}

/// The status of a start whose document was refused.
pub(crate) fn status_of_input(error: MergeError) -> Status
    ensures { result ≡ status_of_input error }
{
    match error {
        MergeError::Memory => Status::Memory,
        refusal => Status::InputRefused(InputError::Merge(refusal)),
    }
}

/// The status of a start whose list of parts was refused.
pub(crate) fn status_of_staging(error: StageError) -> Status
    ensures { result ≡ status_of_staging error }
{
    match error {
        StageError::Merge(error) => status_of_input(error),
        StageError::Fit(error) => Status::InputRefused(InputError::Fit(error)),
        StageError::TooLong { bytes } => Status::InputRefused(InputError::ListTooLong { bytes }),
        StageError::Memory => Status::Memory,
    }
}
