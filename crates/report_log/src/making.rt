//! Makes the report of a run from its trace.
ghost use Rattle.std.specs.Prelude.{◌≡◌, ◌<◌, ◌≤◌, ◌↔◌, ◌++◌, ◌∷◌, [], All, IsTrue, length, take, vec_capacity};
ghost use Rattle.resource_kinds.specs.Trace.{EndsInReboot, WantsMemory, place_of};
ghost use Rattle.report_log.specs.declared.marks.Mark.TheVariants.{Unsettled};
ghost use Rattle.report_log.specs.Marks.{listed_of, outcome_of, reason_of};
ghost use Rattle.report_log.specs.Report.{HasNoUntestedSet, IsReport};
ghost use Rattle.report_log.specs.declared.limits.TheConstants.{LISTED_LIMIT};
ghost use Rattle.report_log.specs.Room.{IsRoomFor};
ghost use Rattle.dsc_document.specs.Sizes.{DocumentInSize};
ghost use Rattle.report_log.specs.Sizes.{FrameInSize, ReportInSize};

use crate::limits::LISTED_LIMIT;
use crate::marks::{Mark, count_missed, marked};
use crate::report::{Frame, Missed, Outcome, Reason, Report};
use crate::room::ReportRoom;
use dsc_document::Document;
use mof_values::{Items, Text};
use resource_kinds::{Entry, SetAnswer};

/// The report of a run over this document that left these entries; takes no memory, and time linear in the entries and the
/// resources.
pub fn report_of(room: ReportRoom, document: &Document, calls: &[Entry], frame: Frame) -> Report
    requires room { IsRoomFor document.now room }
    requires document { DocumentInSize document.now }
    requires known { All (λ e. place_of e < length document.now.resources) calls.now }
    requires memory { All (λ e. WantsMemory e → ⊥) calls.now }
    requires settled { HasNoUntestedSet document.now calls.now }
    requires frame { FrameInSize frame }

    ensures report { IsReport document.now calls.now frame result }
    ensures in_size { ReportInSize result }
{
    let marks = marked(room.marks, calls);
    let rebooting = ends_in_reboot(calls);
    let missed = count_missed(&marks);
    Report {
        job: frame.job,
        initial: frame.initial,
        pull: frame.pull,
        start: frame.start,
        end: frame.end,
        version: room.version,
        outcome: outcome_of(rebooting, missed),
        total: document.resources.as_slice().len() as u32,
        missed: missed as u32,
        listed: Items::of(listed_of(rebooting, room.ids, &marks, room.listed)),
        parts: frame.parts,
    }
}

fn ends_in_reboot(calls: &[Entry]) -> bool
    ensures { IsTrue result ↔ EndsInReboot calls.now }
{
    match calls {
        [.., Entry::Set { answer, .. }] => matches!(answer, SetAnswer::Reboot),
        _ => false,
    }
}

// What a run came to in which this many resources did not succeed.
fn outcome_of(rebooting: bool, missed: usize) -> Outcome
    ensures { result ≡ outcome_of rebooting missed }
{
    if rebooting {
        return Outcome::Reboot;
    }
    if missed == 0 {
        return Outcome::Success;
    }
    Outcome::Failure
}

// The first of the marked resources that did not succeed, in the capacity that is given.
fn listed_of(rebooting: bool, ids: Vec<Text>, marks: &[Mark], room: Vec<Missed>) -> Vec<Missed>
    requires ids { length ids.items ≡ length marks.now }
    requires settled { All (λ mark. mark ≡ Unsettled → ⊥) marks.now }
    requires empty { room.items ≡ [] }
    requires spare { LISTED_LIMIT ≤ vec_capacity room }
    ensures { result.items ≡ listed_of rebooting ids.items marks.now }
{
    let mut listed = room;
    for (place, id) in ids.into_iter().enumerate() {
        if let Some(reason) = reason_of(rebooting, marks[place]) {
            list(&mut listed, Missed { id, reason });
        }
    }
    listed
}

// Why a resource of that mark did not succeed, where it did not.
fn reason_of(rebooting: bool, mark: Mark) -> Option<Reason>
    requires { mark ≡ Unsettled → ⊥ }
    ensures { result ≡ reason_of rebooting mark }
{
    match mark {
        Mark::NotCalled if rebooting => Some(Reason::NotReached),
        Mark::NotCalled => Some(Reason::Skipped),
        Mark::Succeeded => None,
        Mark::Missed(reason) => Some(reason),
        Mark::Unsettled => unreachable!(),
    }
}

// Lists one more, where fewer than `LISTED_LIMIT` are listed.
fn list(listed: &mut Vec<Missed>, missed: Missed)
    requires bound { length listed.old.items ≤ LISTED_LIMIT }
    requires spare { LISTED_LIMIT ≤ vec_capacity listed.old }
    ensures listed { listed.new.items ≡ take LISTED_LIMIT (listed.old.items ++ missed ∷ []) }
    ensures spare { LISTED_LIMIT ≤ vec_capacity listed.new }
{
    if listed.len() < LISTED_LIMIT {
        match listed.push(missed) {
            Ok(()) => {}
            Err(_) => unreachable!(),
        }
    }
}
