//! Marks: what the last entry of a resource says of it.
ghost use Rattle.std.specs.Prelude.{◌≡◌, ◌<◌, ◌-◌, All, length, count_by, replicate};
ghost use Rattle.resource_kinds.specs.Trace.{place_of};
ghost use Rattle.report_log.specs.declared.marks.Mark.TheVariants.{NotCalled};
ghost use Rattle.report_log.specs.Marks.{entry_mark, is_success, marks_of, set_mark, test_mark};
ghost use Rattle.report_log.specs.Report.{kind_of};

use crate::report::{FailureKind, Reason};
use resource_kinds::{Entry, Failure, SetAnswer, TestAnswer};

/// What the last entry of a resource says of it.
#[derive(Clone, Copy, Debug, PartialEq, Eq)]
pub enum Mark {
    /// There is none.
    NotCalled,

    /// It is a Test that answered yes.
    Succeeded,

    /// It is a Set that was done, after which a Test comes, or it ran out of memory.
    Unsettled,

    /// The resource did not succeed.
    Missed(Reason),
}

/// Marks the resources by their last entries; takes no memory.
pub fn marked(mut marks: Vec<Mark>, calls: &[Entry]) -> Vec<Mark>
    requires fresh { marks.items ≡ replicate (length marks.items) NotCalled }
    requires known { All (λ e. place_of e < length marks.items) calls.now }
    ensures { result.items ≡ marks_of calls.now (length marks.items) }
{
    for entry in calls {
        let place = entry.place() as usize;
        let mark = entry_mark(entry);
        marks[place] = mark;
    }
    marks
}

fn entry_mark(entry: &Entry) -> Mark
    ensures { result ≡ entry_mark entry.now }
{
    match entry {
        Entry::Tested { answer, .. } => test_mark(answer),
        Entry::Set { answer, .. } => set_mark(answer),
    }
}

fn test_mark(answer: &TestAnswer) -> Mark
    ensures { result ≡ test_mark answer.now }
{
    match answer {
        TestAnswer::Yes => Mark::Succeeded,
        TestAnswer::No => Mark::Missed(Reason::NotInDesiredState),
        TestAnswer::Fault(failure) => Mark::Missed(Reason::Failed(kind_of(failure))),
        TestAnswer::Memory => Mark::Unsettled,
    }
}

fn set_mark(answer: &SetAnswer) -> Mark
    ensures { result ≡ set_mark answer.now }
{
    match answer {
        SetAnswer::Done => Mark::Unsettled,
        SetAnswer::Reboot => Mark::Missed(Reason::RebootAsked),
        SetAnswer::Fault(failure) => Mark::Missed(Reason::Failed(kind_of(failure))),
        SetAnswer::Memory => Mark::Unsettled,
    }
}

fn kind_of(failure: &Failure) -> FailureKind
    ensures { result ≡ kind_of failure.now }
{
    match failure {
        Failure::NoSuchResource => FailureKind::NoSuchResource,
        Failure::OutOfProfile(_) => FailureKind::OutOfProfile,
        Failure::BadPath => FailureKind::BadPath,
        Failure::InTheWay => FailureKind::InTheWay,
        Failure::HostFailed => FailureKind::HostFailed,
    }
}

/// How many of the marked resources did not succeed.
pub fn count_missed(marks: &[Mark]) -> usize
    ensures { result ≡ length marks.now - count_by is_success marks.now }
{
    marks.len() - marks.iter().filter(|mark| is_success(mark)).count()
}

fn is_success(mark: &Mark) -> bool
    ensures { result ≡ is_success mark.now }
{
    match mark {
        Mark::Succeeded => true,
        Mark::NotCalled | Mark::Unsettled | Mark::Missed(_) => false,
    }
}
