//! Traces and runs as words.
use command_kind::Run;
use dsc_document::Document;
use lcm_core::RunEnd;
use resource_kinds::{Entry, Failure, SetAnswer, TestAnswer};
use std::alloc::AllocError;
use std::test::Fail;

// The last character of the id of the resource at that place.
fn letter(document: &Document, place: u32) -> char {
    match document.resources.as_slice().get(place as usize) {
        Some(resource) => *resource.id.as_slice().last().unwrap_or(&'?'),
        None => '?',
    }
}

fn push_failure(made: &mut String, failure: &Failure) -> Result<(), AllocError> {
    made.push_str(failure.name())?;
    if let Failure::OutOfProfile(name) = failure {
        write!(made, " {name}")?;
    }
    Ok(())
}

fn push_entry(made: &mut String, entry: &Entry) -> Result<(), AllocError> {
    match entry {
        Entry::Tested { answer, .. } => {
            made.push('?')?;
            match answer {
                TestAnswer::Yes => made.push_str("yes"),
                TestAnswer::No => made.push_str("no"),
                TestAnswer::Fault(failure) => push_failure(made, failure),
                TestAnswer::Memory => made.push_str("memory"),
            }
        }
        Entry::Set { answer, .. } => {
            made.push('!')?;
            match answer {
                SetAnswer::Done => made.push_str("done"),
                SetAnswer::Reboot => made.push_str("reboot"),
                SetAnswer::Fault(failure) => push_failure(made, failure),
                SetAnswer::Memory => made.push_str("memory"),
            }
        }
    }
}

/// The entries, each as a resource's letter, `?` or `!`, and the answer; then how the run ended.
pub fn trace_words(
    rt: &impl AllocGlobal,
    document: &Document,
    calls: &[Entry],
    end: RunEnd,
) -> Result<String, Fail> {
    let mut made = String::new(rt.alloc());
    for entry in calls {
        made.push(letter(document, entry.place()))?;
        push_entry(&mut made, entry)?;
        made.push(' ')?;
    }
    made.push_str(match end {
        RunEnd::Finished => "finished",
        RunEnd::RebootAsked(_) => "reboot",
        RunEnd::Memory => "memory",
    })?;
    Ok(made)
}

fn push_run(made: &mut String, run: &Run) -> Result<(), Fail> {
    made.push(' ')?;
    for byte in run.program.as_slice() {
        made.push(char::from(*byte))?;
    }
    made.push('(')?;
    for (place, word) in run.words.as_slice().iter().enumerate() {
        if place > 0 {
            made.push(',')?;
        }
        write!(made, "{word}")?;
    }
    match run.status {
        Some(status) => write!(made, ")={status}")?,
        None => made.push_str(")=none")?,
    }
    Ok(())
}

/// The runs, each as its program, its arguments and its status.
pub fn run_words(rt: &impl AllocGlobal, runs: &[Run]) -> Result<String, Fail> {
    let mut made = String::new(rt.alloc());
    for run in runs {
        push_run(&mut made, run)?;
    }
    Ok(made)
}
