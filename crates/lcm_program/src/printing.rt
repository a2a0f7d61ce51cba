//! Answers, printed.
ghost use Rattle.std.specs.Prelude.{◌≡◌, ℕ, List, Some, IfErr, IfOk, string_bytes};
ghost use Rattle.lcm_program.specs.Endings.{OtherEnds, RefusalEnds, RefusedEnds, StartEnds, UnreadEnds};
ghost use Rattle.lcm_program.specs.Printed.{Prints};
ghost use Rattle.lcm_program.specs.Refusal.{reason_of};
ghost use Rattle.lcm_program.specs.Test.{PrintsRun};

use crate::input::Unread;
use crate::refusal::{is_refusal, refusal_line};
use crate::test::Outcome;
use dsc_node::{StartEnd, Status};
use dsc_outside::{Failed, Sink, write_all};
use std::alloc::{AllocError, Global};

/// Prints the text with which a tool answers, or the line of its refusal.
pub fn print_answer<K: Sink>(
    alloc: Global,
    output: &mut K,
    answer: Result<Vec<u8>, Unread>,
) -> Status
    ensures ok { IfOk answer (λ text. Prints K.Ends text.items result output.old output.new) }
    ensures err { IfErr answer (λ unread. UnreadEnds K.Ends unread result output.old output.new) }
{
    match answer {
        Ok(text) => print_text(output, &text),
        Err(unread) => print_unread(alloc, output, unread),
    }
}

/// Prints the lines of a run, or the line of the refusal for which there was none.
pub fn print_run<K: Sink>(alloc: Global, output: &mut K, run: Result<Outcome, Unread>) -> Status
    ensures ok { IfOk run (λ outcome. PrintsRun K.Ends (string_bytes outcome.lines) outcome.missed
        result output.old output.new) }
    ensures err { IfErr run (λ unread. UnreadEnds K.Ends unread result output.old output.new) }
{
    let outcome = match run {
        Ok(outcome) => outcome,
        Err(unread) => return print_unread(alloc, output, unread),
    };
    if let Err(Failed) = write_all(output, outcome.lines.as_bytes()) {
        return Status::WriteFault;
    }
    if outcome.missed == 0 {
        return Status::Done;
    }
    Status::NotCompliant {
        count: outcome.missed,
    }
}

/// Prints the text.
pub fn print_text<K: Sink>(output: &mut K, text: &[u8]) -> Status
    ensures { Prints K.Ends text.now result output.old output.new }
{
    match write_all(output, text) {
        Ok(()) => Status::Done,
        Err(Failed) => Status::WriteFault,
    }
}

/// Prints the lines of a start, and after them the line of a refusal where it was refused.
pub fn print_start<K: Sink>(alloc: Global, output: &mut K, end: StartEnd) -> Status
    ensures { StartEnds K.Ends end.status (string_bytes end.lines) result output.old output.new }
{
    let StartEnd { status, lines } = end;
    if is_refusal(&status) {
        print_refused(alloc, output, lines, status)
    } else {
        print_other(output, &lines, status)
    }
}

// Prints these lines, and after them that of the refusal; its status stays where that fails.
fn print_refused<K: Sink>(alloc: Global, output: &mut K, lines: String, refusal: Status) -> Status
    ensures { (reason : List ℕ) → reason_of refusal ≡ Some reason
        → RefusedEnds K.Ends refusal (string_bytes lines) reason result output.old output.new }
{
    let mut text = lines;
    let line = match refusal_line(alloc, &refusal) {
        Ok(line) => line,
        Err(AllocError) => return Status::Memory,
    };
    if let Err(AllocError) = text.push_str(line.as_str()) {
        return Status::Memory;
    }
    let _ = write_all(output, text.as_bytes());
    refusal
}

// Prints the lines of a start that was not refused. Where memory ran out nothing is printed.
fn print_other<K: Sink>(output: &mut K, lines: &str, status: Status) -> Status
    ensures { OtherEnds K.Ends status lines.now result output.old output.new }
{
    if let Status::Memory = status {
        return Status::Memory;
    }
    match write_all(output, lines.as_bytes()) {
        Ok(()) => status,
        Err(Failed) => Status::WriteFault,
    }
}

/// Prints why the input was not read.
pub fn print_unread<K: Sink>(alloc: Global, output: &mut K, unread: Unread) -> Status
    ensures { UnreadEnds K.Ends unread result output.old output.new }
{
    print_status(alloc, output, unread.status())
}

/// Prints the line of a refusal that comes before anything is done; its status stays where that fails.
pub fn print_status<K: Sink>(alloc: Global, output: &mut K, status: Status) -> Status
    ensures { RefusalEnds K.Ends status result output.old output.new }
{
    let lines = String::new(alloc);
    print_start(alloc, output, StartEnd { status, lines })
}
