//! What Sets make of a machine, failing calls, and sizes. What a Test answers where no call fails, and which resources overlap, the
//! program itself shows.
mod documents;
mod machines;
mod rows;

use documents::document;
use dsc_document::Document;
use machines::{hold_the_same, host, machine};
use memory_outside::{HostContents, MemoryHost};
use resource_kinds::{Kinds, Resources, SetAnswer, TestAnswer};
use rows::{SETS, SetRow, TESTS, TestRow};
use std::alloc::{AllocError, Global};
use std::test::Fail;

fn test_word(answer: TestAnswer) -> &'static str {
    match answer {
        TestAnswer::Yes => "yes",
        TestAnswer::No => "no",
        TestAnswer::Fault(failure) => failure.name(),
        TestAnswer::Memory => "memory",
    }
}

fn set_word(answer: SetAnswer) -> &'static str {
    match answer {
        SetAnswer::Done => "done",
        SetAnswer::Reboot => "reboot",
        SetAnswer::Fault(failure) => failure.name(),
        SetAnswer::Memory => "memory",
    }
}

// The answer of a Test of the document's resource.
fn tested(alloc: Global, document: &Document, host: MemoryHost) -> &'static str {
    let mut kinds = Kinds::new(alloc, host);
    if document.resources.as_slice().is_empty() || kinds.reserve(1).is_err() {
        "memory"
    } else {
        test_word(kinds.test(document, 0))
    }
}

// Returns whether a Set of the document's resource answers so and makes that of the machine.
fn is_set(
    alloc: Global,
    document: &Document,
    host: MemoryHost,
    answer: &str,
    after: &HostContents,
) -> bool {
    let mut kinds = Kinds::new(alloc, host);
    if document.resources.as_slice().is_empty() || kinds.reserve(1).is_err() {
        false
    } else {
        set_word(kinds.set(document, 0)) == answer && hold_the_same(kinds.host().contents(), after)
    }
}

// Returns whether the document's resource is set, and then holds.
fn lasts(alloc: Global, document: &Document, host: MemoryHost) -> bool {
    let mut kinds = Kinds::new(alloc, host);
    if document.resources.as_slice().is_empty() || kinds.reserve(2).is_err() {
        false
    } else {
        set_word(kinds.set(document, 0)) == "done" && test_word(kinds.test(document, 0)) == "yes"
    }
}

fn holds(is_so: bool, words: &str) -> Result<(), Fail> {
    if is_so {
        return Ok(());
    }
    Err(words.into())
}

fn check_test(rt: &impl AllocGlobal, row: &TestRow) -> Result<(), Fail> {
    let (words, before, failing, answer) = *row;
    let document = document(rt, words)?;
    let found = tested(rt.alloc(), &document, host(rt, before, failing)?);
    holds(found == answer, words)
}

fn check_set(rt: &impl AllocGlobal, row: &SetRow) -> Result<(), Fail> {
    let document = document(rt, row.0)?;
    holds(is_set_as(rt, &document, row)?, row.0)
}

// Returns whether a Set of the document's resource answers as the row says, and makes that of the machine.
fn is_set_as(rt: &impl AllocGlobal, document: &Document, row: &SetRow) -> Result<bool, Fail> {
    let after = machine(rt, row.4)?;
    let host = host(rt, row.1, row.2)?;
    Ok(is_set(rt.alloc(), document, host, row.3, &after))
}

#[test]
fn a_failing_look_is_the_hosts_fault(rt: HostRuntime) -> Result<(), Fail> {
    for row in TESTS {
        check_test(&rt, row)?;
    }
    Ok(())
}

#[test]
fn a_set_makes_what_is_asked_for_or_tells_why_not(rt: HostRuntime) -> Result<(), Fail> {
    for row in SETS {
        check_set(&rt, row)?;
    }
    Ok(())
}

// The word, and that many pieces with this between.
fn sized(rt: &impl AllocGlobal, word: &str, between: char, count: usize) -> Result<String, Fail> {
    let mut made = format!(in rt.alloc(); "{word} p")?;
    push_pieces(&mut made, between, count)?;
    Ok(made)
}

fn push_pieces(line: &mut String, between: char, count: usize) -> Result<(), AllocError> {
    for piece in 0..count {
        write!(line, "{between}{piece}")?;
    }
    Ok(())
}

fn sized_document(
    rt: &impl AllocGlobal,
    word: &str,
    between: char,
    count: usize,
) -> Result<Document, Fail> {
    let words = sized(rt, word, between, count)?;
    document(rt, &words)
}

fn check_size(rt: &impl AllocGlobal, word: &str, between: char, count: usize) -> Result<(), Fail> {
    let document = sized_document(rt, word, between, count)?;
    let host = host(rt, "$p=0;1;x", &[])?;
    holds(lasts(rt.alloc(), &document, host), word)
}

const SIZES: &[usize] = &[0, 1, 2, 7, 63, 64, 65, 4096];

#[test]
fn with_ample_memory_a_path_of_each_size_is_made(rt: HostRuntime) -> Result<(), Fail> {
    for count in SIZES {
        check_size(&rt, "folder", '/', *count)?;
        check_size(&rt, "file", '/', *count)?;
    }
    Ok(())
}

#[test]
fn with_ample_memory_a_value_of_each_size_is_set(rt: HostRuntime) -> Result<(), Fail> {
    for count in SIZES {
        check_size(&rt, "variable p", ';', *count)?;
        check_size(&rt, "entry", ';', *count)?;
    }
    Ok(())
}

#[test]
fn with_ample_memory_entries_of_each_number_are_set(rt: HostRuntime) -> Result<(), Fail> {
    for count in SIZES {
        check_size(&rt, "entries p", ';', *count)?;
        check_size(&rt, "no-entries p", ';', *count)?;
    }
    Ok(())
}
