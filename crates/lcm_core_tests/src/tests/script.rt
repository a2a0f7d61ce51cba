//! Resources that answer as they are set to. An answer is written as a word: `yes`, `no`, `done`, `reboot`, `memory`, or the
//! name of a failure.
ghost use Rattle.std.specs.Prelude.{◌≡◌};
ghost use Rattle.resource_kinds.specs.declared.entry.Entry.{Entry};

use dsc_document::Document;
use mof_values::{Ident, Memory};
use resource_kinds::{Entry, Failure, Resources, SetAnswer, TestAnswer};
use std::alloc::{AllocError, Global};

/// Answers of Tests and of Sets, each in order; after the last come `yes` and `done`.
#[derive(Drop)]
pub struct Script {
    alloc: Global,
    tests: &'static [&'static str],
    sets: &'static [&'static str],
    calls: Vec<Entry>,
}

impl Script {
    ghost use Rattle.std.specs.Prelude.{[]};

    pub fn new(
        alloc: Global,
        tests: &'static [&'static str],
        sets: &'static [&'static str],
    ) -> Script
        ensures { result.calls.items ≡ [] }
    {
        Script {
            alloc,
            tests,
            sets,
            calls: Vec::new(alloc),
        }
    }
}

impl Resources for Script {
    ghost use Rattle.std.specs.Prelude.{◌-◌, vec_capacity, vec_len};
    ghost use Rattle.resource_kinds.specs.Trace.{host_failures};

    ghost trace = { λ s. s.calls.items };

    ghost spare = { λ s. vec_capacity s.calls - vec_len s.calls };

    ghost faults = { λ s. host_failures s.calls.items };

    ghost does = { λ _ _ _ _. Unit {0} };

    ghost still = { λ _ _. Unit {0} };

    ghost stays = { λ _. tt };

    ghost still_does = { λ _ _ _ _ _ _ _. tt };

    fn reserve(&mut self, entries: u32) -> Result<(), Memory> {
        self.calls.reserve(entries as usize)?;
        Ok(())
    }

    fn test(&mut self, _: &Document, place: u32) -> TestAnswer {
        let answer = test_of(self.alloc, next(&mut self.tests, "yes"));
        let (answer, shown) = two_tests(answer);
        match self.calls.push(Entry::Tested { place, answer }) {
            Ok(()) => shown,
            Err(_) => unreachable!(),
        }
    }

    fn set(&mut self, _: &Document, place: u32) -> SetAnswer {
        let answer = set_of(self.alloc, next(&mut self.sets, "done"));
        let (answer, shown) = two_sets(answer);
        match self.calls.push(Entry::Set { place, answer }) {
            Ok(()) => shown,
            Err(_) => unreachable!(),
        }
    }

    fn calls(&self) -> &[Entry] {
        &self.calls
    }
}

fn next(words: &mut &'static [&'static str], last: &'static str) -> &'static str {
    match *words {
        [word, rest @ ..] => {
            *words = rest;
            *word
        }
        [] => last,
    }
}

fn two_tests(answer: TestAnswer) -> (TestAnswer, TestAnswer)
    ensures { result.0 ≡ result.1 }
{
    match answer.clone() {
        Ok(copy) => (copy, answer),
        Err(AllocError) => (TestAnswer::Memory, TestAnswer::Memory),
    }
}

fn two_sets(answer: SetAnswer) -> (SetAnswer, SetAnswer)
    ensures { result.0 ≡ result.1 }
{
    match answer.clone() {
        Ok(copy) => (copy, answer),
        Err(AllocError) => (SetAnswer::Memory, SetAnswer::Memory),
    }
}

/// The answer of this word.
pub fn test_of(alloc: Global, word: &str) -> TestAnswer {
    match word {
        "yes" => TestAnswer::Yes,
        "no" => TestAnswer::No,
        _ => match failure_of(alloc, word) {
            Some(failure) => TestAnswer::Fault(failure),
            None => TestAnswer::Memory,
        },
    }
}

/// The answer of this word.
pub fn set_of(alloc: Global, word: &str) -> SetAnswer {
    match word {
        "done" => SetAnswer::Done,
        "reboot" => SetAnswer::Reboot,
        _ => match failure_of(alloc, word) {
            Some(failure) => SetAnswer::Fault(failure),
            None => SetAnswer::Memory,
        },
    }
}

// the failure of this name, or none where it is the word for out of memory
fn failure_of(alloc: Global, word: &str) -> Option<Failure> {
    match word {
        "NoSuchResource" => Some(Failure::NoSuchResource),
        "BadPath" => Some(Failure::BadPath),
        "InTheWay" => Some(Failure::InTheWay),
        "HostFailed" => Some(Failure::HostFailed),
        "OutOfProfile" => match Ident::spell(alloc, &['N']) {
            Ok(name) => Some(Failure::OutOfProfile(name)),
            Err(_) => None,
        },
        _ => None,
    }
}

/// The mark of a Test or of a Set, and the word of its answer.
pub fn said(entry: &Entry) -> (char, &'static str) {
    match entry {
        Entry::Tested { answer, .. } => ('?', test_word(answer)),
        Entry::Set { answer, .. } => ('!', set_word(answer)),
    }
}

fn test_word(answer: &TestAnswer) -> &'static str {
    match answer {
        TestAnswer::Yes => "yes",
        TestAnswer::No => "no",
        TestAnswer::Fault(failure) => failure.name(),
        TestAnswer::Memory => "memory",
    }
}

fn set_word(answer: &SetAnswer) -> &'static str {
    match answer {
        SetAnswer::Done => "done",
        SetAnswer::Reboot => "reboot",
        SetAnswer::Fault(failure) => failure.name(),
        SetAnswer::Memory => "memory",
    }
}
