//! What tests and sets resources and keeps the answers.
ghost use Rattle.std.specs.Prelude.{◌≡◌, ◌<◌, ◌≤◌, ◌+◌, ◌++◌, ◌∷◌, [], List, ℕ, length, OnOk};
ghost use Rattle.dsc_terms.specs.Counts.{RoseBy};
ghost use Rattle.dsc_document.specs.declared.document.Document.{Document};
ghost use Rattle.resource_kinds.specs.declared.entry.Entry.{Entry};
ghost use Rattle.resource_kinds.specs.declared.entry.Entry.TheVariants.{Tested, Set};
ghost use Rattle.resource_kinds.specs.Trace.{entry_failures};

use crate::entry::{Entry, SetAnswer, TestAnswer};
use dsc_document::Document;
use mof_values::Memory;

/// The resources of a machine, with the entries of a run.
pub trait Resources {
    /// The entries so far.
    ghost trace: { Self → List Entry };

    /// For how many more entries capacity is reserved.
    ghost spare: { Self → ℕ };

    /// How often a call of the machine has failed; it never falls.
    ghost faults: { Self → ℕ };

    /// One call over the document adds this entry and leads from one value to another.
    ghost does: { Self → Document → Entry → Self → Type 0 };

    /// Nothing has changed but the reserved capacity.
    ghost still: { Self → Self → Type 0 };

    /// Reserves capacity for this many more entries.
    fn reserve(&mut self, entries: u32) -> Result<(), Memory>
        ensures capacity { OnOk result (entries ≤ spare self.new) }
        ensures trace { trace self.new ≡ trace self.old }
        ensures faults { faults self.new ≡ faults self.old }
        ensures still { still self.old self.new };

    /// Tests the resource at that place, and adds its entry.
    fn test(&mut self, document: &Document, place: u32) -> TestAnswer
        requires place { place < length document.now.resources }
        requires capacity { 0 < spare self.old }
        ensures trace { trace self.new ≡ trace self.old ++ Tested place result ∷ [] }
        ensures capacity { spare self.old ≤ spare self.new + 1 }
        ensures does { does self.old document.now (Tested place result) self.new }
        ensures later { faults self.old ≤ faults self.new }
        ensures cause { RoseBy (entry_failures (Tested place result)) (faults self.old)
            (faults self.new) };

    /// Sets the resource at that place, and adds its entry.
    fn set(&mut self, document: &Document, place: u32) -> SetAnswer
        requires place { place < length document.now.resources }
        requires capacity { 0 < spare self.old }
        ensures trace { trace self.new ≡ trace self.old ++ Set place result ∷ [] }
        ensures capacity { spare self.old ≤ spare self.new + 1 }
        ensures does { does self.old document.now (Set place result) self.new }
        ensures later { faults self.old ≤ faults self.new }
        ensures cause { RoseBy (entry_failures (Set place result)) (faults self.old)
            (faults self.new) };

    /// The entries so far.
    fn calls(&self) -> &[Entry]
        ensures { result.now ≡ trace self.now };

    ghost stays: { (a : Self) → still a a };

    ghost still_does: { (a b c : Self) (document : Document) (e : Entry) → still a b
        → does b document e c → does a document e c };
}
