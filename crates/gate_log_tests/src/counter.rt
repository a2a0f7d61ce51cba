//! A count that is kept as bodies: the smallest state that stands on `gate_log`.
ghost use Rattle.std.specs.Prelude.{◌≡◌, ◌+◌, ◌≤◌, ◌∷◌, [], ℕ, IfOk, IfErr, vec_capacity};
ghost use Rattle.dsc_outside.specs.Disk.{From};
ghost use Rattle.gate_log.specs.Log.{AtAnyMoment};
ghost use Rattle.gate_log.specs.Standing.{StandsAtAnyMoment};
ghost use Rattle.gate_log.specs.Kept.{FailingStandForNone, IsEither, IsKeptBy, IsOpenedBy, IsReadyBy, KeepsValues, StandForOne, StandsBy, WroteBy};
ghost use Rattle.gate_log_tests.specs.Counting.{LeadsToCount, count_by, count_shape};
ghost use Rattle.gate_log_tests.specs.Counter.{Counted, NotOpened};

use dsc_outside::{Disk, Failed};
use gate_log::{
    Log, LogError, LoggedState, Replay, Shape, Spelling, TakeError, add_all, kept_laws, open_kept,
    rewrite,
};
use std::alloc::Global;
use std::marker::Model;

/// Counts.
pub struct Counts;

impl LoggedState for Counts {
    ghost use Rattle.gate_log_tests.specs.Counting.{LeadsToCount, count_shape};

    type State = u8;

    ghost shape = { count_shape };

    ghost leads = { LeadsToCount };

    ghost sound = { λ count. Unit {0} };
}

/// Spells bodies of these kinds with one number.
#[derive(Drop)]
struct Spelled<'a> {
    kinds: &'a [u8],
    number: u8,
}

impl<'a> Spelling for Spelled<'a> {
    ghost use Rattle.gate_log_tests.specs.Counting.{bodies_with};

    ghost rest = { λ s. bodies_with s.number s.kinds.now };

    ghost ready = { λ s. Unit {0} };

    ghost capacity = { 2 };

    fn spell_next(&mut self, buffer: &mut Vec<u8>) -> bool {
        let [kind, rest @ ..] = self.kinds else {
            return false;
        };
        self.kinds = rest;
        fill(buffer, *kind, self.number);
        true
    }
}

// Two bytes in place of all that a buffer holds.
fn fill(buffer: &mut Vec<u8>, kind: u8, number: u8)
    requires capacity { 2 ≤ vec_capacity buffer.old }
    ensures body { buffer.new.items ≡ kind ∷ number ∷ [] }
    ensures capacity { vec_capacity buffer.old ≤ vec_capacity buffer.new }
{
    buffer.clear();
    match buffer.extend_from_slice(&[kind, number]) {
        Ok(()) => {}
        Err(_) => unreachable!(),
    }
}

/// The count after the bodies that were read.
#[derive(Drop)]
struct Reader {
    count: u8,
}

impl Replay for Reader {
    ghost use Rattle.gate_log_tests.specs.Counting.{LeadsToCount};
    ghost use Rattle.gate_log.specs.Kept.{EndsBy};

    ghost took = { λ reader bodies. LeadsToCount bodies reader.count };

    ghost refused = { λ reader bodies body. EndsBy LeadsToCount bodies body };

    fn take(&mut self, body: &[u8]) -> Result<(), TakeError> {
        let [kind, number] = body else {
            return Err(TakeError::Refused);
        };
        match after(*kind, self.count, *number) {
            Some(count) => self.count = count,
            None => return Err(TakeError::Refused),
        }
        Ok(())
    }
}

// The count after a body.
fn after(kind: u8, count: u8, number: u8) -> Option<u8>
    ensures { result ≡ count_by kind count number }
{
    match kind {
        0 => Some(count),
        1 => count.checked_add(number),
        2 => Some(number),
        _ => None,
    }
}

/// Why a count was not opened or changed.
#[derive(Clone, Copy, Debug, PartialEq, Eq)]
pub enum CountError {
    /// An earlier call answered `Disk`.
    Spent,

    /// The count would pass 255.
    TooMany,

    Disk,

    NotACount { at: u64 },

    Memory,
}

/// A count, kept on a disk.
#[derive(Drop)]
pub struct Counter {
    log: Log,
    count: u8,
    buffer: Vec<u8>,
}

impl Model for Counter {
    ghost use Rattle.std.specs.Prelude.{◌≤◌, vec_capacity};
    ghost use Rattle.gate_log_tests.specs.Counting.{CounterTerm};

    ghost Value = { CounterTerm };

    ghost view = { λ c. record { log = c.log; count = c.count } };

    ghost invariant = { λ c. 2 ≤ vec_capacity c.buffer };
}

// The sizes of a counter's store.
const SHAPE: Shape = Shape {
    bank: 64,
    largest: 32,
};

/// Opens the counter of a disk.
pub fn open_counter<D: Disk>(alloc: Global, disk: &mut D) -> Result<Counter, CountError>
    ensures opened { IfOk result (λ counter. IsOpenedBy D.Disk disk.old disk.new count_shape LeadsToCount counter.log counter.count) }
    ensures cause { IfErr result (NotOpened D.Disk disk.old disk.new) }
    ensures any_moment { AtAnyMoment D.Disk disk.old disk.new
        (From (KeepsValues (StandsBy count_shape LeadsToCount)) (D.images disk.old)) }
    ensures count { D.faults disk.old ≤ D.faults disk.new }
{
    let buffer = match Vec::with_capacity(alloc, 2) {
        Ok(buffer) => buffer,
        Err(_) => return Err(CountError::Memory),
    };
    let mut reader = Reader { count: 0 };
    match open_kept::<Counts, D, Reader>(alloc, disk, SHAPE, &mut reader) {
        Ok(log) => Ok(Counter {
            log,
            count: reader.count,
            buffer,
        }),
        Err(LogError::Disk) => Err(CountError::Disk),
        Err(LogError::NotAStore { at }) => Err(CountError::NotACount { at }),
        Err(LogError::Memory) => Err(CountError::Memory),
    }
}

impl Counter {
    /// The count.
    pub fn count(&self) -> u8
        ensures { result ≡ self.now.count }
    {
        self.count
    }

    /// Adds to the count. A crash at any moment leaves the count before or after it; after `Ok` it leaves the count after it.
    pub fn add<D: Disk>(&mut self, disk: &mut D, number: u8) -> Result<(), CountError>
        requires ready { IsReadyBy D.Disk disk.old count_shape LeadsToCount self.old.log self.old.count }
        ensures answer { Counted D.Disk disk.old disk.new self.old number result self.new }
        ensures ready { IsReadyBy D.Disk disk.new count_shape LeadsToCount self.new.log self.new.count }
        ensures any_moment { IsKeptBy D.Disk disk.old count_shape LeadsToCount self.old.log self.old.count
            → StandsAtAnyMoment D.Disk disk.old disk.new (StandsBy count_shape LeadsToCount)
            (IsEither self.old.count (self.old.count + number)) }
        ensures count { D.faults disk.old ≤ D.faults disk.new }
    {
        if self.log.is_spent() {
            return Err(CountError::Spent);
        }
        let Some(count) = self.count.checked_add(number) else {
            return Err(CountError::TooMany);
        };
        match write(&mut self.log, disk, &mut self.buffer, number, count) {
            Ok(()) => {}
            Err(Failed) => return Err(CountError::Disk),
        }
        self.count = count;
        Ok(())
    }
}

// Adds the number where its two cells of seven bytes fit the live bank, or writes the count after it into the other one.
fn write<D: Disk>(
    log: &mut Log,
    disk: &mut D,
    buffer: &mut Vec<u8>,
    number: u8,
    count: u8,
) -> Result<(), Failed>
    requires capacity { 2 ≤ vec_capacity buffer.old }
    requires sum { (old : ℕ) × IsKeptBy D.Disk disk.old count_shape LeadsToCount log.old old × (old + number ≡ count) }
    ensures answer { WroteBy D.Disk disk.old disk.new count_shape LeadsToCount count log.new result }
    ensures any_moment { (old : ℕ) → IsKeptBy D.Disk disk.old count_shape LeadsToCount log.old old → old + number ≡ count
        → StandsAtAnyMoment D.Disk disk.old disk.new (StandsBy count_shape LeadsToCount) (IsEither old count) }
    ensures count { D.faults disk.old ≤ D.faults disk.new }
    ensures capacity { vec_capacity buffer.old ≤ vec_capacity buffer.new }
{
    if log.has_room(9) {
        let kinds = [0, 1];
        let mut change = Spelled {
            kinds: &kinds,
            number,
        };
        return add_all::<Counts, D, Spelled<'_>>(log, disk, buffer, &mut change);
    }
    let kinds = [2];
    let mut whole = Spelled {
        kinds: &kinds,
        number: count,
    };
    rewrite::<Counts, D, Spelled<'_>>(log, disk, buffer, &mut whole)
}

/// An image stands for one count at most, and one that fails stands for none.
#[tactic(auto, using(crate::proofs::Counts::lead_to_one, crate::proofs::Counts::lead_from_front))]
pub fn counts_are_one()
    ensures one { StandForOne count_shape LeadsToCount }
    ensures none { FailingStandForNone count_shape LeadsToCount }
{
    kept_laws::<Counts>();
}
