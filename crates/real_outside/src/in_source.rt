//! The source that reads standard input.
ghost use Rattle.std.specs.Prelude.{◌≡◌, None};
ghost use Rattle.std.specs.Io.{ReadsAtMost};
ghost use Rattle.std.specs.Io.KnownBytes.{ReadConsumes};
ghost use Rattle.dsc_outside.specs.Causes.{HasCause, count_after};

use crate::reading::read_some;
use dsc_outside::{Ends, Failed, Source};
use std::io::Read;
use std::marker::Model;

/// Standard input, as a source: it reads from the reader that the runtime has for it. It shows what its reader shows,
/// and that of the system shows nothing.
#[derive(Drop)]
pub struct InSource<R: Read> {
    reader: R,
    faults: u64,
}

impl<R: Read> Model for InSource<R> {
    ghost use Rattle.real_outside.specs.Real.{Input};

    ghost Value = { Input };

    ghost view = { λ s. record { left = R.remaining s.reader; faults = s.faults } };
}

impl<R: Read> InSource<R> {
    pub fn new(reader: R) -> InSource<R>
        ensures { result ≡ record { left = R.remaining reader; faults = 0 } }
    {
        InSource { reader, faults: 0 }
    }
}

impl<R: Read> Ends for InSource<R> {
    ghost left = { λ s. s.left };

    ghost held = { λ s. None };

    ghost faults = { λ s. s.faults };
}

impl<R: Read> Source for InSource<R> {
    fn read(&mut self, into: &mut [u8]) -> Result<usize, Failed>
        ensures bound { ReadsAtMost result into.new }
        ensures bytes { ReadConsumes self.old.left self.new.left result into.new }
        ensures cause { HasCause self.old.faults self.new.faults result }
        ensures count { self.new.faults ≡ count_after self.old.faults result }
    {
        let outcome = read_some(&mut self.reader, into);
        if outcome.is_err() {
            self.faults = self.faults.saturating_add(1);
        }
        outcome
    }
}
