//! A source in memory none of whose calls fails.
ghost use Rattle.std.specs.Prelude.{◌≡◌, IfOk, IsOk, Some, None, drop, length, min};
ghost use Rattle.std.specs.Io.{ReadsAtMost};
ghost use Rattle.std.specs.Io.KnownBytes.{ReadConsumes};
ghost use Rattle.dsc_outside.specs.Causes.{HasCause};

use crate::source::MemorySource;
use dsc_outside::{Ends, Failed, Source};
use std::marker::Model;

/// A source of given bytes none of whose calls fails. A clause sees it as the bytes that are left.
#[derive(Drop)]
pub struct ReliableSource {
    source: MemorySource,
}

impl Model for ReliableSource {
    ghost use Rattle.std.specs.Prelude.{List, ℕ};
    ghost use Rattle.memory_outside.specs.Memory.{NoneIsToFail};

    ghost Value = { List ℕ };

    ghost view = { λ s. s.source.left };

    ghost invariant = { λ s. NoneIsToFail s.source.calls };
}

impl ReliableSource {
    /// A source of these bytes; takes no memory.
    pub fn of(bytes: Vec<u8>) -> ReliableSource
        ensures { result ≡ bytes.items }
    {
        let alloc = *bytes.allocator();
        ReliableSource {
            source: MemorySource::new(bytes, Vec::new(alloc)),
        }
    }
}

impl Ends for ReliableSource {
    ghost left = { λ s. Some s };

    ghost held = { λ _. None };

    ghost faults = { λ _. 0 };
}

impl Source for ReliableSource {
    fn read(&mut self, into: &mut [u8]) -> Result<usize, Failed>
        ensures bound { ReadsAtMost result into.new }
        ensures bytes { ReadConsumes (Some self.old) (Some self.new) result into.new }
        ensures cause { HasCause 0 0 result }
        ensures ok { IsOk result }
        ensures most { IfOk result (λ n. n ≡ min (length self.old) (length into.new)) }
        ensures after { IfOk result (λ n. drop n into.new ≡ drop n into.old) }
    {
        self.source.read(into)
    }
}
