//! A disk in memory for long stores.
ghost use Rattle.std.specs.Prelude.{◌≤◌, length};

use dsc_outside::{Disk, Failed};
use memory_outside::MemoryDisk;

/// A disk that keeps the bytes in front of a gap and those after it. The gap reads as the same bytes again and again, and what is
/// written there is lost. It shows nothing.
#[derive(Drop)]
pub struct GapDisk {
    pub kept: MemoryDisk,

    /// Where the gap begins, and how long it is.
    pub begin: u64,
    pub length: u64,

    /// The bytes that it reads as.
    pub filling: Vec<u8>,
}

// Copies the bytes from that place on as far as they fit, and answers how many.
fn copy_from(bytes: &[u8], place: u64, into: &mut [u8]) -> usize
    ensures { result ≤ length into.new }
{
    let from = bytes.get(place as usize..).unwrap_or(&[]);
    let count = from.len().min(into.len());
    into[..count].copy_from_slice(&from[..count]);
    count
}

impl GapDisk {
    // The place of a byte among those that are kept.
    fn place_of(&self, at: u64) -> u64 {
        if at < self.begin {
            at
        } else {
            at.saturating_sub(self.length).max(self.begin)
        }
    }

    // How many of that many bytes from that place on are kept, up to the gap.
    fn count_of(&self, at: u64, length: usize) -> usize
        ensures { result ≤ length }
    {
        if at < self.begin {
            length.min((self.begin - at) as usize)
        } else if at - self.begin < self.length {
            0
        } else {
            length
        }
    }
}

impl Disk for GapDisk {
    ghost use Rattle.std.specs.Prelude.{None};
    ghost use Rattle.std.proofs.lemmas.Option.{none-some};

    ghost shown = { λ d. None };

    ghost images = { λ d c. ⊥ };

    ghost moment = { λ d. 0 };

    ghost left_since = { λ d t c. ⊥ };

    ghost faults = { λ d. d.kept.count.faults };

    ghost counts_now = { λ d t c le now. now };

    ghost only_now = { λ d c left. left };

    ghost honest = { λ d held is. none-some held is };

    fn length(&mut self) -> Result<u64, Failed> {
        let length = self.kept.length()?;
        if length < self.begin {
            Ok(length)
        } else {
            Ok(length.saturating_add(self.length))
        }
    }

    fn read_at(&mut self, at: u64, into: &mut [u8]) -> Result<usize, Failed> {
        if at >= self.begin && at - self.begin < self.length {
            let size = self.filling.len() as u64;
            let place = (at - self.begin).checked_rem(size).unwrap_or(0);
            return Ok(copy_from(&self.filling, place, into));
        }
        let place = self.place_of(at);
        let count = self.count_of(at, into.len());
        self.kept.read_at(place, &mut into[..count])
    }

    fn write_at(&mut self, at: u64, bytes: &[u8]) -> Result<(), Failed> {
        let place = self.place_of(at).min(self.kept.bytes().len() as u64);
        let count = self.count_of(at, bytes.len());
        self.kept.write_at(place, &bytes[..count])
    }

    fn cut(&mut self, to: u64) -> Result<(), Failed> {
        let place = self.place_of(to);
        self.kept.cut(place)
    }

    fn sync(&mut self) -> Result<(), Failed> {
        self.kept.sync()
    }
}
