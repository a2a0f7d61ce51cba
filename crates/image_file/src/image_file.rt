//! A file that another program writes, read as one image of it.
ghost use Rattle.std.specs.Prelude.{◌≡◌, ◌≤◌, IfOk, IfSome, length};
ghost use Rattle.dsc_outside.specs.Causes.{HasCause, count_after};

use crate::looking::{byte_at, length_of, open_seen};
use dsc_outside::{Disk, Failed};
use real_outside::fill;
use std::alloc::{AllocError, Global};
use std::fs::File;
use std::marker::Model;
use std::rt::Files;

// How many bytes are read at once.
const BLOCK: usize = 65_536;

/// The plain file of a path, which another program may write meanwhile, as a disk that reads as one image of it: as long as the
/// file was at the first call, with the last byte that it had then. The file is opened at the first call, to be read alone, and
/// not locked; where it is missing, or a link, a folder or a device stands there, the call fails. What is written to this disk
/// goes nowhere. A clause sees it as the number of its calls that failed.
///
/// Of a file to whose bytes others are only added between two changes of one byte, the mark, all that was read is of one image
/// as long as the mark stays. It is looked at once more after each block that was read, and where it changed the call fails.
#[derive(Drop)]
pub struct ImageFile<R: Files<File = File>> {
    place: Watched<R>,
    faults: u64,
}

impl<R: Files<File = File>> Model for ImageFile<R> {
    ghost use Rattle.std.specs.Prelude.{ℕ};

    ghost Value = { ℕ };

    ghost view = { λ d. d.faults };
}

impl<R: Files<File = File>> ImageFile<R> {
    /// The file of that path, whose mark is the byte at this place; takes the memory for one block.
    pub fn new(rt: R, alloc: Global, path: String, mark_at: u64) -> Result<ImageFile<R>, AllocError>
    where
        R: Drop,
        ensures { IfOk result (λ disk. disk ≡ 0) }
    {
        Ok(ImageFile {
            place: Watched {
                rt,
                path,
                mark_at,
                image: None,
                block: Block {
                    at: 0,
                    bytes: vec![in alloc; 0; BLOCK]?,
                    count: 0,
                },
            },
            faults: 0,
        })
    }

    /// Whether the mark is what it was at the first call, and was so whenever it was looked at.
    pub fn has_kept_its_mark(&mut self) -> bool
        ensures { self.new ≡ self.old }
    {
        self.place.look_at_mark().is_ok()
    }

    /// Whether the file is as long as it was at the first call.
    pub fn has_kept_its_length(&mut self) -> bool
        ensures { self.new ≡ self.old }
    {
        match &self.place.image {
            Some(image) => length_of(&image.file) == Ok(image.length),
            None => true,
        }
    }

    // Counts the call where it failed.
    fn counted<T>(&mut self, outcome: Result<T, Failed>) -> Result<T, Failed>
        ensures same { result ≡ outcome }
        ensures cause { HasCause self.old self.new outcome }
        ensures count { self.new ≡ count_after self.old outcome }
    {
        if outcome.is_err() {
            self.faults = self.faults.saturating_add(1);
        }
        outcome
    }
}

// The path, and the image of its file once that is open.
#[derive(Drop)]
struct Watched<R: Files<File = File>> {
    rt: R,
    path: String,
    mark_at: u64,
    image: Option<Image>,
    block: Block,
}

// A file, and what it was when it was opened. A mark that changed is not forgotten.
#[derive(Drop)]
struct Image {
    file: File,
    length: u64,
    last: u8,
    mark: Option<u8>,
    has_moved: bool,
}

// Bytes of a file from this place on, read at once; of the bytes so many.
#[derive(Drop)]
struct Block {
    at: u64,
    bytes: Vec<u8>,
    count: usize,
}

impl Block {
    // That many bytes of the file from this place on, where all of them are here.
    fn get(&self, at: u64, size: usize) -> Option<&[u8]>
        ensures { IfSome result (λ piece. length piece.now ≡ size) }
    {
        let offset = usize::try_from(at.checked_sub(self.at)?).ok()?;
        let end = offset.checked_add(size)?;
        if end > self.count || end > self.bytes.len() {
            return None;
        }
        Some(&self.bytes[offset..end])
    }
}

impl<R: Files<File = File>> Watched<R> {
    fn length(&mut self) -> Result<u64, Failed> {
        self.open()?;
        match &self.image {
            Some(image) => Ok(image.length),
            None => Err(Failed),
        }
    }

    fn read_at(&mut self, at: u64, into: &mut [u8]) -> Result<usize, Failed>
        ensures size { IfOk result (λ n. n ≤ length into.new) }
    {
        self.open()?;
        let count = self.read_through(at, into)?;
        match &self.image {
            Some(image) => Ok(as_image(image, at, count, into)),
            None => Err(Failed),
        }
    }

    // Opens the file, where that has not been done.
    fn open(&mut self) -> Result<(), Failed> {
        if self.image.is_none() {
            let file = open_seen(&self.rt, self.path.as_str())?;
            self.image = Some(image_of(file, self.mark_at)?);
        }
        Ok(())
    }

    // Reads by way of the block, or straight where more is asked for than one holds.
    fn read_through(&mut self, at: u64, into: &mut [u8]) -> Result<usize, Failed>
        ensures size { IfOk result (λ n. n ≤ length into.new) }
        ensures length { length into.new ≡ length into.old }
    {
        let size = into.len();
        if let Some(piece) = self.block.get(at, size) {
            into.copy_from_slice(piece);
            return Ok(size);
        }
        if size >= BLOCK {
            let count = fill(self.file()?, at, into)?;
            self.look_at_mark()?;
            return Ok(count);
        }
        self.read_block(at)?;
        let count = self.block.count.min(size);
        match self.block.get(at, count) {
            Some(piece) => into[..count].copy_from_slice(piece),
            None => return Err(Failed),
        }
        Ok(count)
    }

    fn file(&self) -> Result<&File, Failed> {
        match &self.image {
            Some(image) => Ok(&image.file),
            None => Err(Failed),
        }
    }

    // Reads a block from this place on. While it is read none is there.
    fn read_block(&mut self, at: u64) -> Result<(), Failed> {
        self.block.count = 0;
        let file = match &self.image {
            Some(image) => &image.file,
            None => return Err(Failed),
        };
        let count = fill(file, at, &mut self.block.bytes)?;
        self.look_at_mark()?;
        self.block.at = at;
        self.block.count = count;
        Ok(())
    }

    // Fails where the mark is not what it was when the file was opened, or was not at an earlier look.
    fn look_at_mark(&mut self) -> Result<(), Failed> {
        let mark_at = self.mark_at;
        match &mut self.image {
            Some(image) => {
                if image.has_moved || byte_at(&image.file, mark_at) != Ok(image.mark) {
                    image.has_moved = true;
                    return Err(Failed);
                }
                Ok(())
            }
            None => Ok(()),
        }
    }
}

// Makes the bytes that were read from this place on those of the image, and says how many of them it has.
fn as_image(image: &Image, at: u64, count: usize, into: &mut [u8]) -> usize
    ensures size { result ≤ length into.new }
{
    let left = usize::try_from(image.length.saturating_sub(at)).unwrap_or(usize::MAX);
    let count = count.min(left).min(into.len());
    if count > 0 && count == left {
        into[count - 1] = image.last;
    }
    count
}

// How often the length and the last byte are looked at until they are of one moment.
const LOOKS: u32 = 1_000;

// The image of a file: its mark, and then a length that it had before and after its last byte was read.
fn image_of(file: File, mark_at: u64) -> Result<Image, Failed> {
    let mark = byte_at(&file, mark_at)?;
    for _ in 0..LOOKS {
        let length = length_of(&file)?;
        let last = byte_at(&file, length.saturating_sub(1))?;
        if length_of(&file)? == length {
            return Ok(Image {
                file,
                length,
                last: last.unwrap_or(0),
                mark,
                has_moved: false,
            });
        }
    }
    Err(Failed)
}

impl<R: Files<File = File>> Disk for ImageFile<R> {
    ghost use Rattle.std.specs.Prelude.{None};
    ghost use Rattle.std.proofs.lemmas.Option.{none-some};

    ghost shown = { λ d. None };

    ghost images = { λ d c. ⊥ };

    ghost moment = { λ d. 0 };

    ghost left_since = { λ d t c. ⊥ };

    ghost faults = { λ d. d };

    ghost counts_now = { λ d t c le now. now };

    ghost only_now = { λ d c left. left };

    ghost honest = { λ d held is. none-some held is };

    fn length(&mut self) -> Result<u64, Failed>
        ensures cause { HasCause self.old self.new result }
        ensures count { self.new ≡ count_after self.old result }
    {
        let outcome = self.place.length();
        self.counted(outcome)
    }

    fn read_at(&mut self, at: u64, into: &mut [u8]) -> Result<usize, Failed>
        ensures size { IfOk result (λ n. n ≤ length into.new) }
        ensures cause { HasCause self.old self.new result }
        ensures count { self.new ≡ count_after self.old result }
    {
        let outcome = self.place.read_at(at, into);
        self.counted(outcome)
    }

    fn write_at(&mut self, _at: u64, _bytes: &[u8]) -> Result<(), Failed>
        ensures cause { HasCause self.old self.new result }
        ensures count { self.new ≡ count_after self.old result }
    {
        let outcome = self.place.open();
        self.counted(outcome)
    }

    fn cut(&mut self, _to: u64) -> Result<(), Failed>
        ensures cause { HasCause self.old self.new result }
        ensures count { self.new ≡ count_after self.old result }
    {
        let outcome = self.place.open();
        self.counted(outcome)
    }

    fn sync(&mut self) -> Result<(), Failed>
        ensures cause { HasCause self.old self.new result }
        ensures count { self.new ≡ count_after self.old result }
    {
        let outcome = self.place.open();
        self.counted(outcome)
    }
}
