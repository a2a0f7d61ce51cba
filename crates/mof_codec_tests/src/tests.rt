//! What no clause says: that ample memory is enough, and the printed texts.
//!
//! What the real program shows of texts stands with the checks of the program: what is read of them, why they are
//! refused and where, and how instances are written.
use mof_codec::{Feed, FeedError, push_literal, read, write};
use mof_syntax::MAX_DOCUMENT;
use mof_values::Text;
use std::fmt::Display;
use std::test::Fail;

const SIZES: &[usize] = &[0, 1, 2, 7, 63, 64, 65, 4096];

// What says that a row holds.
fn holds(is_so: bool, row: impl Display + Drop) -> Result<(), Fail> {
    if is_so {
        return Ok(());
    }
    Err(Fail::new(row))
}

// The part that many times.
fn repeated(rt: &impl AllocGlobal, part: &[u8], count: usize) -> Result<Vec<u8>, Fail> {
    let mut bytes = Vec::new(rt.alloc());
    for _ in 0..count {
        bytes.extend_from_slice(part)?;
    }
    Ok(bytes)
}

fn is_read_and_written(rt: &impl AllocGlobal, bytes: &[u8], count: usize) -> bool {
    match read(rt.alloc(), bytes) {
        Ok(instances) => instances.len() == count && write(rt.alloc(), &instances).is_ok(),
        Err(_) => false,
    }
}

#[test]
fn instances_of_each_number_are_read_and_written(rt: HostRuntime) -> Result<(), Fail> {
    for count in SIZES.iter() {
        let bytes = repeated(&rt, b"instance of A as $B{X={\"\\n\",-1};};", *count)?;
        holds(is_read_and_written(&rt, &bytes, *count), *count)?;
    }
    Ok(())
}

fn print_text(rt: &impl AllocGlobal, size: usize) -> Result<(), Fail> {
    let text = Text::from_latin1(rt.alloc(), &repeated(rt, b"\n", size)?)?;
    let mut out = String::new(rt.alloc());
    push_literal(&mut out, text.as_slice())?;
    Ok(())
}

#[test]
fn texts_of_each_size_are_printed_as_literals(rt: HostRuntime) -> Result<(), Fail> {
    for size in SIZES.iter() {
        print_text(&rt, *size)?;
    }
    Ok(())
}

// The number of instances that a feed reads which is given the bytes in pieces of this size.
fn count_fed(rt: &impl AllocGlobal, bytes: &[u8], piece: usize) -> Option<usize> {
    let mut feed = Feed::new(rt.alloc());
    for part in bytes.chunks(piece.max(1)) {
        if feed.feed(part).is_err() {
            return None;
        }
    }
    match feed.finish() {
        Ok(instances) => Some(instances.len()),
        Err(_) => None,
    }
}

#[test]
fn a_feed_takes_pieces_of_each_size(rt: HostRuntime) -> Result<(), Fail> {
    for count in SIZES.iter() {
        let bytes = repeated(&rt, b"instance of \xc3\xa9{};", *count)?;
        for piece in [1, 7, 64, 4096, MAX_DOCUMENT] {
            holds(count_fed(&rt, &bytes, piece) == Some(*count), *count)?;
        }
    }
    Ok(())
}

#[test]
fn a_feed_takes_pieces_up_to_its_limit(rt: HostRuntime) -> Result<(), Fail> {
    let bytes = repeated(&rt, b" ", MAX_DOCUMENT)?;
    for piece in [1, 4095, MAX_DOCUMENT] {
        holds(count_fed(&rt, &bytes, piece) == Some(0), piece)?;
    }
    Ok(())
}

fn prints(rt: &impl AllocGlobal, error: &impl Display, words: &str) -> Result<bool, Fail> {
    Ok(error.to_string(rt.alloc())?.as_str() == words)
}

#[test]
fn errors_are_printed(rt: HostRuntime) -> Result<(), Fail> {
    let words = "the document is longer than 8388608 bytes";
    holds(prints(&rt, &FeedError::TooLong, words)?, words)?;
    holds(prints(&rt, &FeedError::Memory, "out of memory")?, "memory")
}
