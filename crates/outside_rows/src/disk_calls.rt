//! Calls of a disk and what they answer, as rows of tables.
ghost use Rattle.std.specs.Prelude.{◌≤◌, IfSome, length};

use dsc_outside::{Disk, Failed};
use std::alloc::{AllocError, Global};

/// A call of a disk.
#[derive(Clone, Copy)]
pub enum Ask<'a> {
    Length,

    /// To read from that place on, into a slice of that many bytes.
    Read(u64, usize),

    Write(u64, &'a str),
    Cut(u64),
    Sync,
}

/// What the call answers.
#[derive(Clone, Copy)]
pub enum Answer<'a> {
    Number(u64),
    Bytes(&'a str),
    Done,
    Lost,
}

/// A call of a disk, and its answer.
pub type DiskRow<'a> = (Ask<'a>, Answer<'a>);

fn is_text(bytes: &[u8], want: &Answer<'_>) -> bool {
    match want {
        Answer::Bytes(text) => bytes == text.as_bytes(),
        _ => false,
    }
}

fn is_read<D: Disk>(
    alloc: Global,
    disk: &mut D,
    at: u64,
    capacity: usize,
    want: &Answer<'_>,
) -> Result<bool, AllocError> {
    let mut buffer = vec![in alloc; 0; capacity]?;
    Ok(match disk.read_at(at, &mut buffer) {
        Ok(count) => is_text(&buffer[..count], want),
        Err(Failed) => matches!(want, Answer::Lost),
    })
}

fn is_change(outcome: Result<(), Failed>, want: &Answer<'_>) -> bool {
    match (outcome, want) {
        (Ok(()), Answer::Done) => true,
        (Err(Failed), Answer::Lost) => true,
        _ => false,
    }
}

/// Answers whether the call of a disk that has that many bytes, where it shows them, answers that.
pub fn is_answered<D: Disk>(
    alloc: Global,
    disk: &mut D,
    known: u64,
    row: &DiskRow<'_>,
) -> Result<bool, AllocError>
    requires { IfSome (D.shown disk.old) (λ held. known ≤ length held) }
{
    let (ask, want) = row;
    Ok(match ask {
        Ask::Length => match (disk.length(), want) {
            (Ok(count), Answer::Number(number)) => count == *number,
            (Err(Failed), Answer::Lost) => true,
            _ => false,
        },
        Ask::Read(at, capacity) => is_read(alloc, disk, *at, *capacity, want)?,
        Ask::Write(at, bytes) => {
            *at <= known && is_change(disk.write_at(*at, bytes.as_bytes()), want)
        }
        Ask::Cut(to) => *to <= known && is_change(disk.cut(*to), want),
        Ask::Sync => is_change(disk.sync(), want),
    })
}
