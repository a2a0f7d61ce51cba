//! Files that are opened as stores.
ghost use Rattle.std.specs.Prelude.{⊤};

use super::stores::{add_two, bodies_of, small, with_memory};
use gate_log::{LogError, Replay, TakeError, replay_log};
use memory_outside::MemoryDisk;
use std::alloc::Global;
use std::test::Fail;

/// What an opening answers: how many bodies there are, or the byte at which no store stands.
type Row<'a> = (&'a [u8], Result<usize, u64>);

fn answer(alloc: Global, bytes: &[u8]) -> Result<Result<usize, u64>, LogError> {
    let mut disk = with_memory(MemoryDisk::new(bytes.to_vec(alloc)?, Vec::new(alloc)))?;
    match bodies_of(alloc, &mut disk) {
        Ok(bodies) => Ok(Ok(bodies.as_slice().len())),
        Err(LogError::NotAStore { at }) => Ok(Err(at)),
        Err(error) => Err(error),
    }
}

const FILES: &[Row<'_>] = &[
    (b"", Ok(0)),
    (b"anything!", Ok(0)),
    (&[0xFF; 10], Err(0)),
    (b"DSCSTOX1\x00\x00", Err(6)),
    (b"DSCSTOR1\x00\xFF\xFF", Ok(0)),
    (b"DSCSTOR9\x57\xA5\xA5", Ok(0)),
    (b"DSCSTOR1\xA5\x00\x00", Err(11)),
    (b"DSCSTOR1\xA5\x00\x00\x00\x21", Err(9)),
    (b"DSCSTOR1\xA5\x00\x00\x00\x03ab", Err(15)),
    (b"DSCSTOR1\xA5\x00\x00\x00\x01a", Err(14)),
    (b"DSCSTOR1\xA5\x00\x00\x00\x01a\x00", Ok(1)),
    (b"DSCSTOR1\xA5\x00\x00\x00\x01a\xA5", Err(15)),
    (b"DSCSTOR2\x00\x00", Err(10)),
];

fn first_wrong(alloc: Global, rows: &[Row<'_>]) -> Result<Option<usize>, LogError> {
    for (index, (bytes, wanted)) in rows.iter().enumerate() {
        if answer(alloc, bytes)? != *wanted {
            return Ok(Some(index));
        }
    }
    Ok(None)
}

#[test]
fn a_file_is_a_store_or_fails_at_its_first_wrong_byte(rt: HostRuntime) -> Result<(), Fail> {
    assert!(rt; first_wrong(rt.alloc(), FILES)? == None);
    Ok(())
}

// Files, and what an opening leaves of them.
const LEFT: &[(&[u8], &[u8])] = &[
    (b"", b"DSCSTOR1\0"),
    (b"anything!", b"DSCSTOR1\0"),
    (b"DSCSTOR1\x57\xFF\xFF", b"DSCSTOR1\x57"),
    (
        b"DSCSTOR9\xA5\0\0\0\x01a\0\0\0\0\x02bc",
        b"DSCSTOR9\xA5\0\0\0\x01a\0",
    ),
];

#[test]
fn an_opening_cuts_what_stands_after_the_closed_gate(rt: HostRuntime) -> Result<(), Fail> {
    let alloc = rt.alloc();
    for (bytes, left) in LEFT {
        let mut disk = MemoryDisk::new(bytes.to_vec(alloc)?, Vec::new(alloc))?;
        bodies_of(alloc, &mut disk)?;
        assert!(rt; disk.bytes() == *left);
    }
    Ok(())
}

// A store of two bodies of twenty bytes has thirteen bytes left, and one cell too long for them fails at its length.
fn capacity_is_what_is_left(alloc: Global) -> Result<bool, LogError> {
    let mut disk = with_memory(MemoryDisk::new(Vec::new(alloc), Vec::new(alloc)))?;
    let log = add_two(alloc, &mut disk)?;
    let mut bytes = with_memory(disk.after_stop())?;
    let is_enough = !log.has_room(20) && !log.has_room(9) && log.has_room(8) && log.has_room(0);
    bytes.truncate(58);
    bytes.extend_from_slice(b"\xA5\x00\x00\x00\x09123456789\x00")?;
    Ok(is_enough && answer(alloc, &bytes)? == Err(59))
}

#[test]
fn the_capacity_of_a_bank_is_what_is_left(rt: HostRuntime) -> Result<(), Fail> {
    assert!(rt; capacity_is_what_is_left(rt.alloc())?);
    Ok(())
}

// Whether an opening whose first sync fails answers Disk, and the next one opens a new store.
fn fails_and_opens(alloc: Global) -> Result<bool, LogError> {
    let mut disk = with_memory(MemoryDisk::new(Vec::new(alloc), vec![in alloc; 0]?))?;
    match bodies_of(alloc, &mut disk) {
        Err(LogError::Disk) => Ok(bodies_of(alloc, &mut disk)?.as_slice().is_empty()),
        _ => Ok(false),
    }
}

#[test]
fn a_sync_that_fails_fails_the_opening(rt: HostRuntime) -> Result<(), Fail> {
    assert!(rt; fails_and_opens(rt.alloc())?);
    Ok(())
}

/// Takes this many bodies, and refuses the next.
#[derive(Drop)]
struct First {
    left: u32,
}

impl Replay for First {
    ghost took = { λ _ _. ⊤ };

    ghost refused = { λ _ _ _. ⊤ };

    fn take(&mut self, _body: &[u8]) -> Result<(), TakeError> {
        match self.left.checked_sub(1) {
            Some(left) => {
                self.left = left;
                Ok(())
            }
            None => Err(TakeError::Refused),
        }
    }
}

// Where an opening fails whose replay takes that many of two bodies of twenty bytes, and whether the file is as it was.
fn refused_at(alloc: Global, left: u32) -> Result<(Option<u64>, bool), LogError> {
    let mut disk = with_memory(MemoryDisk::new(Vec::new(alloc), Vec::new(alloc)))?;
    add_two(alloc, &mut disk)?;
    let bytes = with_memory(disk.after_stop())?;
    let mut disk = with_memory(MemoryDisk::new(bytes.to_vec(alloc)?, Vec::new(alloc)))?;
    let at = match replay_log(alloc, &mut disk, small(), &mut First { left }) {
        Ok(_) => None,
        Err(LogError::NotAStore { at }) => Some(at),
        Err(error) => return Err(error),
    };
    Ok((at, with_memory(disk.after_stop())? == bytes))
}

#[test]
fn a_body_that_is_refused_is_where_the_file_fails(rt: HostRuntime) -> Result<(), Fail> {
    for (left, at) in [(0, Some(13)), (1, Some(38)), (2, None)] {
        assert!(rt; refused_at(rt.alloc(), left)? == (at, true), "{left}");
    }
    Ok(())
}
