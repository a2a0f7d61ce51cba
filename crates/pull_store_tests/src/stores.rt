//! Stores, and what calls leave of them.
use crate::calling::call_all;
use crate::gap_disk::GapDisk;
use dsc_outside::Disk;
use memory_outside::MemoryDisk;
use pull_store::{BANK, PullError, PullStore, Row, StoredReport, open_pull};
use std::alloc::{AllocError, Global};

// How many bytes are kept in front of the second bank.
const FRONT: u64 = 65_536;

/// What a store keeps: how many rows, and these in a line.
#[derive(Drop)]
pub struct Kept {
    pub rows: usize,
    pub line: String,
}

/// What calls left.
#[derive(Drop)]
pub struct Left {
    /// What came of them; `Spent` where the disk failed, and they were made once more.
    pub answer: Result<(), PullError>,

    /// What is kept in memory.
    pub kept: Kept,

    /// How many calls of the disk were made.
    pub calls: u64,

    /// What the next opening finds.
    pub bytes: Vec<u8>,
}

// Opens the store of a disk and makes the calls of these words, again where the disk failed: what comes of it then.
fn called<D: Disk>(
    alloc: Global,
    disk: &mut D,
    words: &str,
) -> Result<(Result<(), PullError>, Kept), PullError> {
    let mut store = open_pull(alloc, disk)?;
    let mut answer = call_all(alloc, &mut store, disk, words);
    if store.is_spent() {
        answer = call_all(alloc, &mut store, disk, words);
    }
    let kept = Kept {
        rows: store.rows().len(),
        line: shown(alloc, &store)?,
    };
    Ok((answer, kept))
}

/// Opens the store of a disk and makes the calls of these words, up to the first that fails.
pub fn call_over(alloc: Global, mut disk: GapDisk, words: &str) -> Result<Left, PullError> {
    let (answer, kept) = called(alloc, &mut disk, words)?;
    let calls = disk.kept.calls().len() as u64;
    Ok(Left {
        answer,
        kept,
        calls,
        bytes: disk.kept.after_stop()?,
    })
}

/// A disk for two banks that has these of its bytes; the zeros that a store writes on the way to the second bank are not kept.
pub fn two_banks(alloc: Global, kept: MemoryDisk) -> GapDisk {
    GapDisk {
        kept,
        begin: FRONT,
        length: (8 + BANK) - FRONT,
        filling: Vec::new(alloc),
    }
}

/// What the calls of these words leave of a store of these bytes.
pub fn after(alloc: Global, bytes: Vec<u8>, words: &str) -> Result<Left, PullError> {
    let kept = MemoryDisk::new(bytes, Vec::new(alloc))?;
    call_over(alloc, two_banks(alloc, kept), words)
}

/// What they leave of a new store.
pub fn run(alloc: Global, words: &str) -> Result<Left, PullError> {
    after(alloc, Vec::new(alloc), words)
}

/// The rows of the store of these bytes in a line.
pub fn shown_in(alloc: Global, bytes: Vec<u8>) -> Result<String, PullError> {
    let left = after(alloc, bytes, "")?;
    Ok(left.kept.line)
}

// The rows of the agents 0 and A to H in a line: of each the agent, the name of its node, and after a colon each the job and the
// body of its reports.
fn shown(alloc: Global, store: &PullStore) -> Result<String, AllocError> {
    let mut line = String::new(alloc);
    for agent in b"\0ABCDEFGH" {
        if let Some(row) = store.agent(u128::from(*agent)) {
            push_row(&mut line, *agent, row)?;
        }
        if let Some(reports) = store.reports(u128::from(*agent)) {
            push_reports(&mut line, reports)?;
        }
    }
    Ok(line)
}

fn push_row(line: &mut String, agent: u8, row: &Row) -> Result<(), AllocError> {
    if !line.is_empty() {
        line.push(' ')?;
    }
    line.push(char::from(agent))?;
    line.extend(row.registration.node_name.as_slice().iter().copied())
}

fn push_reports(line: &mut String, reports: &[StoredReport]) -> Result<(), AllocError> {
    for report in reports {
        line.push(':')?;
        line.push(char::from(u8::try_from(report.job).unwrap_or(b'?')))?;
        push_body(line, report.body.as_slice())?;
    }
    Ok(())
}

fn push_body(line: &mut String, body: &[u8]) -> Result<(), AllocError> {
    for byte in body {
        line.push(char::from(*byte))?;
    }
    Ok(())
}
