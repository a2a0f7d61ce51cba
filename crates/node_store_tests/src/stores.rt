//! Stores, and events that are committed to them.
ghost use Rattle.std.specs.Prelude.{IfOk};
ghost use Rattle.node_state.specs.Table.{IsWithin};
ghost use Rattle.node_store.specs.Store.{IsReady};

use crate::words::bodies_of;
use dsc_outside::Disk;
use memory_outside::MemoryDisk;
use node_state::{Event, Node, SharedParts};
use node_store::{Body, NodeStore, StoreError, open_store, read_body};
use std::alloc::{AllocError, Global};
use std::fmt::Write;
use store_fields::FieldError;

// The event of this body.
fn event_of(alloc: Global, body: &[u8]) -> Result<Event, StoreError>
    ensures { IfOk result IsWithin }
{
    match read_body(alloc, body) {
        Ok(Body::Event(event)) => Ok(event),
        Ok(Body::Piece(_)) | Err(FieldError::Wrong) => Err(StoreError::NotAStore { at: 0 }),
        Err(FieldError::Memory) => Err(StoreError::Memory),
    }
}

fn commit_body<D: Disk>(
    alloc: Global,
    store: &mut NodeStore,
    disk: &mut D,
    body: &[u8],
) -> Result<(), StoreError>
    requires { IsReady D.Disk disk.old store.old }
    ensures { IsReady D.Disk disk.new store.new }
{
    let event = event_of(alloc, body)?;
    store.commit(disk, event)
}

// Commits the events of these bodies, up to the first that is not committed.
fn commit_all<D: Disk>(
    alloc: Global,
    store: &mut NodeStore,
    disk: &mut D,
    bodies: &[Vec<u8>],
) -> Result<(), StoreError>
    requires { IsReady D.Disk disk.old store.old }
    ensures { IsReady D.Disk disk.new store.new }
{
    for body in bodies {
        commit_body(alloc, store, disk, body)?;
    }
    Ok(())
}

// Opens the store of a disk and commits the events of these bodies, again where the disk failed: what comes of it then, and the
// node in a line.
fn committed<D: Disk>(
    alloc: Global,
    disk: &mut D,
    bodies: &[Vec<u8>],
) -> Result<(Result<(), StoreError>, String), StoreError> {
    let mut store = open_store(alloc, disk)?;
    let mut answer = commit_all(alloc, &mut store, disk, bodies);
    if store.is_spent() {
        answer = commit_all(alloc, &mut store, disk, bodies);
    }
    Ok((answer, shown(alloc, store.state())?))
}

/// What commits to a store left.
#[derive(Drop)]
pub struct Left {
    /// What came of them; `Spent` where the disk failed, and they were tried once more.
    pub answer: Result<(), StoreError>,

    /// The node in memory, in a line.
    pub line: String,

    /// How many calls of the disk were made.
    pub calls: u64,

    /// What the next opening finds.
    pub bytes: Vec<u8>,
}

/// Opens the store of a disk and commits the events of these bodies, up to the first that is not committed.
pub fn commit_to(
    alloc: Global,
    mut disk: MemoryDisk,
    bodies: &[Vec<u8>],
) -> Result<Left, StoreError> {
    let (answer, line) = committed(alloc, &mut disk, bodies)?;
    let calls = disk.calls().len() as u64;
    Ok(Left {
        answer,
        line,
        calls,
        bytes: disk.after_stop()?,
    })
}

/// What the events of the words of a list and of one more leave of a new store.
pub fn run(alloc: Global, words: &str, last: &str) -> Result<Left, StoreError> {
    let bodies = bodies_of(alloc, words, last)?;
    let disk = MemoryDisk::new(Vec::new(alloc), Vec::new(alloc))?;
    commit_to(alloc, disk, &bodies)
}

/// The line of the node after these events.
pub fn line_of(alloc: Global, words: &str, last: &str) -> Result<String, StoreError> {
    let left = run(alloc, words, last)?;
    Ok(left.line)
}

/// What the store of these bytes keeps.
pub fn kept_in(alloc: Global, bytes: Vec<u8>) -> Result<String, StoreError> {
    let disk = MemoryDisk::new(bytes, Vec::new(alloc))?;
    let left = commit_to(alloc, disk, &[])?;
    Ok(left.line)
}

/// The node in a line: its agent, its meta-configuration's server, its marks, the names of the parts of each stage, the jobs of
/// the reports, each after `s` where it was sent, and the next job.
pub fn shown(alloc: Global, node: &Node) -> Result<String, AllocError> {
    let mut line = String::new(alloc);
    line.push_str(if node.agent.is_some() { "agent " } else { "" })?;
    line.push_str(if node.meta.server.is_some() {
        "server "
    } else {
        ""
    })?;
    line.push_str(if node.registered { "registered " } else { "" })?;
    line.push_str(if node.reboot { "reboot " } else { "" })?;
    push_slot(&mut line, "pending ", &node.pending)?;
    push_slot(&mut line, "current ", &node.current)?;
    push_slot(&mut line, "previous ", &node.previous)?;
    for kept in node.reports.as_slice() {
        let mark = if kept.sent { 's' } else { 'r' };
        write!(line, "{mark}{} ", kept.report.job)?;
    }
    write!(line, "job {}", node.next_job)?;
    Ok(line)
}

fn push_slot(line: &mut String, word: &str, slot: &Option<SharedParts>) -> Result<(), AllocError> {
    if let Some(parts) = slot {
        line.push_str(word)?;
        for part in parts.as_slice() {
            line.extend(part.name.as_slice().iter().copied())?;
            line.push(' ')?;
        }
    }
    Ok(())
}
