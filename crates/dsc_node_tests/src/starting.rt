//! One start over what earlier ones left.
ghost use Rattle.std.specs.Prelude.{IfOk};
ghost use Rattle.meta_config.specs.Parts.{IsMeta};
ghost use Rattle.dsc_node.specs.Commands.{IsTaken};

use dsc_node::{Command, StartEnd, Status, start};
use memory_outside::{HostContents, MemoryClock, MemoryDisk, MemoryHost, MemoryLink};
use meta_config::{Meta, parts_order, read_meta};
use mof_values::{Bytes, Memory, Text};
use resource_kinds::Kinds;
use std::alloc::Global;

/// What starts leave: the bytes of the store, and what the host holds.
#[derive(Drop)]
pub struct Left {
    pub store: Vec<u8>,
    pub host: HostContents,
}

/// What goes wrong in a start.
#[derive(Drop)]
pub struct Trouble<'a> {
    /// The calls of the disk that fail, counted from 0.
    pub disk: &'a [u64],

    /// The calls of the host that fail, counted from 0.
    pub host: &'a [u64],

    /// The calls of the link that fail, counted from 0.
    pub link: &'a [u64],

    /// The calls of the clock that fail, counted from 0.
    pub clock: &'a [u64],

    /// Whether the clock is set back between its first reading and its second.
    pub is_set_back: bool,
}

/// How a start ended, and how many calls of the disk it made.
#[derive(Drop)]
pub struct Outcome {
    pub status: Status,
    pub lines: String,
    pub calls: usize,
}

impl Trouble<'static> {
    /// Nothing does.
    pub fn none() -> Trouble<'static> {
        Trouble {
            disk: &[],
            host: &[],
            link: &[],
            clock: &[],
            is_set_back: false,
        }
    }
}

/// The command that the word is, with this text.
fn command_of(alloc: Global, word: &str, document: &str) -> Result<Command, Memory>
    ensures { IfOk result IsTaken }
{
    Ok(match word {
        "init" => Command::Init(16),
        "meta" => return declared(alloc, document),
        "register" => Command::Register(Text::from_utf8(alloc, document)?),
        "pull" => Command::Pull,
        "push" => Command::Push(None, Bytes::of(document.as_bytes().to_vec(alloc)?)),
        _ => Command::Consistency,
    })
}

// The command that gives the node this meta-configuration.
fn declared(alloc: Global, text: &str) -> Result<Command, Memory>
    ensures { IfOk result IsTaken }
{
    let meta = meta_of(alloc, text)?;
    match parts_order(alloc, &meta) {
        Ok(_) => Ok(Command::Meta(meta)),
        Err(_) => Err(Memory),
    }
}

fn meta_of(alloc: Global, text: &str) -> Result<Meta, Memory>
    ensures { IfOk result IsMeta }
{
    match read_meta(alloc, text.as_bytes()) {
        Ok(meta) => Ok(meta),
        Err(_) => Err(Memory),
    }
}

/// What a start runs over.
#[derive(Drop)]
struct Machine {
    disk: MemoryDisk,
    host: MemoryHost,
    link: MemoryLink,
    clock: MemoryClock,
}

/// What a start left of it, and how it ended.
#[derive(Drop)]
struct Ran {
    end: StartEnd,
    disk: MemoryDisk,
    host: HostContents,
}

/// One start by the command that the word is, with this text, over a link without an answer.
pub fn started(
    alloc: Global,
    left: Left,
    word: &str,
    document: &str,
    trouble: &Trouble<'_>,
) -> Result<(Outcome, Left), Memory> {
    answered(alloc, left, word, document, &[], trouble)
}

/// The same over a link with these answers.
pub fn answered(
    alloc: Global,
    left: Left,
    word: &str,
    document: &str,
    answers: &[&str],
    trouble: &Trouble<'_>,
) -> Result<(Outcome, Left), Memory> {
    let command = command_of(alloc, word, document)?;
    let link = link_of(alloc, answers, trouble)?;
    let clock = clock_of(alloc, trouble)?;
    let failing = trouble.host.to_vec(alloc)?;
    let machine = Machine {
        disk: disk_of(alloc, left.store, trouble)?,
        host: MemoryHost::of(left.host, failing, None),
        link,
        clock,
    };
    outcome_of(ended(alloc, command, machine))
}

fn link_of(alloc: Global, texts: &[&str], trouble: &Trouble<'_>) -> Result<MemoryLink, Memory> {
    let mut answers = Vec::new(alloc);
    for text in texts {
        answers.push(Bytes::of(text.as_bytes().to_vec(alloc)?))?;
    }
    Ok(MemoryLink::new(answers, trouble.link.to_vec(alloc)?))
}

fn disk_of(alloc: Global, store: Vec<u8>, trouble: &Trouble<'_>) -> Result<MemoryDisk, Memory> {
    MemoryDisk::of(store, trouble.disk.to_vec(alloc)?, None)
}

fn clock_of(alloc: Global, trouble: &Trouble<'_>) -> Result<MemoryClock, Memory> {
    let first = if trouble.is_set_back { 1_007 } else { 1_000 };
    let readings = [Some(first), Some(2_007 - first)].to_vec(alloc)?;
    Ok(MemoryClock::new(readings, trouble.clock.to_vec(alloc)?))
}

fn ended(alloc: Global, command: Command, machine: Machine) -> Ran
    requires { IsTaken command }
{
    let mut disk = machine.disk;
    let mut clock = machine.clock;
    let mut link = machine.link;
    let mut kinds = Kinds::new(alloc, machine.host);
    let end = start(alloc, command, &mut disk, &mut kinds, &mut link, &mut clock);
    Ran {
        end,
        disk,
        host: kinds.into_host().into_contents(),
    }
}

fn outcome_of(ended: Ran) -> Result<(Outcome, Left), Memory> {
    let calls = ended.disk.calls().len();
    let left = Left {
        store: ended.disk.after_stop()?,
        host: ended.host,
    };
    let outcome = Outcome {
        status: ended.end.status,
        lines: ended.end.lines,
        calls,
    };
    Ok((outcome, left))
}
