//! The node program, a Local Configuration Manager for a machine that a folder stands for.
//!
//! `node` does one command; its contract says what it printed, what it tested, and why it refused. `node_over` is the
//! same over any machine, `node_commands` over one that also runs programs. `main` makes the real objects, hands them
//! to `node`, or where programs are on to `node_commands`, and ends with the number of the status.
//!
//! Where a thing is:
//! - the whole program's promise: `node` and `node_over` in `src/program.rt`, `node_commands` in `src/programs.rt`
//! - what a command promises: its row of the table in `specs/Did.antt`, a record in a file of its own; the objects that
//!   it works with and what is known of them `specs/Objects.antt`
//! - what a command promises that prints a text and changes nothing: `specs/Tool.antt`, one relation of the input to
//!   the text or the error; as `specs/Canon.antt` with `src/canon.rt`, `specs/Check.antt` with `src/check.rt`.
//!   `ran_tool` of `proofs/Tools.antt` proves each
//! - what a command promises that starts the node: `specs/Started.antt`, over the table and the headline of `dsc_node`,
//!   and what holds besides over a host (`specs/Further.antt`), and with commands (`specs/FurtherCommands.antt`),
//!   which `proofs/FurtherRows.antt` carries into each row; `src/starts.rt`; that it is not refused where its input is
//!   valid and nothing failed: `specs/Complete.antt`, `proofs/Completing.antt`
//! - with programs on, within how many starts what is Pending becomes Current: `specs/ConvergingCommands.antt`,
//!   `src/laws.rt`, `proofs/ConvergingCommands.antt`
//! - the arguments of the command line: `src/words.rt`, `specs/Words.antt`; what stands before them
//!   `src/command_line.rt`, `specs/CommandLine.antt`
//! - which instances, document or meta-configuration an input is, and why it is refused: `src/input.rt`,
//!   `specs/Input.antt` (`ReadsMeta`); that an input is read in one way `proofs/Readings.antt`; which status an input
//!   allows `specs/Answers.antt`; the document that a script gives a node `src/compile.rt`, `specs/Compile.antt`
//! - how an answer is printed, how a refused command ends, and a start: `src/printing.rt`, `specs/Printed.antt`,
//!   `specs/Endings.antt`
//! - the printed text of a refusal: `src/refusal.rt`, `specs/Refusal.antt`; of an input `src/merge_words.rt`,
//!   `src/mof_words.rt`, `src/meta_words.rt`, `src/compile_words.rt`, `specs/InputWords.antt`; of what a server gave
//!   `src/peer_words.rt`, `specs/PeerWords.antt`
//! - the command `generate`: `src/generate.rt`, `specs/Generate.antt`
//! - the command `rehearse`: `src/rehearse.rt`, `specs/Rehearse.antt`; a start in it is `node_words` of
//!   `src/program.rt`, `specs/DidWords.antt`, and with it a start of `dsc_node`, or it leaves the disk:
//!   `specs/StartsOrRests.antt`, `src/laws.rt`; to which node it leads, and that its trace is true of the machine that
//!   the start before it left: `specs/RehearsedStarts.antt`, `src/laws.rt`, `proofs/RehearsedStarts.antt`,
//!   `proofs/TrueTraces.antt`; where the parts of its node come from: `specs/RehearsedParts.antt`,
//!   `proofs/RehearsedParts.antt`
#![tactic(auto)]

ghost use Rattle.std.specs.Prelude.{◌≡◌, [], IfOk};
ghost use Rattle.resource_kinds.specs.Kinds.{calls_of};

mod canon;
mod check;
mod checksum;
mod command_line;
mod compile;
mod compile_words;
mod generate;
mod input;
mod laws;
mod merge_words;
mod meta_words;
mod mof_words;
mod order;
mod peer_words;
mod printing;
mod program;
mod programs;
mod refusal;
mod rehearse;
mod starts;
mod streams;
mod test;
mod words;

pub use canon::read_canonical;
pub use check::read_count;
pub use checksum::read_checksum;
use command_kind::Commands;
use command_line::CommandLine;
pub use compile::read_compiled;
use dsc_network::TcpLink;
use dsc_node::Status;
pub use generate::repair_generated;
pub use input::{
    Unread, read_bytes, read_document, read_instances, read_meta, read_ordered, read_within,
};
pub use laws::{
    rehearsed_starts_do_their_work, starts_with_commands_converge, words_start_or_rest,
};
pub use order::read_order;
use process_spawner::ProcessSpawner;
pub use program::{node, node_over, node_words, node_words_on_host};
pub use programs::node_commands;
use real_outside::{
    FileDisk, FolderHost, InSource, OutSink, SystemClock, arguments, hold_standard_descriptors,
    moment,
};
pub use refusal::{is_refusal, refusal_line};
pub use rehearse::{NodeStarter, asks_rehearsal, read_and_play};
pub use resource_kinds::{Entry, Failure, Kinds, Resources, SetAnswer, TestAnswer};
pub use starts::{push, push_part, register, set_meta, start_node};
use std::alloc::AllocError;
use std::process::ExitCode;
pub use streams::{ReadError, read_all};
pub use words::{Command, UsageError, read_words};

type Machine<'a> = Kinds<FolderHost<&'a HostRuntime>>;

fn main(rt: HostRuntime) -> ExitCode {
    let Ok(_held) = hold_standard_descriptors(&rt) else {
        return ExitCode::from(Status::WriteFault.number());
    };
    let status = match arguments(&rt) {
        Ok(arguments) => run_node(&rt, &CommandLine::of(&arguments)),
        Err(AllocError) => Status::Memory,
    };
    ExitCode::from(status.number())
}

// Makes the real objects, which touch nothing before their first call, and does what the line asks for.
fn run_node(rt: &HostRuntime, line: &CommandLine) -> Status {
    let store = match String::from_str(rt.alloc(), line.store) {
        Ok(store) => store,
        Err(AllocError) => return Status::Memory,
    };
    let kinds = match machine(rt, line) {
        Ok(kinds) => kinds,
        Err(AllocError) => return Status::Memory,
    };
    let disk = FileDisk::new(rt, store);
    if line.programs {
        run_with_programs(rt, line.words, disk, kinds)
    } else {
        run_without_programs(rt, line.words, disk, kinds)
    }
}

// The machine that HOST stands for, without the node's own store; no resource of it was asked for.
fn machine<'a>(rt: &'a HostRuntime, line: &CommandLine) -> Result<Machine<'a>, AllocError>
    ensures { IfOk result (λ kinds. calls_of kinds ≡ []) }
{
    let host = String::from_str(rt.alloc(), line.host)?;
    let own = String::from_str(rt.alloc(), line.store)?;
    let folder = FolderHost::new(rt, host, Some(own), moment(rt));
    Ok(Kinds::new(rt.alloc(), folder))
}

fn run_without_programs(
    rt: &HostRuntime,
    words: &[String],
    mut disk: FileDisk<&HostRuntime>,
    mut kinds: Machine,
) -> Status
    requires { calls_of kinds ≡ [] }
{
    node(
        rt.alloc(),
        words,
        &mut InSource::new(rt.reader()),
        &mut OutSink::new(rt),
        &mut disk,
        &mut kinds,
        &mut TcpLink::new(rt),
        &mut SystemClock::new(rt),
    )
}

// What the programs print goes to the standard error.
fn run_with_programs(
    rt: &HostRuntime,
    words: &[String],
    mut disk: FileDisk<&HostRuntime>,
    kinds: Machine,
) -> Status {
    let spawner = ProcessSpawner::new(rt, rt.stderr());
    node_commands(
        rt.alloc(),
        words,
        &mut InSource::new(rt.reader()),
        &mut OutSink::new(rt),
        &mut disk,
        &mut Commands::new(rt.alloc(), kinds, spawner),
        &mut TcpLink::new(rt),
        &mut SystemClock::new(rt),
    )
}
