//! The command `rehearse`: the starts of a script, in memory.
ghost use Rattle.std.specs.Prelude.{◌≡◌, ◌∷◌, [], codes, map, string_bytes, IfErr, IfOk, IsFalse, IsTrue, List, Ok, ℕ};
ghost use Rattle.gate_log.specs.Standing.{AllStand, Any};
ghost use Rattle.node_store.specs.Stands.{Stands};
ghost use Rattle.pull_serving.specs.ServerLink.{Becomes};
ghost use Rattle.rehearsal.specs.Objects.{objects};
ghost use Rattle.resource_kinds.specs.Kinds.{calls_of};
ghost use Rattle.lcm_program.specs.Input.{IsInput, IsUnread};
ghost use Rattle.lcm_program.specs.Rehearse.{AnswersRehearsal, StartsNode};
ghost use Rattle.lcm_program.specs.Words.{IsAsked, IsUsageOf};

use crate::input::{Unread, read_within};
use crate::program::node_words_on_host;
use crate::words::UsageError;
use dsc_node::InputError;
use dsc_outside::{Clock, Disk, Ends, Host, Link, Source};
use memory_outside::{
    FixedClock, NullSink, ReliableDisk, ReliableHost, ReliableSource, StoppedDisk, StoppedHost,
};
use mof_values::Memory;
use pull_outside::{ReliableShelf, Shelf};
use pull_serving::ServerLink;
use rehearsal::{MAX_SCRIPT, ScriptError, Starter, play, read_script};
use resource_kinds::Kinds;
use std::alloc::Global;

/// Returns whether the arguments ask for a rehearsal.
///
/// # Errors
///
/// They begin with `rehearse`, and another argument follows.
pub fn asks_rehearsal(arguments: &[String]) -> Result<bool, UsageError>
    ensures yes { IfOk result (λ asks. IsTrue asks
        → map string_bytes arguments.now ≡ codes "rehearse" ∷ []) }
    ensures no { IfOk result (λ asks. IsFalse asks → (rest : List (List ℕ))
        → map string_bytes arguments.now ≡ codes "rehearse" ∷ rest → ⊥) }
    ensures usage { IfErr result (λ error. IsUsageOf IsAsked (map string_bytes arguments.now)
        error.word) }
{
    match arguments {
        [first, rest @ ..] if first.as_str() == "rehearse" => match rest {
            [] => Ok(true),
            _ => Err(UsageError { word: 1 }),
        },
        _ => Ok(false),
    }
}

/// Reads the script to its end and plays it: the lines of its starts.
pub fn read_and_play<S: Source>(alloc: Global, input: &mut S) -> Result<Vec<u8>, Unread>
    ensures ok { IfOk result (λ text. IsInput (AnswersRehearsal ⟦<NodeStarter as Starter>⟧)
        (S.left input.old) (Ok text.items)) }
    ensures err { IfErr result (λ e. IsUnread (AnswersRehearsal ⟦<NodeStarter as Starter>⟧) e
        (S.left input.old) (S.faults input.old) (S.faults input.new)) }
{
    let script = match read_within(alloc, input, MAX_SCRIPT) {
        Ok(script) => script,
        Err(unread) => return Err(unread),
    };
    let steps = match read_script(alloc, &script) {
        Ok(steps) => steps,
        Err(ScriptError::Line { line }) => {
            return Err(Unread::Refused(InputError::Script { line }));
        }
        Err(ScriptError::Memory) => return Err(Unread::Memory),
    };
    match play::<NodeStarter>(alloc, &steps) {
        Ok(text) => Ok(text.into_bytes()),
        Err(Memory) => Err(Unread::Memory),
    }
}

/// Starts the node as the program does, and keeps nothing of what it prints.
pub struct NodeStarter;

impl Starter for NodeStarter {
    ghost does = { StartsNode ⟦<ReliableSource as Ends>⟧ ⟦<NullSink as Ends>⟧
        ⟦<ReliableDisk as Disk>⟧ ⟦<ReliableHost as Host>⟧
        ⟦<ServerLink<ReliableDisk, ReliableShelf> as Link>⟧ ⟦<FixedClock as Clock>⟧ };

    ghost does_to_stop = { StartsNode ⟦<ReliableSource as Ends>⟧ ⟦<NullSink as Ends>⟧
        ⟦<StoppedDisk as Disk>⟧ ⟦<StoppedHost as Host>⟧
        ⟦<ServerLink<ReliableDisk, ReliableShelf> as Link>⟧ ⟦<FixedClock as Clock>⟧ };

    fn start(
        alloc: Global,
        words: &[String],
        input: &mut ReliableSource,
        disk: &mut ReliableDisk,
        kinds: &mut Kinds<ReliableHost>,
        link: &mut ServerLink<ReliableDisk, ReliableShelf>,
        clock: &mut FixedClock,
    ) -> &'static str {
        let mut output = NullSink;
        node_words_on_host(alloc, words, input, &mut output, disk, kinds, link, clock).name()
    }

    fn start_to_stop(
        alloc: Global,
        words: &[String],
        input: &mut ReliableSource,
        disk: &mut StoppedDisk,
        kinds: &mut Kinds<StoppedHost>,
        link: &mut ServerLink<ReliableDisk, ReliableShelf>,
        clock: &mut FixedClock,
    ) -> &'static str {
        let mut output = NullSink;
        node_words_on_host(alloc, words, input, &mut output, disk, kinds, link, clock).name()
    }
}
