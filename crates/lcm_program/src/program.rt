//! The program: one command, from its arguments and its input to its output.
ghost use Rattle.std.specs.Prelude.{◌≡◌, ◌⊎◌, [], ◌∷◌, codes, map, string_bytes, IfErr, IfOk};
ghost use Rattle.dsc_outside.specs.Link.{GoesOn};
ghost use Rattle.dsc_outside.specs.LinkView.{view_of};
ghost use Rattle.gate_log.specs.Standing.{AllStand, Any};
ghost use Rattle.node_store.specs.Stands.{Stands};
ghost use Rattle.resource_kinds.specs.Kinds.{calls_of};
ghost use Rattle.dsc_node.specs.HostHeadline.{kinds_of, machine_of};
ghost use Rattle.lcm_program.specs.declared.words.Command.{Command};
ghost use Rattle.lcm_program.specs.Complete.{Completes};
ghost use Rattle.lcm_program.specs.Did.{Did, DidNothing};
ghost use Rattle.lcm_program.specs.DidWords.{AskOrNot, DidWords};
ghost use Rattle.lcm_program.specs.Objects.{known, objects};
ghost use Rattle.lcm_program.specs.Further.{nothing_further, further_of_host};
ghost use Rattle.lcm_program.specs.Rehearse.{Rehearsed};
ghost use Rattle.lcm_program.specs.Words.{Asked, IsAsked, IsForm, IsInRange};

use crate::canon::read_canonical;
use crate::check::read_count;
use crate::checksum::read_checksum;
use crate::compile::read_compiled;
use crate::generate::repair_generated;
use crate::order::read_order;
use crate::printing::{print_answer, print_run, print_status, print_text, print_unread};
use crate::rehearse::{NodeStarter, asks_rehearsal, read_and_play};
use crate::starts::{push, push_part, register, set_meta, start_node};
use crate::test::read_and_monitor;
use crate::words::{Command, UsageError, read_words};
use config_script::one_answer;
use dsc_node::{Command as StartCommand, Status, valid_starts_complete};
use dsc_outside::{Clock, Disk, Host, Link, Sink, Source};
use lcm_core::{repair_laws, trace_laws};
use meta_config::metas_read_back;
use mof_values::{Memory, Text};
use rehearsal::{Starter, one_reading};
use resource_kinds::{Kinds, Machine};
use std::alloc::{AllocError, Global};

/// Does what the arguments ask for over the kinds of resources of a host, and answers how it ended.
///
/// It is [`node_over`] on that machine. Beside its clauses the trace of each start is true of the host, what completes and what
/// holds together is as `specs/HostHeadline.antt` of `dsc_node` says, and the trace of each run of `test` is true of the host,
/// which it leaves as it was.
///
/// Where the command takes an input, it is read to its end first. The output is written after all other work.
pub fn node<S: Source, K: Sink, D: Disk, H: Host, L: Link, C: Clock>(
    alloc: Global,
    arguments: &[String],
    input: &mut S,
    output: &mut K,
    disk: &mut D,
    kinds: &mut Kinds<H>,
    link: &mut L,
    clock: &mut C,
) -> Status
    requires fresh { calls_of kinds.old ≡ [] }

    // What the arguments ask for was done, by the table of commands.
    ensures did { (command : Command) → IsForm command (map string_bytes arguments.now)
        → Did (known S.Ends K.Ends D.Disk (kinds_of H.Host) (machine_of H.Host) L.Link C.Clock)
        (further_of_host D.Disk H.Host C.Clock) command result
        (objects input.old output.old disk.old kinds.old link.old clock.old)
        (objects input.new output.new disk.new kinds.new link.new clock.new) }

    // A script was rehearsed: each start in it is one of the node by its words, over objects in memory.
    ensures rehearsed { map string_bytes arguments.now ≡ codes "rehearse" ∷ []
        → Rehearsed ⟦<NodeStarter as Starter>⟧
        (known S.Ends K.Ends D.Disk (kinds_of H.Host) (machine_of H.Host) L.Link C.Clock) result
        (objects input.old output.old disk.old kinds.old link.old clock.old)
        (objects input.new output.new disk.new kinds.new link.new clock.new) }

    // Arguments in no form ask for nothing, and are refused.
    ensures nothing { ((asked : Asked) → IsAsked asked (map string_bytes arguments.now) → ⊥)
        → DidNothing IsAsked (known S.Ends K.Ends D.Disk (kinds_of H.Host) (machine_of H.Host)
        L.Link C.Clock)
        (map string_bytes arguments.now) result
        (objects input.old output.old disk.old kinds.old link.old clock.old)
        (objects input.new output.new disk.new kinds.new link.new clock.new) }

    // A command that starts the node is not refused where its input is valid and nothing failed.
    ensures completes { (command : Command) → IsForm command (map string_bytes arguments.now)
        → Completes (known S.Ends K.Ends D.Disk (kinds_of H.Host) (machine_of H.Host) L.Link
        C.Clock)
        command result
        (objects input.old output.old disk.old kinds.old link.old clock.old)
        (objects input.new output.new disk.new kinds.new link.new clock.new) }

    // The link is one that it may become, and its exchanges are only added.
    ensures becomes { L.may_become link.old link.new }
    ensures goes_on { GoesOn (view_of L.Link link.old) (view_of L.Link link.new) }
{
    repair_laws();
    trace_laws();
    node_over(alloc, arguments, input, output, disk, kinds, link, clock)
}

/// Does what the arguments ask for on any machine, and answers how it ended.
///
/// Where the command takes an input, it is read to its end first. The output is written after all other work.
pub fn node_over<S: Source, K: Sink, D: Disk, M: Machine, L: Link, C: Clock>(
    alloc: Global,
    arguments: &[String],
    input: &mut S,
    output: &mut K,
    disk: &mut D,
    machine: &mut M,
    link: &mut L,
    clock: &mut C,
) -> Status
    requires fresh { M.trace machine.old ≡ [] }

    // What the arguments ask for was done, by the table of commands.
    ensures did { (command : Command) → IsForm command (map string_bytes arguments.now)
        → Did (known S.Ends K.Ends D.Disk M.Resources M.Machine.own L.Link C.Clock) nothing_further
        command result
        (objects input.old output.old disk.old machine.old link.old clock.old)
        (objects input.new output.new disk.new machine.new link.new clock.new) }

    // A script was rehearsed: each start in it is one of the node by its words, over objects in memory.
    ensures rehearsed { map string_bytes arguments.now ≡ codes "rehearse" ∷ []
        → Rehearsed ⟦<NodeStarter as Starter>⟧
        (known S.Ends K.Ends D.Disk M.Resources M.Machine.own L.Link C.Clock) result
        (objects input.old output.old disk.old machine.old link.old clock.old)
        (objects input.new output.new disk.new machine.new link.new clock.new) }

    // Arguments in no form ask for nothing, and are refused.
    ensures nothing { ((asked : Asked) → IsAsked asked (map string_bytes arguments.now) → ⊥)
        → DidNothing IsAsked (known S.Ends K.Ends D.Disk M.Resources M.Machine.own L.Link C.Clock)
        (map string_bytes arguments.now) result
        (objects input.old output.old disk.old machine.old link.old clock.old)
        (objects input.new output.new disk.new machine.new link.new clock.new) }

    // A command that starts the node is not refused where its input is valid and nothing failed.
    ensures completes { (command : Command) → IsForm command (map string_bytes arguments.now)
        → Completes (known S.Ends K.Ends D.Disk M.Resources M.Machine.own L.Link C.Clock)
        command result
        (objects input.old output.old disk.old machine.old link.old clock.old)
        (objects input.new output.new disk.new machine.new link.new clock.new) }

    // The link is one that it may become, and its exchanges are only added.
    ensures becomes { L.may_become link.old link.new }
    ensures goes_on { GoesOn (view_of L.Link link.old) (view_of L.Link link.new) }
{
    match asks_rehearsal(arguments) {
        Ok(true) => {
            one_reading();
            print_answer(alloc, output, read_and_play(alloc, input))
        }
        Ok(false) => node_words(alloc, arguments, input, output, disk, machine, link, clock),
        Err(UsageError { word }) => print_status(alloc, output, Status::Usage { word }),
    }
}

/// Does what [`node_words`] does over the kinds of resources of a host, where more holds of the starts and runs, as in [`node`].
pub fn node_words_on_host<S: Source, K: Sink, D: Disk, H: Host, L: Link, C: Clock>(
    alloc: Global,
    arguments: &[String],
    input: &mut S,
    output: &mut K,
    disk: &mut D,
    kinds: &mut Kinds<H>,
    link: &mut L,
    clock: &mut C,
) -> Status
    requires fresh { calls_of kinds.old ≡ [] }
    ensures did { DidWords
        (known S.Ends K.Ends D.Disk (kinds_of H.Host) (machine_of H.Host) L.Link C.Clock)
        (further_of_host D.Disk H.Host C.Clock) (map string_bytes arguments.now) result
        (objects input.old output.old disk.old kinds.old link.old clock.old)
        (objects input.new output.new disk.new kinds.new link.new clock.new) }
    ensures again { AllStand D.Disk disk.old Stands Any → AllStand D.Disk disk.new Stands Any }
{
    repair_laws();
    trace_laws();
    node_words(alloc, arguments, input, output, disk, kinds, link, clock)
}

/// Does what the arguments ask for on any machine, where that is no rehearsal, and answers how it ended. To it `rehearse` is a word that
/// begins no form.
///
/// Where the command takes an input, it is read to its end first. The output is written after all other work.
pub fn node_words<S: Source, K: Sink, D: Disk, M: Machine, L: Link, C: Clock>(
    alloc: Global,
    arguments: &[String],
    input: &mut S,
    output: &mut K,
    disk: &mut D,
    machine: &mut M,
    link: &mut L,
    clock: &mut C,
) -> Status
    requires fresh { M.trace machine.old ≡ [] }

    // The arguments ask for a command, or for none.
    ensures asked { AskOrNot (map string_bytes arguments.now) }

    // What the arguments ask for was done, by the table of commands.
    ensures did { (command : Command) → IsForm command (map string_bytes arguments.now)
        → Did (known S.Ends K.Ends D.Disk M.Resources M.Machine.own L.Link C.Clock) nothing_further
        command result
        (objects input.old output.old disk.old machine.old link.old clock.old)
        (objects input.new output.new disk.new machine.new link.new clock.new) }

    // Arguments in no form ask for nothing, and are refused.
    ensures nothing { ((command : Command) → IsForm command (map string_bytes arguments.now) → ⊥)
        → DidNothing IsForm (known S.Ends K.Ends D.Disk M.Resources M.Machine.own L.Link C.Clock)
        (map string_bytes arguments.now) result
        (objects input.old output.old disk.old machine.old link.old clock.old)
        (objects input.new output.new disk.new machine.new link.new clock.new) }

    // A command that starts the node is not refused where its input is valid and nothing failed.
    ensures completes { (command : Command) → IsForm command (map string_bytes arguments.now)
        → Completes (known S.Ends K.Ends D.Disk M.Resources M.Machine.own L.Link C.Clock)
        command result
        (objects input.old output.old disk.old machine.old link.old clock.old)
        (objects input.new output.new disk.new machine.new link.new clock.new) }

    // The link is one that it may become, and its exchanges are only added.
    ensures becomes { L.may_become link.old link.new }
    ensures goes_on { GoesOn (view_of L.Link link.old) (view_of L.Link link.new) }

    // Where every image of the disk stood for a node, it does so after it.
    ensures again { AllStand D.Disk disk.old Stands Any → AllStand D.Disk disk.new Stands Any }
{
    valid_starts_complete::<D, M, C>();
    metas_read_back();
    match read_words(arguments) {
        Ok(command) => do_command(alloc, command, input, output, disk, machine, link, clock),
        Err(UsageError { word }) => print_status(alloc, output, Status::Usage { word }),
    }
}

// Does the command.
fn do_command<S: Source, K: Sink, D: Disk, M: Machine, L: Link, C: Clock>(
    alloc: Global,
    command: Command,
    input: &mut S,
    output: &mut K,
    disk: &mut D,
    machine: &mut M,
    link: &mut L,
    clock: &mut C,
) -> Status
    requires fresh { M.trace machine.old ≡ [] }
    requires range { IsInRange command }
    ensures did { Did (known S.Ends K.Ends D.Disk M.Resources M.Machine.own L.Link C.Clock)
        nothing_further
        command.entry result
        (objects input.old output.old disk.old machine.old link.old clock.old)
        (objects input.new output.new disk.new machine.new link.new clock.new) }
    ensures becomes { L.may_become link.old link.new }
    ensures goes_on { GoesOn (view_of L.Link link.old) (view_of L.Link link.new) }
{
    match command {
        Command::Test => print_run(alloc, output, read_and_monitor(alloc, input, machine)),
        Command::Check => print_answer(alloc, output, read_count(alloc, input)),
        Command::Order => print_answer(alloc, output, read_order(alloc, input)),
        Command::Canon => print_answer(alloc, output, read_canonical(alloc, input)),
        Command::Checksum => match read_checksum(input) {
            Ok(line) => print_text(output, &line),
            Err(unread) => print_unread(alloc, output, unread),
        },
        Command::Compile { node } => match Text::from_utf8(alloc, node) {
            Ok(node) => {
                one_answer(&node);
                print_answer(alloc, output, read_compiled(alloc, input, &node))
            }
            Err(AllocError) => Status::Memory,
        },
        Command::Generate { count } => match repair_generated(alloc, count) {
            Ok(text) => print_text(output, text.as_bytes()),
            Err(Memory) => Status::Memory,
        },
        Command::Init { agent } => {
            let init = StartCommand::Init(agent);
            start_node(alloc, init, output, disk, machine, link, clock)
        }
        Command::Meta => set_meta(alloc, input, output, disk, machine, link, clock),
        Command::Register { name } => register(alloc, name, output, disk, machine, link, clock),
        Command::Pull => {
            let pull = StartCommand::Pull;
            start_node(alloc, pull, output, disk, machine, link, clock)
        }
        Command::Push { name } => match name {
            None => push(alloc, None, input, output, disk, machine, link, clock),
            Some(name) => push_part(alloc, name, input, output, disk, machine, link, clock),
        },
        Command::Consistency => {
            let consistency = StartCommand::Consistency;
            start_node(alloc, consistency, output, disk, machine, link, clock)
        }
        Command::Boot => {
            let boot = StartCommand::Boot;
            start_node(alloc, boot, output, disk, machine, link, clock)
        }
        Command::Get => start_node(alloc, StartCommand::Get, output, disk, machine, link, clock),
        Command::Restore => {
            let restore = StartCommand::Restore;
            start_node(alloc, restore, output, disk, machine, link, clock)
        }
        Command::Remove { stage } => {
            let remove = StartCommand::Remove(stage);
            start_node(alloc, remove, output, disk, machine, link, clock)
        }
        Command::Reports => {
            let reports = StartCommand::Reports;
            start_node(alloc, reports, output, disk, machine, link, clock)
        }
    }
}
