//! The program over a machine that also runs programs.
ghost use Rattle.std.specs.Prelude.{◌≡◌, ◌∷◌, [], codes, map, string_bytes};
ghost use Rattle.command_kind.specs.Parts.{calls_of};
ghost use Rattle.dsc_outside.specs.Link.{GoesOn};
ghost use Rattle.dsc_outside.specs.LinkView.{view_of};
ghost use Rattle.lcm_program.specs.declared.words.Command.{Command};
ghost use Rattle.lcm_program.specs.Complete.{Completes};
ghost use Rattle.lcm_program.specs.Did.{Did, DidNothing};
ghost use Rattle.lcm_program.specs.FurtherCommands.{commands_of, further_of_commands, machine_with_commands};
ghost use Rattle.lcm_program.specs.Objects.{known, objects};
ghost use Rattle.lcm_program.specs.Rehearse.{Rehearsed};
ghost use Rattle.lcm_program.specs.Words.{Asked, IsAsked, IsForm};

use crate::program::node_over;
use crate::rehearse::NodeStarter;
use command_kind::{Commands, Spawner, command_laws, host_laws};
use dsc_node::Status;
use dsc_outside::{Clock, Disk, Host, Link, Sink, Source};
use lcm_core::trace_laws;
use rehearsal::Starter;
use resource_kinds::{Kinds, set_laws};
use std::alloc::Global;

/// Does what the arguments ask for over commands beside the kinds of resources of a host, and answers how it ended.
///
/// It is [`node_over`] on that machine. Beside its clauses the programs that each start and each run of `test` ran are those that the
/// entries of its commands stand for, all other entries are true of the host, and what completes and what holds together is as
/// `specs/FurtherCommands.antt` says.
///
/// Where the command takes an input, it is read to its end first. The output is written after all other work.
pub fn node_commands<S: Source, K: Sink, D: Disk, H: Host, P: Spawner, L: Link, C: Clock>(
    alloc: Global,
    arguments: &[String],
    input: &mut S,
    output: &mut K,
    disk: &mut D,
    commands: &mut Commands<Kinds<H>, P>,
    link: &mut L,
    clock: &mut C,
) -> Status
    requires fresh { calls_of commands.old ≡ [] }

    // What the arguments ask for was done, by the table of commands.
    ensures did { (command : Command) → IsForm command (map string_bytes arguments.now)
        → Did (known S.Ends K.Ends D.Disk (commands_of H.Host P.Spawner)
        (machine_with_commands H.Host) L.Link C.Clock)
        (further_of_commands D.Disk H.Host P.Spawner C.Clock) command result
        (objects input.old output.old disk.old commands.old link.old clock.old)
        (objects input.new output.new disk.new commands.new link.new clock.new) }

    // A script was rehearsed: each start in it is one of the node by its words, over objects in memory, where no program is run.
    ensures rehearsed { map string_bytes arguments.now ≡ codes "rehearse" ∷ []
        → Rehearsed ⟦<NodeStarter as Starter>⟧
        (known S.Ends K.Ends D.Disk (commands_of H.Host P.Spawner)
        (machine_with_commands H.Host) L.Link C.Clock) result
        (objects input.old output.old disk.old commands.old link.old clock.old)
        (objects input.new output.new disk.new commands.new link.new clock.new) }

    // Arguments in no form ask for nothing, and are refused.
    ensures nothing { ((asked : Asked) → IsAsked asked (map string_bytes arguments.now) → ⊥)
        → DidNothing IsAsked (known S.Ends K.Ends D.Disk (commands_of H.Host P.Spawner)
        (machine_with_commands H.Host) L.Link C.Clock)
        (map string_bytes arguments.now) result
        (objects input.old output.old disk.old commands.old link.old clock.old)
        (objects input.new output.new disk.new commands.new link.new clock.new) }

    // A command that starts the node is not refused where its input is valid and nothing failed.
    ensures completes { (command : Command) → IsForm command (map string_bytes arguments.now)
        → Completes (known S.Ends K.Ends D.Disk (commands_of H.Host P.Spawner)
        (machine_with_commands H.Host) L.Link C.Clock)
        command result
        (objects input.old output.old disk.old commands.old link.old clock.old)
        (objects input.new output.new disk.new commands.new link.new clock.new) }

    // The link is one that it may become, and its exchanges are only added.
    ensures becomes { L.may_become link.old link.new }
    ensures goes_on { GoesOn (view_of L.Link link.old) (view_of L.Link link.new) }
{
    command_laws::<Kinds<H>, P>();
    host_laws::<H, P>();
    set_laws();
    trace_laws();
    node_over(alloc, arguments, input, output, disk, commands, link, clock)
}
