//! Laws of what a command does, and of starts with programs on. The calls do nothing; their clauses are the laws.
ghost use Rattle.dsc_node.specs.HostHeadline.{kinds_of, machine_of};
ghost use Rattle.lcm_program.specs.ConvergingCommands.{StartsWithCommandsConverge};
ghost use Rattle.lcm_program.specs.Further.{further_of_host};
ghost use Rattle.lcm_program.specs.Objects.{known};
ghost use Rattle.lcm_program.specs.RehearsedParts.{PartsAreOfStarts};
ghost use Rattle.lcm_program.specs.RehearsedStarts.{EndsGo, StopsGo};
ghost use Rattle.lcm_program.specs.StartsOrRests.{WordsStartOrRest};

use crate::rehearse::NodeStarter;
use command_kind::{Commands, Spawner, command_laws, host_laws};
use dsc_node::{
    lasting_starts_converge, parts_are_brought, starts_do_their_work, valid_starts_complete,
};
use dsc_outside::{Clock, Disk, Ends, Host, Link, Sink, Source};
use lcm_core::{host_entry_laws, lasting_laws};
use link_laws::pulled_parts_are_of_the_shelf;
use memory_outside::{
    FixedClock, NullSink, ReliableDisk, ReliableHost, ReliableSource, StoppedDisk, StoppedHost,
};
use node_store::images_have_one_meaning;
use pull_outside::ReliableShelf;
use pull_serving::ServerLink;
use rehearsal::{Starter, images_cross};
use resource_kinds::Kinds;

/// What `node_words_on_host` does is a start of the node, as `dsc_node` says it, or leaves the disk as it was. So it is with each start of a
/// rehearsal.
pub fn words_start_or_rest<S: Source, K: Sink, D: Disk, H: Host, L: Link, C: Clock>()
    ensures { WordsStartOrRest
        (known S.Ends K.Ends D.Disk (kinds_of H.Host) (machine_of H.Host) L.Link C.Clock)
        (further_of_host D.Disk H.Host C.Clock) }
{}

/// A start of a rehearsal whose row does not say `Stopped` is one in which no count of faults rose and no entry says that the host failed; its row
/// says the name of the status that the tables give for its words, and its node goes to the one after all the work of its table. The node of any
/// other goes to one after a prefix of that work. The trace of each is true from the host that the start before it left, with the ids that the script
/// added, to the one that it leaves.
pub fn rehearsed_starts_do_their_work()
    ensures ends { EndsGo ⟦<NodeStarter as Starter>⟧
        (known ⟦<ReliableSource as Ends>⟧ ⟦<NullSink as Ends>⟧ ⟦<ReliableDisk as Disk>⟧
        (kinds_of ⟦<ReliableHost as Host>⟧) (machine_of ⟦<ReliableHost as Host>⟧)
        ⟦<ServerLink<ReliableDisk, ReliableShelf> as Link>⟧ ⟦<FixedClock as Clock>⟧)
        (further_of_host ⟦<ReliableDisk as Disk>⟧ ⟦<ReliableHost as Host>⟧
        ⟦<FixedClock as Clock>⟧) }
    ensures stops { StopsGo ⟦<NodeStarter as Starter>⟧
        (known ⟦<ReliableSource as Ends>⟧ ⟦<NullSink as Ends>⟧ ⟦<StoppedDisk as Disk>⟧
        (kinds_of ⟦<StoppedHost as Host>⟧) (machine_of ⟦<StoppedHost as Host>⟧)
        ⟦<ServerLink<ReliableDisk, ReliableShelf> as Link>⟧ ⟦<FixedClock as Clock>⟧)
        (further_of_host ⟦<StoppedDisk as Disk>⟧ ⟦<StoppedHost as Host>⟧
        ⟦<FixedClock as Clock>⟧) }
{
    images_cross::<NodeStarter>();
    images_have_one_meaning();
    starts_do_their_work::<ReliableDisk, Kinds<ReliableHost>, FixedClock>();
    starts_do_their_work::<StoppedDisk, Kinds<StoppedHost>, FixedClock>();
}

/// Each part of a node of a rehearsal was pushed by a start of it, or is what the shelf had as a start pulled it, and the server gave it under its
/// checksum.
pub fn rehearsed_parts_are_of_starts()
    ensures { PartsAreOfStarts ⟦<NodeStarter as Starter>⟧ }
{
    images_cross::<NodeStarter>();
    images_have_one_meaning();
    parts_are_brought::<ReliableDisk, Kinds<ReliableHost>, FixedClock>();
    parts_are_brought::<StoppedDisk, Kinds<StoppedHost>, FixedClock>();
    pulled_parts_are_of_the_shelf::<ReliableDisk, ReliableShelf>();
}

/// With programs on, where after a Set of a command the program for its Test says that it holds, in these starts, and what the others ask of a
/// host is apart and nobody else changes it: one more of undisturbed boots, or of consistencies that wait for no reboot, than there are
/// resources make what is Pending Current. What is asked of the starts stands in `Premises` of `specs/ConvergingCommands.antt`.
pub fn starts_with_commands_converge<D: Disk, H: Host, P: Spawner, C: Clock>()
    ensures { StartsWithCommandsConverge D.Disk H.Host P.Spawner C.Clock }
{
    command_laws::<Kinds<H>, P>();
    host_laws::<H, P>();
    host_entry_laws();
    lasting_laws();
    lasting_starts_converge::<D, Commands<Kinds<H>, P>, C>();
    valid_starts_complete::<D, Commands<Kinds<H>, P>, C>();
}
