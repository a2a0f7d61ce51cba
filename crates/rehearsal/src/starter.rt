//! What starts the node in a rehearsal.
ghost use Rattle.std.specs.Prelude.{◌≡◌, [], map, string_bytes};
ghost use Rattle.gate_log.specs.Standing.{AllStand, Any};
ghost use Rattle.memory_outside.specs.MemoryDisk.{DiskInMemory};
ghost use Rattle.memory_outside.specs.StoppedDisk.{DiskToStop};
ghost use Rattle.memory_outside.specs.StoppedHost.{HostToStop};
ghost use Rattle.memory_outside.specs.declared.contents.HostContents.{HostContents};
ghost use Rattle.node_store.specs.Stands.{Stands};
ghost use Rattle.pull_serving.specs.ServerLink.{Becomes};
ghost use Rattle.resource_kinds.specs.Kinds.{calls_of};
ghost use Rattle.rehearsal.specs.Objects.{Does, objects};

use dsc_outside::Disk;
use memory_outside::{
    FixedClock, ReliableDisk, ReliableHost, ReliableSource, StoppedDisk, StoppedHost,
};
use pull_outside::{ReliableShelf, Shelf};
use pull_serving::ServerLink;
use resource_kinds::Kinds;
use std::alloc::Global;

/// The program whose starts are rehearsed: with its words, and over objects in memory, which fail for memory alone, or from a stop on.
///
/// A start answers the name of the status that it ends with. What it makes of its objects is the program's own to say. Where each
/// image of the disk stands for a node, it does so after the start, and the link is one that it may become.
pub trait Starter {
    /// What a start makes of its objects, and the name that it answers.
    ghost does: { Does DiskInMemory HostContents };

    /// The same over objects that stop.
    ghost does_to_stop: { Does DiskToStop HostToStop };

    /// Starts the node.
    fn start(
        alloc: Global,
        words: &[String],
        input: &mut ReliableSource,
        disk: &mut ReliableDisk,
        kinds: &mut Kinds<ReliableHost>,
        link: &mut ServerLink<ReliableDisk, ReliableShelf>,
        clock: &mut FixedClock,
    ) -> &'static str
        requires unasked { calls_of kinds.old ≡ [] }
        ensures does { does (map string_bytes words.now)
            (objects input.old disk.old kinds.old link.old clock.old)
            (objects input.new disk.new kinds.new link.new clock.new) result.now }
        ensures again { AllStand ⟦<ReliableDisk as Disk>⟧ disk.old Stands Any
            → AllStand ⟦<ReliableDisk as Disk>⟧ disk.new Stands Any }
        ensures becomes { Becomes ⟦<ReliableDisk as Disk>⟧ ⟦<ReliableShelf as Shelf>⟧
            link.old link.new };

    /// Starts the node over a disk and a machine that stop together.
    fn start_to_stop(
        alloc: Global,
        words: &[String],
        input: &mut ReliableSource,
        disk: &mut StoppedDisk,
        kinds: &mut Kinds<StoppedHost>,
        link: &mut ServerLink<ReliableDisk, ReliableShelf>,
        clock: &mut FixedClock,
    ) -> &'static str
        requires unasked { calls_of kinds.old ≡ [] }
        ensures does { does_to_stop (map string_bytes words.now)
            (objects input.old disk.old kinds.old link.old clock.old)
            (objects input.new disk.new kinds.new link.new clock.new) result.now }
        ensures again { AllStand ⟦<StoppedDisk as Disk>⟧ disk.old Stands Any
            → AllStand ⟦<StoppedDisk as Disk>⟧ disk.new Stands Any }
        ensures becomes { Becomes ⟦<ReliableDisk as Disk>⟧ ⟦<ReliableShelf as Shelf>⟧
            link.old link.new };
}
