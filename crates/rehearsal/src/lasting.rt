//! Whether memory lasted for what the forms in memory keep.
ghost use Rattle.std.specs.Prelude.{◌≡◌, false, OnOk};
ghost use Rattle.memory_outside.specs.StoppedDisk.{is_stopped};
ghost use Rattle.rehearsal.specs.Playing.{HasUnfailed};
ghost use Rattle.rehearsal.specs.World.{HasLasted};

use memory_outside::{ReliableDisk, StoppedDisk, StoppedHost};
use mof_values::Memory;

/// Out of memory, where a call of the disk was.
pub fn lasted(disk: &ReliableDisk) -> Result<(), Memory>
    ensures { OnOk result (HasLasted disk.now) }
{
    if disk.short() { Err(Memory) } else { Ok(()) }
}

/// Out of memory, where a call of the disk or of the machine was.
pub fn lasted_to_stop(disk: &StoppedDisk, host: &StoppedHost) -> Result<(), Memory>
    ensures disk { OnOk result (disk.now.disk.short ≡ false) }
    ensures host { OnOk result (host.now.host.short ≡ false) }
{
    if disk.short() || host.short() {
        Err(Memory)
    } else {
        Ok(())
    }
}

/// Answers whether the stop came in a call of the disk or of the machine.
pub fn stop_has_come(disk: &StoppedDisk, host: &StoppedHost) -> bool
    requires { disk.now.disk.short ≡ false }
    ensures stopped { result ≡ is_stopped disk.now host.now }
    ensures unfailed { result ≡ false → HasUnfailed disk.now host.now }
{
    disk.stopped() || host.stopped()
}
