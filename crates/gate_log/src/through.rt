//! A change of a disk and the sync after it.
ghost use Rattle.std.specs.Prelude.{◌≡◌, ◌≤◌, length, take, drop, option_map, IfOk, IfSome, OnOk};
ghost use Rattle.dsc_outside.specs.Causes.{HasCause};
ghost use Rattle.dsc_outside.specs.Disk.{written, Torn, Cut, From, Follows, Only, AnyMoment, Still};

use dsc_outside::{Disk, Failed};

/// Writes, and syncs.
pub(crate) fn write_through<D: Disk>(disk: &mut D, at: u64, bytes: &[u8]) -> Result<(), Failed>
    requires { IfSome (D.shown disk.old) (λ held. at ≤ length held) }
    ensures written { OnOk result (D.shown disk.new ≡ option_map (written at bytes.now) (D.shown disk.old)) }
    ensures only { OnOk result (Only (D.shown disk.new) (D.images disk.new)) }
    ensures crash { Follows (Torn at (length bytes.now)) (D.images disk.old) (D.images disk.new) }
    ensures any_moment { AnyMoment D.moment D.left_since disk.old disk.new (From (Torn at (length bytes.now)) (D.images disk.old)) }
    ensures cause { HasCause (D.faults disk.old) (D.faults disk.new) result }
{
    disk.write_at(at, bytes)?;
    disk.sync()
}

/// Writes without a sync.
pub(crate) fn write_on<D: Disk>(disk: &mut D, at: u64, bytes: &[u8]) -> Result<(), Failed>
    requires { IfSome (D.shown disk.old) (λ held. at ≤ length held) }
    ensures written { OnOk result (D.shown disk.new ≡ option_map (written at bytes.now) (D.shown disk.old)) }
    ensures crash { Follows (Torn at (length bytes.now)) (D.images disk.old) (D.images disk.new) }
    ensures any_moment { AnyMoment D.moment D.left_since disk.old disk.new (From (Torn at (length bytes.now)) (D.images disk.old)) }
    ensures cause { HasCause (D.faults disk.old) (D.faults disk.new) result }
{
    disk.write_at(at, bytes)
}

/// Cuts, and syncs.
pub(crate) fn cut_through<D: Disk>(disk: &mut D, to: u64) -> Result<(), Failed>
    requires { IfSome (D.shown disk.old) (λ held. to ≤ length held) }
    ensures cut { OnOk result (D.shown disk.new ≡ option_map (take to) (D.shown disk.old)) }
    ensures only { OnOk result (Only (D.shown disk.new) (D.images disk.new)) }
    ensures crash { Follows (Cut to) (D.images disk.old) (D.images disk.new) }
    ensures any_moment { AnyMoment D.moment D.left_since disk.old disk.new (From (Cut to) (D.images disk.old)) }
    ensures cause { HasCause (D.faults disk.old) (D.faults disk.new) result }
{
    disk.cut(to)?;
    disk.sync()
}

/// The length of the disk.
pub(crate) fn length_of<D: Disk>(disk: &mut D) -> Result<u64, Failed>
    ensures length { IfOk result (λ n. IfSome (D.shown disk.old) (λ held. n ≡ length held)) }
    ensures still { Still D.shown D.images D.moment D.left_since disk.old disk.new }
    ensures cause { HasCause (D.faults disk.old) (D.faults disk.new) result }
{
    disk.length()
}

/// Reads the bytes from that place on.
pub(crate) fn read_from<D: Disk>(disk: &mut D, at: u64, into: &mut [u8]) -> Result<usize, Failed>
    ensures size { IfOk result (λ n. n ≤ length into.new) }
    ensures bytes { IfOk result (λ n. IfSome (D.shown disk.old) (λ held. take n into.new ≡ take (length into.new) (drop at held))) }
    ensures still { Still D.shown D.images D.moment D.left_since disk.old disk.new }
    ensures cause { HasCause (D.faults disk.old) (D.faults disk.new) result }
{
    disk.read_at(at, into)
}

/// Syncs.
pub(crate) fn settle<D: Disk>(disk: &mut D) -> Result<(), Failed>
    ensures only { OnOk result (Only (D.shown disk.new) (D.images disk.new)) }
    ensures still { Still D.shown D.images D.moment D.left_since disk.old disk.new }
    ensures cause { HasCause (D.faults disk.old) (D.faults disk.new) result }
{
    disk.sync()
}
