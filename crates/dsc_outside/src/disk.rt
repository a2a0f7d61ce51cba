//! A file that is read, written and synced in place, and what a crash may leave of it.
ghost use Rattle.std.specs.Prelude.{◌≡◌, ◌≤◌, ℕ, List, length, take, Option, Some, IfSome, IfOk, OnOk};
ghost use Rattle.dsc_outside.specs.Causes.{HasCause};
ghost use Rattle.dsc_outside.specs.Disk.{Cut, Follows, Makes, Only, ReadsFrom, TimePasses, Torn, Within, written};

use crate::Failed;

/// A file that is read, written and synced in place, and that a crash may leave in more than one state.
///
/// What a crash may leave is a set of images. Right after a sync that succeeded the one image is what a read gives;
/// each write and each cut makes more of them. Every image at every moment since a call began can be spoken of.
pub trait Disk {
    /// What a read gives, where it is shown.
    ghost shown: { Self → Option (List ℕ) };

    /// What a crash at this moment may leave. A disk that shows nothing has no image.
    ghost images: { Self → List ℕ → Type 0 };

    /// The moment, as a number that does not fall.
    ghost moment: { Self → ℕ };

    /// What a crash at some moment since that one might have left, during a call or between two.
    ghost left_since: { Self → ℕ → List ℕ → Type 0 };

    /// How often a call has failed.
    ghost faults: { Self → ℕ };

    fn length(&mut self) -> Result<u64, Failed>
        ensures length { IfOk result (λ n. IfSome (shown self.old) (λ held. n ≡ length held)) }
        ensures shown { shown self.new ≡ shown self.old }
        ensures crash { Within (images self.old) (images self.new) }
        ensures time { TimePasses moment left_since images self.old self.new }
        ensures cause { HasCause (faults self.old) (faults self.new) result };

    /// Reads the bytes from that place on, fewer than the slice has only at the end.
    fn read_at(&mut self, at: u64, into: &mut [u8]) -> Result<usize, Failed>
        ensures size { IfOk result (λ n. n ≤ length into.new) }
        ensures bytes { ReadsFrom at (shown self.old) result into.new }
        ensures shown { shown self.new ≡ shown self.old }
        ensures crash { Within (images self.old) (images self.new) }
        ensures time { TimePasses moment left_since images self.old self.new }
        ensures cause { HasCause (faults self.old) (faults self.new) result };

    /// Writes the bytes from that place on, also past the end.
    ///
    /// Until a sync a crash may leave any bytes in the range. A write that fails may have done any part.
    fn write_at(&mut self, at: u64, bytes: &[u8]) -> Result<(), Failed>
        requires { IfSome (shown self.old) (λ held. at ≤ length held) }
        ensures written { Makes (written at bytes.now) (shown self.old) (shown self.new) result }
        ensures crash { Follows (Torn at (length bytes.now)) (images self.old) (images self.new) }
        ensures time { TimePasses moment left_since images self.old self.new }
        ensures cause { HasCause (faults self.old) (faults self.new) result };

    /// Cuts the disk to that length.
    ///
    /// Until a sync a crash may leave any bytes after the cut. A cut that fails may have done any part.
    fn cut(&mut self, to: u64) -> Result<(), Failed>
        requires { IfSome (shown self.old) (λ held. to ≤ length held) }
        ensures cut { Makes (take to) (shown self.old) (shown self.new) result }
        ensures crash { Follows (Cut to) (images self.old) (images self.new) }
        ensures time { TimePasses moment left_since images self.old self.new }
        ensures cause { HasCause (faults self.old) (faults self.new) result };

    /// After a sync that succeeded a crash leaves what a read gives.
    fn sync(&mut self) -> Result<(), Failed>
        ensures only { OnOk result (Only (shown self.old) (images self.new)) }
        ensures shown { shown self.new ≡ shown self.old }
        ensures crash { Within (images self.old) (images self.new) }
        ensures time { TimePasses moment left_since images self.old self.new }
        ensures cause { HasCause (faults self.old) (faults self.new) result };

    /// This moment is one of those since an earlier one.
    ghost counts_now: { (d : Self) (t : ℕ) (c : List ℕ) → t ≤ moment d
        → images d c → left_since d t c };

    /// Since this moment there is no other.
    ghost only_now: { (d : Self) (c : List ℕ) → left_since d (moment d) c → images d c };

    /// The disk reads as one of its images.
    ghost honest: { (d : Self) (held : List ℕ) → shown d ≡ Some held → images d held };
}
