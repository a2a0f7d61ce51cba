//! What spells bodies, one after the other.
ghost use Rattle.std.specs.Prelude.{◌≤◌, List, ℕ, vec_capacity};
ghost use Rattle.gate_log.specs.Several.{SpellsNext};

/// What spells bodies, one after the other, as they are written.
///
/// A layer above states which bodies these are: those of the cells that a change adds, or those of a whole state.
pub trait Spelling {
    /// The bodies that are still to be spelled.
    ghost rest: { Self → List (List ℕ) };

    /// What a layer above asks of what it spells.
    ghost ready: { Self → Type 0 };

    /// The capacity that the buffer must have.
    ghost capacity: { ℕ };

    /// Spells the next body, in place of what the buffer holds; false where there is none. Takes no memory.
    fn spell_next(&mut self, buffer: &mut Vec<u8>) -> bool
        requires ready { ready self.old }
        requires capacity { capacity ≤ vec_capacity buffer.old }
        ensures ready { ready self.new }
        ensures next { SpellsNext (rest self.old) (rest self.new) buffer.new.items result }
        ensures capacity { vec_capacity buffer.old ≤ vec_capacity buffer.new };
}
