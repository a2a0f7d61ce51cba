//! A state that is kept as the bodies of a log.
ghost use Rattle.std.specs.Prelude.{List, ℕ};
ghost use Rattle.gate_log.specs.declared.shape.Shape.{Shape};

/// A state that is kept as the bodies of a log: a layer above says which bodies lead to it.
pub trait LoggedState {
    /// What bodies lead to.
    type State;

    /// The sizes of the store.
    ghost shape: { Shape };

    /// These bodies, in this order, lead to this state.
    ghost leads: { List (List ℕ) → Self.State → Type 0 };

    /// What holds of every state that a layer above keeps.
    ghost sound: { Self.State → Type 0 };
}
