//! What may begin at a state.
ghost use Rattle.std.specs.Prelude.{◌≡◌};
ghost use Rattle.mof_codec.specs.Beginnings.{begins_declaration, begins_scalar, begins_identifier};

use crate::machine::state::{Half, Place, State};

/// Returns whether a declaration may begin.
pub(crate) fn begins_declaration(state: State) -> bool
    ensures { result ≡ begins_declaration state.half state.place }
{
    matches!((state.half, state.place), (Half::Gap, Place::Start))
}

/// Returns whether a single value may begin.
pub(crate) fn begins_scalar(state: State) -> bool
    ensures { result ≡ begins_scalar state.half state.place }
{
    matches!(
        (state.half, state.place),
        (
            Half::Gap,
            Place::AfterEquals | Place::InArray | Place::AfterComma
        )
    )
}

/// Returns whether an identifier that is no keyword may begin.
pub(crate) fn begins_identifier(state: State) -> bool
    ensures { result ≡ begins_identifier state.half state.place }
{
    matches!(
        (state.half, state.place),
        (Half::Gap, Place::AfterOf | Place::Body) | (Half::Alias, _)
    )
}
