//! A list that a body named by digests.
ghost use Rattle.std.specs.Prelude.{◌≡◌};
ghost use Rattle.node_state.specs.Lists.{IsStaged};
ghost use Rattle.node_store.specs.Digests.{stage_body};

use node_state::SharedParts;

/// A list that a node may keep, and the Stage that names it by digests.
#[derive(Drop)]
pub struct KnownList {
    pub stage: Vec<u8>,

    pub parts: SharedParts,

    ghost staged: { IsStaged parts },

    ghost is: { stage.items ≡ stage_body parts },
}
