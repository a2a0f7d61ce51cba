//! A node, as the bodies of a log keep it in either format.
use crate::blobs::Blobs;
use crate::limits::{BANK, MAX_BODY};
use gate_log::{LoggedState, Shape};
use node_state::Node;

/// The sizes of a node's store.
pub const NODE_SHAPE: Shape = Shape {
    bank: BANK,
    largest: MAX_BODY as u32,
};

/// A node to which bodies lead, and the Blobs of these where they are of format 2.
pub struct KeptNode;

impl LoggedState for KeptNode {
    ghost use Rattle.node_state.specs.Sound.{Sound};
    ghost use Rattle.node_store.specs.Stands.{LeadTo, node_shape};

    type State = (Node, Option<Blobs>);

    ghost shape = { node_shape };

    ghost leads = { LeadTo };

    ghost sound = { λ kept. Sound kept.0 };
}
