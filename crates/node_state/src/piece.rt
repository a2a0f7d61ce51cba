//! The pieces that a node is written as, and from which it is made again.
use crate::{Kept, SharedParts, Stage};
use meta_config::Meta;

/// A piece of a node. A new node and the pieces of another, in order, are that other one.
#[derive(Debug, Drop)]
pub enum Piece {
    /// What a node has without parts and reports.
    Base {
        agent: u128,
        registered: bool,
        reboot: bool,
        next_job: u64,
        meta: Meta,
    },

    /// The parts in one of its stages.
    Slot(Stage, SharedParts),

    /// One of its reports.
    Kept(Kept),
}
