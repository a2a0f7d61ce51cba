//! What a body is of.
use node_state::{Event, Piece};

/// What a body is of.
#[derive(Debug, Drop)]
pub enum Body {
    Event(Event),
    Piece(Piece),
}
