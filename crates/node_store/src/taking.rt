//! Bodies in full, taken one after the other.
ghost use Rattle.std.specs.Prelude.{◌≡◌, [], true, Some};
ghost use Rattle.node_state.specs.Sound.{Sound};
ghost use Rattle.node_state.specs.StagedParts.{parts_of};
ghost use Rattle.node_state.specs.Table.{IsWithin};
ghost use Rattle.node_state.specs.declared.event.Event.TheVariants as events;
ghost use Rattle.node_state.specs.declared.list.Staged.{Staged};
ghost use Rattle.node_store.specs.declared.body.Body.TheVariants as bodies;
ghost use Rattle.node_store.specs.Taking.{Reached, Took, TookBody};

use crate::body::Body;
use crate::held::staged_again;
use crate::reading::read_body;
use gate_log::TakeError;
use mof_values::Memory;
use node_state::{Event, Node, Piece, SharedParts};
use std::alloc::Global;
use std::mem;
use store_fields::FieldError;

/// The node that bodies in full lead to.
///
/// The parts of a body become those of the node, and no document is copied: a step back shares the list of Previous, and a Stage
/// of a list that the node holds that one.
#[derive(Drop)]
pub struct Taking {
    alloc: Global,
    pub node: Node,
    // an event was taken, so that no piece may follow
    pub(crate) begun: bool,
}

impl Taking {
    /// Nothing was taken.
    pub fn new(alloc: Global) -> Taking
        ensures { Reached result.node result.begun [] }
    {
        Taking {
            alloc,
            node: Node::new(alloc),
            begun: false,
        }
    }

    /// Takes the next body.
    pub fn take(&mut self, body: &[u8]) -> Result<(), TakeError>
        requires { Sound self.old.node }
        ensures { TookBody self.old.node self.old.begun body.now self.new.node self.new.begun result }
    {
        match staged_again(self.alloc, &self.node, body) {
            Ok(Some(parts)) => {
                self.stage_again(parts);
                Ok(())
            }
            Ok(None) => self.take_read(body),
            Err(Memory) => Err(TakeError::Memory),
        }
    }

    /// Stages a list.
    pub(crate) fn take_list(&mut self, parts: SharedParts) -> Result<(), TakeError>
        ensures { (staged : Staged) → parts_of staged ≡ parts → Took self.old.node self.old.begun (bodies.Event (events.Stage staged)) self.new.node self.new.begun result }
    {
        if self.node.agent.is_none() {
            return Err(TakeError::Refused);
        }
        self.stage_again(parts);
        Ok(())
    }

    // A list becomes Pending.
    fn stage_again(&mut self, parts: SharedParts)
        ensures node { self.new.node ≡ record self.old.node { pending = Some parts } }
        ensures begun { self.new.begun ≡ true }
    {
        self.node.pending = Some(parts);
        self.begun = true;
    }

    fn take_read(&mut self, body: &[u8]) -> Result<(), TakeError>
        ensures { TookBody self.old.node self.old.begun body.now self.new.node self.new.begun result }
    {
        match read_body(self.alloc, body) {
            Ok(Body::Event(event)) => self.take_event(event),
            Ok(Body::Piece(piece)) => self.take_piece(piece),
            Err(FieldError::Wrong) => Err(TakeError::Refused),
            Err(FieldError::Memory) => Err(TakeError::Memory),
        }
    }

    fn take_event(&mut self, event: Event) -> Result<(), TakeError>
        requires { IsWithin event }
        ensures { Took self.old.node self.old.begun (bodies.Event event) self.new.node self.new.begun result }
    {
        if self.node.why(&event).is_some() {
            return Err(TakeError::Refused);
        }
        let supply = match self.node.supply(self.alloc, &event) {
            Ok(supply) => supply,
            Err(Memory) => return Err(TakeError::Memory),
        };
        let node = mem::replace(&mut self.node, Node::new(self.alloc));
        self.node = node.apply(event, supply);
        self.begun = true;
        Ok(())
    }

    pub(crate) fn take_piece(&mut self, piece: Piece) -> Result<(), TakeError>
        ensures { Took self.old.node self.old.begun (bodies.Piece piece) self.new.node self.new.begun result }
    {
        if self.begun || !self.node.fits(&piece) {
            return Err(TakeError::Refused);
        }
        let node = mem::replace(&mut self.node, Node::new(self.alloc));
        match node.placed(piece) {
            Ok(node) => {
                self.node = node;
                Ok(())
            }
            Err(Memory) => Err(TakeError::Memory),
        }
    }
}
