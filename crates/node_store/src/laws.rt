//! Laws of the definitions. The calls do nothing; their clauses are the laws.
ghost use Rattle.node_store.specs.Laws.{BodiesAreOfOne, EventsFit, FailingStandForNone, FrontsFit, NodesAreOne, NodesAreSound};

/// A body is of one event or piece at most.
pub fn bodies_are_of_one()
    ensures { BodiesAreOfOne }
{}

/// No event's body is too long for a store, and a store has capacity for the pieces of each sound node.
pub fn bodies_fit()
    ensures events { EventsFit }
    ensures fronts { FrontsFit }
{}

/// An image stands for one node at most, which is sound, and an image that fails stands for none.
pub fn images_have_one_meaning()
    ensures one { NodesAreOne }
    ensures sound { NodesAreSound }
    ensures none { FailingStandForNone }
{}
