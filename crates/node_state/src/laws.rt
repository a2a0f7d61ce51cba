//! Laws of the definitions. The calls do nothing; their clauses are the laws.
ghost use Rattle.node_state.specs.Pieces.{BuiltIsSound, FrontsAreSmall, FrontsBuild};
ghost use Rattle.node_state.specs.Slots.{PartsComeFromStages};
ghost use Rattle.node_state.specs.Sound.{StepsAreSound, StepsHaveAgents};
ghost use Rattle.node_state.specs.Staging.{FittingAreTaken};

/// A step leads from a sound node to a sound node, which has an agent.
pub fn step_laws()
    ensures sound { StepsAreSound }
    ensures agent { StepsHaveAgents }
{}

/// A part that a node has was in a stage before, or was staged.
pub fn parts_come_from_stages()
    ensures { PartsComeFromStages }
{}

/// A sound node of an agent is made of its pieces, at most 20, and what pieces make of a new node is sound.
pub fn piece_laws()
    ensures built { FrontsBuild }
    ensures small { FrontsAreSmall }
    ensures sound { BuiltIsSound }
{}

/// Parts that fit the meta-configuration, and are not too long together, are refused for memory alone.
pub fn fitting_are_taken()
    ensures { FittingAreTaken }
{}
