//! Laws of starts of one node over objects of two kinds. The calls do nothing; their clauses are the laws.
ghost use Rattle.dsc_node.specs.StartsOfTwo.{PartsOfNewAreBrought, PartsOfTwoAreBrought, StartsOfTwoGoOn, StartsOfTwoJoin};
ghost use Rattle.dsc_node.specs.Work.{known};

use dsc_outside::{Clock, Disk};
use resource_kinds::Machine;

/// A start over objects of one kind finds what a start over others left: a node that the start before it may have left, wherever that was
/// stopped, and the one that it left at its end, where it came to it. Over a list of starts each part that a node holds was in a slot of a
/// node that the first start found, or one of the starts brought it; from a new store on one of the starts did.
pub fn starts_of_two_join<D: Disk, M: Machine, C: Clock, E: Disk, N: Machine, K: Clock>()
    ensures go_on { StartsOfTwoGoOn (known D.Disk M.Resources M.Machine.own C.Clock)
        (known E.Disk N.Resources N.Machine.own K.Clock) }
    ensures join { StartsOfTwoJoin (known D.Disk M.Resources M.Machine.own C.Clock)
        (known E.Disk N.Resources N.Machine.own K.Clock) }
    ensures parts { PartsOfTwoAreBrought (known D.Disk M.Resources M.Machine.own C.Clock)
        (known E.Disk N.Resources N.Machine.own K.Clock) }
    ensures from_new { PartsOfNewAreBrought (known D.Disk M.Resources M.Machine.own C.Clock)
        (known E.Disk N.Resources N.Machine.own K.Clock) }
{}
