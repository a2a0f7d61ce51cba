//! Laws of what Sets make of a host. The call does nothing; its clauses are the laws.
ghost use Rattle.resource_kinds.specs.Holding.{HoldsIsTested, NoneIsUnheld, UnheldFalls, UnheldIsBounded};
ghost use Rattle.resource_kinds.specs.Laws.{ClearStays, FailureKeepsApart, SetKeepsApart, SetKeepsClear, SetMakesHold, SetsKeepApart, SettledHold, SucceededHold, UnsetHold};

use crate::entries::entry_laws;

/// A Set that is done makes its resource hold, and keeps what holds of each resource that is apart from it; one that failed
/// keeps this too, but where it was to make a folder. So where the resources of a document are apart and no Set of a folder
/// broke off, all that held in their turn or were made to hold do so together at the end of a run, and what held before it
/// and was not set still holds. Where nothing is in the way of any of them, nothing is after a Set that is done either.
pub fn set_laws()
    ensures makes_hold { SetMakesHold }
    ensures keeps_apart { SetKeepsApart }
    ensures failure_keeps { FailureKeepsApart }
    ensures in_turn { SetsKeepApart }
    ensures together { SettledHold }
    ensures succeeded { SucceededHold }
    ensures unset { UnsetHold }
    ensures keeps_clear { SetKeepsClear }
    ensures clear_stays { ClearStays }
{
    entry_laws();
}

/// Whether what a resource asks for holds can be tested, so that the resources of a document that do not hold have a number. It
/// is no greater than that of all resources, it is 0 exactly where all hold, and it falls where what held is kept and another
/// resource holds too.
pub fn holding_laws()
    ensures tested { HoldsIsTested }
    ensures bounded { UnheldIsBounded }
    ensures none { NoneIsUnheld }
    ensures falls { UnheldFalls }
{}
