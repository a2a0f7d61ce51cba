//! Laws of orders and cycles. The calls do nothing; their clauses are the laws.
ghost use Rattle.std.specs.Prelude.{length};
ghost use Rattle.depend_order.specs.Cycle.{DependsOn};
ghost use Rattle.dsc_document.specs.Dependencies.{HasDistinctIds, IsDependency, Names, NamesResources};
ghost use Rattle.depend_order.specs.Laws.{AtMostOneCycle, AtMostOneOrder, CyclesAreClosed, NeverBoth, OrderOrCycle};
ghost use Rattle.depend_order.specs.Numbers.{AreBelow, Lists};

use dsc_document::Document;

/// A document has at most one order or one cycle, and never both; where each dependency is a resource it has one of them.
pub fn order_laws(document: &Document)
    requires { HasDistinctIds document.now }
    ensures one_order { AtMostOneOrder (length document.now.resources) (IsDependency document.now) }
    ensures one_cycle { AtMostOneCycle (length document.now.resources) (Names document.now) }
    ensures never_both { NeverBoth (length document.now.resources) (Names document.now) }
    ensures closed { CyclesAreClosed (length document.now.resources) (Names document.now) }
    ensures exists { NamesResources document.now
        → OrderOrCycle (length document.now.resources) (Names document.now) }
{}

/// Places whose dependencies are numbers have at most one order or one cycle, and never both; where each number is a place
/// they have one of them.
pub fn order_of_laws(depends: &[Vec<u32>])
    ensures one_order { AtMostOneOrder (length depends.now) (DependsOn (Lists depends.now)) }
    ensures one_cycle { AtMostOneCycle (length depends.now) (Lists depends.now) }
    ensures never_both { NeverBoth (length depends.now) (Lists depends.now) }
    ensures closed { CyclesAreClosed (length depends.now) (Lists depends.now) }
    ensures exists { AreBelow (length depends.now) depends.now
        → OrderOrCycle (length depends.now) (Lists depends.now) }
{}
