//! Laws of the text of a store, and of what it stands for. The calls do nothing; their clauses are the laws.
ghost use Rattle.std.specs.Prelude.{◌<◌, ◌^◌};
ghost use Rattle.gate_log.specs.Kept.{FailingStandForNone, KeepSound, LeadFromFront, LeadToOne, StandForOne, StandForSound};
ghost use Rattle.gate_log.specs.Laws.{OneList, NeverBoth, FrontGiven, AnswerExists};

use crate::logged_state::LoggedState;

/// An image gives at most one list of bodies, an image that gives bodies does not fail anywhere, bodies that stand at the front
/// of its live bank are the first of those that it gives, and bytes give bodies or fail.
pub fn image_laws()
    ensures one_list { OneList }
    ensures never_both { NeverBoth }
    ensures front_given { FrontGiven }
    ensures exists { AnswerExists }
{}

/// Where bodies lead to one state at most, and so do the first of them: an image stands for one state at most, and one that fails
/// stands for none. Where each body keeps it sound, what an image stands for is sound.
pub fn kept_laws<K: LoggedState>()
    requires small { K.shape.largest < 2 ^ 32 }
    requires one { LeadToOne K.leads }
    requires fronts { LeadFromFront K.leads }
    ensures one { StandForOne K.shape K.leads }
    ensures none { FailingStandForNone K.shape K.leads }
    ensures sound { KeepSound K.leads K.sound → StandForSound K.shape K.leads K.sound }
{}
