//! What holds of the rows of a store.
ghost use Rattle.pull_store.specs.Laws.{RowsAreSound, ChangesKeep, OthersStay, JobsStandOnce, LastIsKept, NamedLeave, UnnamedStay, LeftFit, BodiesAreOfOne, RowsAreOne, FailingStandForNone};

/// Rows are at most 512, of different agents, and a change leaves every other agent's row.
pub fn rows_are_apart()
    ensures sound { RowsAreSound }
    ensures keep { ChangesKeep }
    ensures others { OthersStay }
{}

/// At most four reports are kept, each job once, and a job that was just put has its new body.
pub fn jobs_stand_once()
    ensures once { JobsStandOnce }
    ensures last { LastIsKept }
{}

/// Agents that are forgotten have no row, each other agent has the row that it had, and the rows that are left fit a bank.
pub fn named_agents_leave()
    ensures gone { NamedLeave }
    ensures others { UnnamedStay }
    ensures fit { LeftFit }
{}

/// A body is of one change at most, an image stands for one list of rows at most, and an image that fails stands for none.
pub fn images_have_one_meaning()
    ensures bodies { BodiesAreOfOne }
    ensures rows { RowsAreOne }
    ensures none { FailingStandForNone }
{}
