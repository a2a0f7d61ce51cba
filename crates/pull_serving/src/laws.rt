//! What a run of connections means.
ghost use Rattle.pull_server.specs.Answers.{Replies};
ghost use Rattle.pull_serving.specs.Alone.{NoneApart, RunsLeaveAgentsAlone};
ghost use Rattle.pull_serving.specs.Complete.{UndisturbedAreAnswered};
ghost use Rattle.pull_serving.specs.CompleteRuns.{ValidRunsComplete};
ghost use Rattle.pull_serving.specs.Heard.{LinksAreHeard, SendableAreReplied};
ghost use Rattle.pull_serving.specs.Parting.{OnlyDoneEndAtOnce};

use crate::answerer::Answerer;
use dsc_outside::Disk;
use http_frames::{answers_stay, messages_read_back};
use pull_outside::Shelf;
use pull_server::replies_are_of_the_shelf;

/// Of any service a connection is to end at once only where its request was read whole, and the answer that it was done was written
/// whole.
pub fn only_done_requests_end_at_once<A: Answerer>()
    ensures { OnlyDoneEndAtOnce A.replies }
{}

/// Over a shelf that shows what it holds, a run of the pull server is a list of exchanges; where no reply is 500, 503 or 507, an agent is answered
/// in it as if no other agent had asked.
pub fn runs_leave_agents_alone()
    ensures { RunsLeaveAgentsAlone Replies NoneApart }
{}

/// Of any service a connection that shows its bytes, which do not end inside a request, is answered, or memory runs out, where no count of
/// faults rises while it is served.
pub fn undisturbed_connections_are_answered<A: Answerer>()
    ensures { UndisturbedAreAnswered A.replies }
{}

/// A run of valid arguments, over a disk that holds rows, serves all its connections, or memory runs out, where no count of faults rises of the
/// disk, the door or the output.
pub fn valid_runs_complete<A: Answerer, D: Disk>()
    ensures { ValidRunsComplete A.replies D.Disk }
{}

/// What is heard over a link to a server, whose shelf shows what it holds, are the replies of its table to what was sent, each over the rows
/// that the exchange before it left: an answer is the text of the reply, and is read as that alone. A count of faults rises in an exchange
/// only where it does so up to the last.
pub fn links_are_heard<D: Disk, F: Shelf>()
    ensures { LinksAreHeard D.Disk F.Shelf }
{
    messages_read_back();
    replies_are_of_the_shelf();
}

/// What answers a sendable request over such a link is the reply of the table to that very request.
pub fn sendable_requests_are_replied()
    ensures { SendableAreReplied }
{
    answers_stay();
    messages_read_back();
}
