//! What the answer table means.
ghost use Rattle.pull_server.specs.Alone.{AgentsAreAlone};
ghost use Rattle.pull_server.specs.Own.{FirstDecides, RepliesAreOwn};
ghost use Rattle.pull_server.specs.SentReplies.{ChecksumsAreOfItems, RepliesAreSendable};

/// The outcome is that of the first row that applies.
pub fn the_first_row_decides()
    ensures { FirstDecides }
{}

/// A reply that is not 500, 503 or 507 depends on the request, the agent's own row and the shelf alone.
pub fn replies_are_of_own_rows()
    ensures { RepliesAreOwn }
{}

/// Where no reply is 500, 503 or 507, an agent is answered as if no other agent had asked.
pub fn agents_are_alone()
    ensures { AgentsAreAlone }
{}

/// Each reply of the table reads back as it is written, where its body is within the limit of answers; and one that announces a checksum is
/// what the shelf has of what is fetched, under the checksum of that.
pub fn replies_are_of_the_shelf()
    ensures sendable { RepliesAreSendable }
    ensures items { ChecksumsAreOfItems }
{}
