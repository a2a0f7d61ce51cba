//! The fleet of a pull server: how many of its agents are as they are to be, and the reports that they sent.
//!
//! A `FleetStore` is a pull server's store with a `Fleet` beside it, which knows what the last report of each agent
//! says. It answers two further targets, a report that is kept and the summary of all agents, and any other request as
//! the pull server does; nothing is counted anew at a request. A layer above may rely on this: the numbers of a summary
//! are those of the rows at that moment, a change that was not committed changes no number, and all that
//! `pull_serving` says of a service holds of this one.
//!
//! Where a thing is:
//! - how many agents there are of each class of `agent_class`, and the text of the summary: `specs/Counting.antt`,
//!   `src/counts.rt`, `src/fleet.rt`
//! - what the two targets are answered: `specs/FleetReplies.antt`, `src/replies.rt`
//! - the store with its fleet, as a service: `src/fleet_store.rt`; what a request may change of the classes:
//!   `specs/News.antt`, `src/news.rt`; a whole run `src/serving.rt`; what a run means `src/laws.rt`
#![tactic(auto)]

mod counts;
mod fleet;
mod fleet_store;
mod laws;
mod member;
mod news;
mod replies;
mod serving;

pub use agent_class::{Class, class_of};
pub use counts::Counts;
pub use fleet::Fleet;
pub use fleet_store::{FleetStore, answer_fleet, open_fleet};
pub use laws::fleet_runs_leave_agents_alone;
pub use member::Member;
pub use serving::serve_fleet;
