//! The requests of a node to its pull server, what is made of the answers, and the message of a report.
//!
//! A layer above may rely on this: each call sends at most one request, the one that its definition writes, to the
//! server's peer and to no other; a server of https is sent nothing; a value comes exactly of an answer that is
//! accepted; and a content is accepted only under the SHA-256 digest that was announced for it. Where the link shows
//! its exchanges each error is that of the answer, in a fixed order, and an answer means one thing; a failure of the
//! link shows in its count of faults.
//!
//! Where a thing is:
//! - the requests of a node: `specs/Requests.antt`, `src/requests.rt`; what an outcome means `specs/Heard.antt`; the
//!   clause of every call `specs/Asks.antt`; that an outcome means one answer `specs/Meaning.antt`, `src/laws.rt`
//! - what a query asks, and what its answer says of each name: `specs/Queries.antt`, `src/queries.rt`;
//!   `src/statuses.rt`
//! - the message of a report: `specs/Reports.antt`, `src/messages.rt`; that it fits in a body `specs/Fitting.antt`,
//!   `src/laws.rt`
#![tactic(auto)]

mod asking;
mod content;
mod error;
mod exchange;
mod fetching;
mod laws;
mod limits;
mod marks;
mod messages;
mod moments;
mod queries;
mod registering;
mod reporting;
mod requests;
mod statuses;

pub use asking::ask;
pub use error::PeerError;
pub use fetching::{fetch, fetch_module};
pub use laws::{messages_fit, one_meaning};
pub use messages::message_of;
pub use registering::register;
pub use reporting::report;
