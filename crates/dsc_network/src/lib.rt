//! The network: links to other machines over TCP (RFC 9293).
//!
//! `TcpLink` is the trait `Link` over a connection for each exchange. A layer above may rely on what the trait promises
//! of every link: an answer is appended whole or not at all, has fewer than `ANSWER_LIMIT` bytes, and a failure shows
//! in the count of faults. What a peer sends is in no clause: this crate is an edge that is trusted and tested.
//!
//! `Line` is any open connection whose use ends in time, and `Deadline` says when: programs that take connections use
//! them too.
//!
//! Where a thing is:
//! - how long an exchange may take, and what of it is kept: `src/tcp_link.rt`, `src/line.rt`; the moment at which it
//!   ends `src/deadline.rt`
#![tactic(auto)]

mod deadline;
mod line;
mod tcp_link;

pub use deadline::Deadline;
pub use line::Line;
pub use tcp_link::{CONNECT_SECONDS, EXCHANGE_SECONDS, LinkLimits, TcpLink};
