//! The pull server as a program runs it: connections from a door, served one after the other.
//!
//! `serve_connection` reads one request, lets an `Answerer` answer it, a service over a store as the pull server is,
//! and writes the answer; `serve` does so for as many connections as its arguments say, and prints a line for each. A
//! layer above may rely on this: each connection is answered over what the one before it left, nothing but its answer
//! is written to it, and it is handed back to end at once only where its request was done; a registration or a report
//! that was acknowledged is on the disk from then on; a crash at any moment leaves the rows before a connection, or
//! those after the change that the table makes. `ServerLink` is a server in memory as a link, for the calls of a node.
//!
//! Where a thing is:
//! - what serving a connection comes to, or a run of many: `specs/Turn.antt`, `specs/Turns.antt`, `specs/Serving.antt`;
//!   which connections end at once `src/connection.rt`, `specs/Parting.antt`
//! - that a connection which nothing disturbs is answered: `specs/Complete.antt`; that so a run serves all its
//!   connections: `specs/CompleteRuns.antt`
//! - a service over a store: `src/answerer.rt`; the server as a link: `src/server_link.rt`, `specs/ServerLink.antt`,
//!   what is heard over it: `specs/Heard.antt`; a run in which each agent is alone: `specs/Alone.antt`
//! - a line of the server, a status: `specs/Printing.antt`, `src/printing.rt`; `specs/Status.antt`, `src/status.rt`
#![tactic(auto)]

mod answerer;
mod connection;
mod laws;
mod printing;
mod server_link;
mod serving;
mod status;
mod turns;

pub use answerer::Answerer;
pub use connection::{ConnectionEnd, serve_connection};
pub use laws::{
    links_are_heard, only_done_requests_end_at_once, runs_leave_agents_alone,
    sendable_requests_are_replied, undisturbed_connections_are_answered, valid_runs_complete,
};
pub use server_link::ServerLink;
pub use serving::{serve, serve_over};
pub use status::ServeStatus;
