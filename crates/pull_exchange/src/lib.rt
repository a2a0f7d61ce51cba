//! One request of a connection, and one reply: what a server reads and writes, whatever it answers.
//!
//! A layer above may rely on this: a request is read from exactly the bytes that are its frame, however the connection
//! cuts them into pieces; bytes that are no request are refused by the fault of their shortest front that has one; and
//! a reply is written as its text and nothing else, or where the connection fails a part from the front of it.
//!
//! Where a thing is:
//! - how a request is read and a reply is written: `src/exchange.rt`, `specs/Exchange.antt`; a reply in two pieces
//!   `src/streams.rt`
#![tactic(auto)]

mod exchange;
mod streams;

pub use exchange::{Received, SendEnd, receive, refusal, send_reply};
