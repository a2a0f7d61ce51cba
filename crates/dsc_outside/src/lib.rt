//! The outside of the product: what it reads, writes, tests and asks, as traits.
//!
//! Each trait has a count of faults that never falls, and a call answers `Failed` only where the count rose in that
//! call, or stands at 2^64 - 1. What an object holds is shown or not: the forms of `memory_outside` show it, the
//! adapters of `real_outside` do not, and the clauses on content hold where it is shown. A layer above is generic
//! over the traits, and so cannot know which of the two it was given. A link says what exchanges may make of it.
//! `write_all` writes all of a piece to any sink.
//!
//! Where a thing is:
//! - what the calls of a host make of a machine: `specs/Changes.antt` over `specs/Paths.antt` and `specs/Host.antt`;
//!   the trait in `src/host.rt`. What is below a path: `proofs/Below.antt`
//! - what a crash may leave of a disk: `specs/Images.antt`; the trait's promises on it in `specs/Disk.antt`. How a run
//!   of calls goes on, for the crates above: `proofs/Moments.antt`
//! - an exchange over a link, what a link shows and what it may become: `src/link.rt`, `src/exchange.rt`,
//!   `specs/Link.antt`, `specs/LinkView.antt`; the most bytes of an answer `src/link.rt`, the last moment of a clock
//!   `src/clock.rt`
//! - how a whole piece is written to a sink: `src/streams.rt`, `specs/Streams.antt`
#![tactic(auto)]

mod clock;
mod disk;
mod ends;
mod entries;
mod exchange;
mod failed;
mod host;
mod link;
mod sink;
mod source;
mod streams;

pub use clock::{Clock, LAST_MOMENT};
pub use disk::Disk;
pub use ends::Ends;
pub use entries::{LogEntry, Package};
pub use exchange::{Exchange, ExchangeOutcome};
pub use failed::Failed;
pub use host::{Host, HostError, PathState};
pub use link::{ANSWER_LIMIT, Link, LinkError, Peer};
pub use mof_values::Memory;
pub use sink::Sink;
pub use source::Source;
pub use streams::write_all;
