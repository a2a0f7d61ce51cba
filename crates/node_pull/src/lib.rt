//! What a node's pull server brings it: a registration, a new list of parts with the packages that it names, and the
//! sending of reports.
//!
//! A layer above may rely on this: a pull asks once about the names whose parts are pulled, then for each content that
//! it is to fetch, in the order of the partial configurations. What it fetched, or a part that is pushed, is laid over
//! the parts that are held. The list is merged and fits the meta-configuration before any package is asked for; each
//! part that is brought is held or was accepted; and each package that the machine does not have is kept there only as
//! its body was accepted. The first request that gives nothing ends it.
//!
//! Where a thing is:
//! - what a pull asks and brings, row by row: `specs/Pulling.antt`, `src/pulling.rt`; the list of parts
//!   `specs/Listing.antt`, `specs/Contents.antt`, `src/listing.rt`; the packages `specs/Packages.antt`,
//!   `src/modules.rt`, `src/packages.rt`
//! - how new parts are laid over those that are held, and the list of a push: `specs/Laying.antt`, `src/laying.rt`
//! - the names that a node registers, that its parts have, and that it asks about: `specs/Names.antt`,
//!   `src/names.rt`
//! - a server that gives what it is asked for, and what comes of that: `specs/Serving.antt`, `src/laws.rt`,
//!   `proofs/ServedPulls.antt`
#![tactic(auto)]

mod error;
mod laws;
mod laying;
mod listing;
mod marks;
mod modules;
mod names;
mod packages;
mod pulling;
mod registering;
mod reporting;

pub use error::{PeerFault, PullFault};
pub use laws::{package_laws, serving_laws};
pub use laying::lay_push;
pub use marks::marks_of;
pub use modules::Module;
pub use pulling::{PullOutcome, pull};
pub use registering::register_node;
pub use reporting::send_report;
