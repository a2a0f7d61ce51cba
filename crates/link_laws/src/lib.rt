//! Laws of what a node takes of a pull server in memory: each content that it takes is what the shelf has.
//!
//! No program runs this crate's functions. They have no body of their own: their contracts are the laws. A layer above
//! may rely on this: over a link to a server whose shelf shows what it holds, a content or a package that a node takes
//! is an item of that shelf, and the server gave it under its own checksum; a content is the configuration of the name
//! that was asked for, a package that of the module. So it is with each part that a kept node pulls.
//!
//! Where a thing is:
//! - that what is taken is what the shelf has: `specs/ShelfContents.antt`; that an answer which announces no checksum
//!   is taken for no content `proofs/SentContents.antt`, that a request for either reads back
//!   `proofs/SendableContents.antt`, what is heard `proofs/HeardContents.antt`
//! - that a part which a node pulls is so: `specs/PulledParts.antt`, `proofs/PulledParts.antt`
#![tactic(auto)]

mod laws;

pub use laws::{contents_are_of_the_shelf, pulled_parts_are_of_the_shelf};
