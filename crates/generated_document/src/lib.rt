//! Documents that are made from a number, to measure with and to try other programs on.
//!
//! `generated_document` makes the instances, writes their canonical text and merges that text as one part without a
//! name. A layer above may rely on it that the document is exactly the one of `generated_instances`, and that there is
//! one for each count in the range, out of memory aside.
//!
//! Where a thing is:
//! - the document of the command `generate`: `specs/Generated.antt`
#![tactic(auto)]

mod document;
mod instances;
mod laws;

pub use document::generated_document;
pub use laws::generated_laws;
