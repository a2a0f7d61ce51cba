//! Parts of a configuration and the document that they are merged to.
//!
//! A `Part` is a named text with its SHA-256 digest, which its type keeps true. `merge` gives the document that parts
//! declare together: a layer above may rely on it that their names differ, that it has not too many resources, that the
//! ids of these differ, that each dependency is a resource, and that they have an order. A refusal is the first of
//! these that fails, with its place. By `merge_laws` there is one answer at most, out of memory aside.
//!
//! Where a thing is:
//! - when parts are one document, and why not: `specs/Parts.antt`, `specs/Merged.antt`, `specs/Refused.antt`, over
//!   `depend_order/specs/Refused.antt`; that parts come to one of these `specs/Laws.antt`, `proofs/OneMerge.antt`,
//!   `proofs/Existing.antt`. The steps are `part_names`, `joined`, `checked`, in the order in which refusals win
#![tactic(auto)]

mod checked;
mod error;
mod joined;
mod laws;
mod merging;
mod part;
mod part_names;
mod shared_bytes;

pub use depend_order::OrderedDocument;
pub use dsc_document::Spot;
pub use error::{MergeError, PartFault};
pub use laws::{merge_laws, one_part_laws};
pub use merging::{check_text, merge, merge_ordered, merge_text};
pub use part::{Part, part_of};
pub use shared_bytes::SharedBytes;
