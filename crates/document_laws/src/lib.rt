//! Laws over the definitions of `mof_syntax`, `dsc_document` and `partial_merge`: all bytes, all lists of instances and
//! all lists of parts have an answer by the definitions alone, and not two, whatever memory a program has, and nothing
//! that is read is refused.
//!
//! No program names this crate. Its functions have no body: their contracts are the laws.
//!
//! Where a thing is:
//! - that every list of parts has an answer: `specs/Laws.antt`; that nothing is read of refused bytes
//!   `proofs/Reading.antt`, that nothing that is read is refused `proofs/Excluded.antt`, that instances keep the rules
//!   or break one `proofs/Rules.antt` with a test of each rule in `proofs/Tested.antt`, the parts `proofs/Parts.antt`;
//!   that it is one: `merge_laws` of `partial_merge`
#![tactic(auto)]

mod laws;

pub use laws::{
    bytes_are_either_read_or_refused, instances_keep_the_rules_or_break_one,
    parts_are_merged_or_refused, what_is_read_is_not_refused,
};
