//! Examples of the instance syntax of DMTF DSP0004, proved of the definitions that `mof_syntax` states it by: for each
//! rule characters or tokens that it holds of, with the value that they stand for, and near ones that it does not hold
//! of; and the laws that these definitions keep. For each kind of refusal there is a text, with the place, of which it
//! is proved that this refusal wins.
//!
//! No program names this crate. Each function but `is_wide` has no body: its contract is the law. `is_wide` is a plain
//! slow program that decides the grammar; tests set it beside the product's reader.
//!
//! Where a thing is:
//! - the plain slow decider: `src/decider.rt`
//! - that bytes have an answer, and one alone: `src/laws.rt`; the lemmas `mof_syntax/proofs/Divided.antt`,
//!   `mof_syntax/proofs/Decoded.antt`, `mof_codec/proofs/Answered.antt`, `mof_codec/proofs/OneRefusal.antt`
#![tactic(auto)]

mod decider;
mod decoded;
mod laws;

pub use decider::is_wide;
pub use decoded::{
    bytes_are_characters_in_one_way, bytes_are_characters_or_go_wrong,
    bytes_have_at_most_one_fault, bytes_that_are_characters_have_no_fault,
};
pub use laws::{
    a_front_of_a_front_is_one, a_text_goes_wrong_at_one_place,
    a_text_spells_instances_or_is_refused, a_text_spells_one_list, bytes_are_read_or_refused,
    bytes_are_refused, canonical_texts_are_these, characters_divide_into_tokens_in_one_way,
    identifiers_are_refused_past_their_limit, identifiers_are_spelled, integers_are_spelled,
    left_out_forms_are_refused_where_they_stand, literals_are_spelled,
    numbers_are_refused_out_of_their_range, parts_are_refused_past_their_limits, rules_hold,
    separators_are_spelled, texts_are_refused_at_their_first_character,
    texts_are_refused_where_they_go_wrong,
};
