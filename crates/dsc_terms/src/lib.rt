//! Definitions over plain lists and numbers that several crates cite, and lemmas on them; it has no code.
//!
//! Where a thing is:
//! - counts of faults that never fall (`Rose`, `RoseBy`): `specs/Counts.antt`
//! - places in lists (`Precedes`, `IsOnce`, `places_below`): `specs/Lists.antt`; lemmas on them `proofs/Places.antt`,
//!   `proofs/Splits.antt`
#![tactic(auto)]
