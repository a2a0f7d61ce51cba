//! The tests of `dsc_document`.
#![tactic(auto)]

#[cfg(test)]
mod tests;
