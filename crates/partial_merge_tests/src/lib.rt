//! The tests of `partial_merge`.
#![tactic(auto)]

#[cfg(test)]
mod tests;
