//! The tests of `pull_outside`: shelves, connections and doors in memory of many sizes.
#![tactic(auto)]

#[cfg(test)]
mod tests;
