//! The tests of `node_state`.
#![tactic(auto)]

#[cfg(test)]
mod tests;
