//! The tests of `pull_messages`.
#![tactic(auto)]

#[cfg(test)]
mod tests;
