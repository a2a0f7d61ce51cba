//! The tests of `pull_client`, over a link in memory.
#![tactic(auto)]

#[cfg(test)]
mod tests;
