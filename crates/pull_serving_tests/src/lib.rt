//! The tests of `pull_serving`: runs of a server over objects in memory.
#![tactic(auto)]

#[cfg(test)]
mod runs;
#[cfg(test)]
mod tests;
