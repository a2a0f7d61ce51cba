//! The tests of `real_outside`: its adapters on the real machine, and a folder host over files of which calls fail.
#![tactic(auto)]

#[cfg(test)]
mod tests;
