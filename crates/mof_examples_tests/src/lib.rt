//! The tests of `mof_examples`.
#![tactic(auto)]

#[cfg(test)]
mod tests;
