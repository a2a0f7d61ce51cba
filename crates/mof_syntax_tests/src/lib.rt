//! The tests of `mof_syntax`.
#![tactic(auto)]

#[cfg(test)]
mod tests;
