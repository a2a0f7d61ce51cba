//! The tests of `mof_values`.
#![tactic(auto)]

#[cfg(test)]
mod tests;
