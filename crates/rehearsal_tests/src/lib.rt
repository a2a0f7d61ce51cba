//! The tests of `rehearsal`: scripts, and the steps that they are.
#![tactic(auto)]

#[cfg(test)]
mod tests;
