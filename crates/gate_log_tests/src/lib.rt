//! The tests of `gate_log`, and the smallest state that stands on it: a count.
#![tactic(auto)]

mod counter;
#[cfg(test)]
mod tests;
