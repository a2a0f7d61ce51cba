//! The tests of `pull_exchange`: connections in memory that give their bytes in pieces of one size.
#![tactic(auto)]

#[cfg(test)]
mod tests;
