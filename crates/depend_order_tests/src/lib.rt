//! The tests of `depend_order`.
#![tactic(auto)]

#[cfg(test)]
mod tests;
