//! The tests of `shared_key`.
#![tactic(auto)]

#[cfg(test)]
mod tests;
