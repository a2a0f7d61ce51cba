//! The tests of `meta_config`.
#![tactic(auto)]

#[cfg(test)]
mod tests;
