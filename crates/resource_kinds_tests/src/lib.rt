//! The tests of `resource_kinds`.
#![tactic(auto)]

#[cfg(test)]
mod tests;
