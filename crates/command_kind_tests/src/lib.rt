//! The tests of `command_kind`, over runs of `lcm_core`.
#![tactic(auto)]

#[cfg(test)]
mod tests;
