//! The tests of `lcm_core`, and of what `report_log` reports of its runs.
#![tactic(auto)]

#[cfg(test)]
mod tests;
