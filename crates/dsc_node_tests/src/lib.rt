//! The tests of `dsc_node`: starts, one after another, over a disk, a host, a link and a clock in memory.
#![tactic(auto)]

#[cfg(test)]
mod starting;
#[cfg(test)]
mod tests;

#[cfg(test)]
pub use starting::{Left, Outcome, Trouble, answered, started};
