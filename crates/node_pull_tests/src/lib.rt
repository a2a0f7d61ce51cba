//! The tests of `node_pull`, over a link and a host in memory.
#![tactic(auto)]

#[cfg(test)]
mod tests;
