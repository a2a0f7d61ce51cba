//! The tests of `process_spawner`, which start programs.
#![tactic(auto)]

#[cfg(test)]
mod tests;
