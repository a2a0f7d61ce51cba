//! The tests of `dsc_outside`, by its forms in memory with ample memory.
#![tactic(auto)]

#[cfg(test)]
mod tests;
