//! The tests of `mof_codec`.
#![tactic(auto)]

#[cfg(test)]
mod tests;
