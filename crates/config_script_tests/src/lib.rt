//! The tests of `config_script`.
#![tactic(auto)]

#[cfg(test)]
mod tests;
