//! The tests of `generated_document`.
#![tactic(auto)]

#[cfg(test)]
mod tests;
