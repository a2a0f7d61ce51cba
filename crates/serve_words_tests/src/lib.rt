//! The tests of `serve_words`.
#![tactic(auto)]

#[cfg(test)]
mod tests;
