//! The tests of `http_frames`.
#![tactic(auto)]

#[cfg(test)]
mod tests;
