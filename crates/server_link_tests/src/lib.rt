//! The tests of a pull server as a link: a node's own calls over it, and single connections of it.
#![tactic(auto)]

#[cfg(test)]
mod calls;
#[cfg(test)]
mod tests;
