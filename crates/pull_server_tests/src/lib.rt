//! The tests of `pull_server`: exchanges with a server in memory, one after the other, also over a bank that is nearly
//! full.
#![tactic(auto)]

#[cfg(test)]
mod asking;
#[cfg(test)]
mod exchanges;
#[cfg(test)]
mod servers;
#[cfg(test)]
mod tests;

#[cfg(test)]
pub use asking::ask;
#[cfg(test)]
pub use exchanges::{codes_after, first_other, first_other_of};
#[cfg(test)]
pub use servers::{new_disk, new_shelf};
