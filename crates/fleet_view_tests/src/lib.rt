//! The tests of `fleet_view`: exchanges with a server and its fleet in memory, and what they leave on its disk.
#![tactic(auto)]

#[cfg(test)]
mod asking;
#[cfg(test)]
mod exchanges;
#[cfg(test)]
mod servers;
#[cfg(test)]
mod tests;

#[cfg(test)]
pub use asking::ask;
#[cfg(test)]
pub use exchanges::{first_other, first_other_of};
#[cfg(test)]
pub use servers::{new_disk, new_shelf};
