//! The tests of `pull_store`: calls of a store from a word each, bodies and files of bodies, and what the next opening
//! finds.
#![tactic(auto)]

#[cfg(test)]
mod bodies;
#[cfg(test)]
mod calling;
#[cfg(test)]
mod gap_disk;
#[cfg(test)]
mod stores;
#[cfg(test)]
mod tests;

#[cfg(test)]
pub use bodies::{HEAD, file_of, file_with, place_of, push_cell, report};
#[cfg(test)]
pub use calling::{put, register};
#[cfg(test)]
pub use gap_disk::GapDisk;
#[cfg(test)]
pub use stores::{Left, after, call_over, run, shown_in, two_banks};
