//! The tests of `node_store`: bodies of events and pieces from a word each, files of bodies, what commits leave of a
//! store, and banks that are full, in files of 64 MiB.
#![tactic(auto)]

#[cfg(test)]
mod documents;
#[cfg(test)]
mod files;
#[cfg(test)]
mod stores;
#[cfg(test)]
mod tests;
#[cfg(test)]
mod words;

#[cfg(test)]
pub use documents::{filler, push_name, staged};
#[cfg(test)]
pub use files::{HEAD, file_of, place_of, push_cell, push_cells};
#[cfg(test)]
pub use stores::{Left, commit_to, kept_in, line_of, run, shown};
#[cfg(test)]
pub use words::{COMMITS, INIT, added_of, bodies_of, body_of, last_of};
