//! The instances that a text spells within the limits.
//!
//! Each function reads what a rule of the grammar spells, from the front of a text, and gives what is after.
//! None of them makes a list of tokens or calls itself.
mod arrays;
mod declarations;
mod integers;
mod marks;
mod properties;
mod scalars;
mod strings;
mod words;

pub(crate) use declarations::instances_of;
pub(crate) use integers::is_out_of_range;
pub(crate) use words::is_word;
