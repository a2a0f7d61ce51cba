//! A machine over the characters of a text. It reads one character at a time, and stands still exactly where no text of
//! the wide grammar goes on.
pub(crate) mod beginnings;
pub(crate) mod characters;
pub(crate) mod counts;
pub(crate) mod numerals;
pub(crate) mod rules;
pub(crate) mod state;
pub(crate) mod step;
pub(crate) mod words;
