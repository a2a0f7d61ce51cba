//! A plain slow program that decides whether a text is in the wide grammar of the instance syntax.
//!
//! It is written from the rules of DSP0004 ("MOF Syntax Grammar Description" and its annex's grammar) and from nothing that
//! reads texts elsewhere: the text is divided into pieces by the longest match, and a rule goes over the pieces.
mod grammar;
mod pieces;

use grammar::are_declarations;
use pieces::tokens;
use std::alloc::{AllocError, Global};

/// Returns whether the text is in the grammar, with integers of any size, identifiers of any length and any number of parts.
pub fn is_wide(alloc: Global, text: &[char]) -> Result<bool, AllocError> {
    match tokens(alloc, text)? {
        Some(tokens) => Ok(are_declarations(tokens.as_slice())),
        None => Ok(false),
    }
}
