//! Documents: what a list of instance declarations says, after the documents of PowerShell Desired State Configuration,
//! whose instances are spelled by DMTF DSP0004.
//!
//! `check` reads a whole document and `check_part` one part of several. The layer above may rely on the rules: one
//! header, aliases that are there, ids of their form that differ by fold, lists of texts to depend on, in a whole
//! document each the id of a resource; and on the resources and the other instances in the order of the list. A refusal
//! is the first rule that is broken, at its least index.
//!
//! Where a thing is:
//! - the rules, and which refusal wins: `specs/Rules.antt`, `src/rules.rt`; why a list is no document `src/error.rt`
//! - what a declaration says, and the document of those that keep the rules: `specs/Declarations.antt`,
//!   `src/declarations.rt`; `src/assembly.rt`
//! - what resources depend on, and distinct ids: `specs/Dependencies.antt`
//! - a place for each of some names that compare by fold, `Places`: `src/places.rt`, `specs/Places.antt`
//! - its limits: `src/limits.rt`
#![tactic(auto)]

mod aliases;
mod assembly;
mod declarations;
mod depends;
mod document;
mod error;
mod headers;
mod ids;
mod limits;
mod places;
mod properties;
mod rules;
mod spot;

pub use document::{Document, Resource};
pub use error::DocError;
pub use limits::{MAX_ID, MAX_RESOURCES, MAX_VERSION};
pub use places::Places;
pub use rules::{check, check_part, one_refusal_wins};
pub use spot::Spot;
