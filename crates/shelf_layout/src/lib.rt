//! Where a folder that stands for a shelf keeps what it holds, as names and paths, and which keys its text has: it
//! touches nothing of the machine.
//!
//! A layer above may rely on this: a name that could lead out of the folder, or is hidden there, is none that something
//! on a shelf can have; what is taken stands in one file; a key is a line of the text, without its end.
//!
//! Where a thing is:
//! - which names something on a shelf can have, and where it stands: `specs/Layout.antt`, `src/places.rt`
//! - which keys a text has: `specs/Keys.antt`, `src/keys.rt`
#![tactic(auto)]

mod keys;
mod places;

pub use keys::key_at;
pub use places::{configuration_place, is_shelf_name, keys_place, package_place};
