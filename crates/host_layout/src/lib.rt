//! Where a folder that stands for a machine keeps what it holds, as names and paths: it touches nothing of the
//! machine.
//!
//! A layer above may rely on this: the place of a path that is taken is below the folder `root`, since a name of it
//! that could lead out is refused; the file of a variable, of an entry of the log and of a package has a name of
//! hexadecimal digits, so none of these leads out, and no two pairs of texts that are taken have the same bytes to be
//! named by.
//!
//! Where a thing is:
//! - where what the host holds stands: `specs/Layout.antt`, `src/places.rt`
//! - which names a path, and a look in a folder, may have: `src/paths.rt`
#![tactic(auto)]

mod paths;
mod places;

pub use paths::{is_plain_path, is_single_name, is_staging_name};
pub use places::{
    REBOOT, entry_path, join_lines, package_path, root_path, staging_path, variable_path,
};
