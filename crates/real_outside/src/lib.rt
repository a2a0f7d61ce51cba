//! The outside on a real machine: standard input and output, a file as a disk, the folder that stands for the machine,
//! the clock of the system, and the arguments of the program; and descriptors in the place of standard ones that are
//! closed.
//!
//! They show nothing of what they hold, and each counts its failures. A layer above may rely on it that no path leads
//! out of the folder, also beside users who change what is in it. What the system gives or takes is in no clause: this
//! crate is an edge that is trusted and tested.
//!
//! Where a thing is:
//! - what touches the real machine: this crate: standard input, standard output, a file as disk, a folder as host, the
//!   clock of the system, the arguments (`src/program_arguments.rt`). Connections are in `dsc_network`, a folder as
//!   shelf and a port as door in `pull_adapters`. Nothing else does, but the tool `merge_calls`, which reads files
//! - what the folder that is the host holds: its paths in `src/tree.rt`, its variables, log, packages and reboots in
//!   `src/lists.rt`; under which names: the crate `host_layout`
//! - how a path of it is walked, a file read and placed: `src/above.rt`, through folders that are held
//!   (`src/held_folder.rt`, `src/ancestors.rt`); `src/plain_files.rt`; `src/placing.rt`, first under a name of
//!   `src/staging.rt`, which also takes away what stops left
//! - what a removal may reach, and its walk: `src/removing.rt`, `src/mounts.rt`, `src/tree_walk.rt`
#![tactic(auto)]

mod above;
mod ancestors;
mod comparing;
mod emptiness;
mod file_disk;
mod folder_host;
mod held_folder;
mod identity;
mod in_source;
mod last_look;
mod lists;
mod machine_folder;
mod mounts;
mod names_below;
mod out_sink;
mod placing;
mod plain_files;
mod program_arguments;
mod reading;
mod removing;
mod spot;
mod staging;
mod standard_descriptors;
mod system_clock;
mod tree;
mod tree_walk;

pub use file_disk::FileDisk;
pub use folder_host::FolderHost;
pub use in_source::InSource;
pub use out_sink::OutSink;
pub use program_arguments::arguments;
pub use reading::fill;
pub use standard_descriptors::{StandardDescriptors, hold_standard_descriptors};
pub use system_clock::{SystemClock, moment};
