//! Meta-configurations: how a node's Local Configuration Manager is to behave, after the meta-configurations of
//! PowerShell Desired State Configuration, whose instances are spelled by DMTF DSP0004.
//!
//! A layer above may rely on this: `read_meta` gives exactly the `Meta` that a text declares, or the first of its
//! faults, at its least index. `write_meta` writes the one canonical text of a `Meta`, which is read back.
//! A partial configuration is found by its name, has its own mode or that of the meta-configuration, and stands in the
//! order that `parts_order` gives.
//!
//! Where a thing is:
//! - which classes and properties a meta-configuration has, and what their values may be: `specs/Tables.antt`,
//!   `specs/Words.antt`; `src/tables.rt`, `src/words.rt`
//! - the form of a server's URL: `specs/Urls.antt` (the grammar, `SpellsUrl`, and the site that reading finds);
//!   `src/urls.rt`; that the two agree `proofs/SitesOfUrls.antt`
//! - what a meta-configuration's text means, why it is refused, what is written: `specs/Making.antt`,
//!   `specs/Refusals.antt`, `specs/Writing.antt`; `src/making.rt`, `src/checks.rt`, `src/writing.rt`
//! - what holds of each meta-configuration that is read, and that its text is read back: `specs/Laws.antt`, `IsMeta` in
//!   `specs/Parts.antt`; `proofs/WellFormed.antt`, `proofs/ReadMetas.antt` (each that is read is well-formed),
//!   `proofs/WrittenMetas.antt`, `proofs/WrittenAccepted.antt`, `proofs/WrittenTexts.antt` (what is written of a
//!   well-formed one)
//! - the names, the modes and the order of partial configurations: `specs/Parts.antt`, `src/parts.rt`; that each is
//!   found by its own name `proofs/NamedPartials.antt`
//! - its limits: `src/limits.rt`
#![tactic(auto)]

mod checks;
mod error;
mod laws;
mod limits;
mod making;
mod meta;
mod modes;
mod partials;
mod parts;
mod properties;
mod reading;
mod server;
mod tables;
mod urls;
mod words;
mod writing;

pub use error::{Limit, MetaError};
pub use laws::{metas_read_back, urls_have_their_sites};
pub use limits::{MAX_META_TEXT, MAX_NAMES, MAX_PARTIALS, MAX_URL};
pub use meta::{Meta, Partial};
pub use modes::{AfterReboot, ConfigMode, RefreshMode};
pub use parts::parts_order;
pub use reading::read_meta;
pub use server::{Server, Site};
pub use urls::url_of;
pub use writing::write_meta;
