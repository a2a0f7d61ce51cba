//! The messages of the pull protocol and the targets of its requests, read and written.
//!
//! A message is a JSON text (RFC 8259) with the members of its table; a target is the path of a request (RFC 3986,
//! section 3.3), in which names compare by fold and text values stand in quotes. A layer above may rely on it that what
//! is read is the value that the bytes stand for, that a refusal names the first field of the table that is missing or
//! wrong, or the longest front with which some target begins, and that what is written reads back.
//!
//! Where a thing is:
//! - what a message of the pull protocol may hold: `specs/Tables.antt`, read by `src/members.rt` and `src/lists.rt`; as
//!   it is written `specs/Writing.antt`
//! - which targets there are: `specs/Targets.antt`, of the fleet `specs/FleetTargets.antt`; part by part
//!   `src/parts.rt`, form by form `src/forms.rt`, `src/fleet_forms.rt`
#![tactic(auto)]

mod action;
mod body;
mod error;
mod escapes;
mod field;
mod fleet_forms;
mod forms;
mod limits;
mod lists;
mod members;
mod parts;
mod query;
mod registration;
mod report;
mod target_error;
mod target_kinds;
mod target_text;
mod targets;
mod values;

pub use action::{ActionAnswer, Detail, read_action, write_action};
pub use error::MessageError;
pub use field::Field;
pub use limits::{MAX_LIST_ITEMS, MAX_TEXT_BYTES};
pub use query::{ActionQuery, Client, read_query, write_query};
pub use registration::{Registration, read_registration, write_registration};
pub use report::{ReportMessage, read_report, write_report};
pub use target_error::TargetError;
pub use target_kinds::{FleetTarget, Target};
pub use target_text::write_target;
pub use targets::{fleet_target, target};
