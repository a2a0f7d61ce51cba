//! What the program that reads the stores of servers is asked, what it prints of a store's rows, which agents a store
//! is to forget, and how the program ends.
//!
//! A layer above may rely on this: the text of a store has a line for each agent whose class is asked for and one for
//! the store, as JSON or as a table; gauges have the numbers of all stores; there is an alarm exactly where some agent
//! failed, is silent or is stale; an agent is to be forgotten exactly where it is named, was silent for so long or
//! never reported, as is asked; and the arguments give their values, or are refused.
//!
//! Where a thing is:
//! - the command line of `nimchout-fleet`: `specs/Words.antt`, `src/command.rt`, `src/words.rt`, `src/values.rt`;
//!   which options go together `src/task.rt`
//! - what is printed of a store, and what is an alarm: `specs/Told.antt`, `src/told.rt`; whether an agent is stale
//!   `src/seen.rt`; the class and the last report of an agent are `agent_class`, its line is `agent_line`
//! - the reports that a store keeps: `specs/Reported.antt`, `src/reported.rt`
//! - the table of a store: `specs/Tabled.antt`, `src/tabled.rt`, over the cells of `agent_line`
//! - gauges for Prometheus: `specs/Gauges.antt`, `src/gauges.rt`, of what `src/standing.rt` counts
//! - which agents are to be forgotten: `specs/Choice.antt`, `src/choice.rt`
//! - with which number the program ends: `specs/Status.antt`, `src/status.rt`
#![tactic(auto)]

mod choice;
mod command;
mod gauges;
mod reported;
mod seen;
mod standing;
mod status;
mod tabled;
mod task;
mod told;
mod values;
mod words;

pub use choice::{Choice, Forgotten, choose, first_unknown};
pub use gauges::gauges_text;
pub use reported::store_reports;
pub use seen::Seen;
pub use standing::{Standing, StoreStandings, has_alarm, standings_of};
pub use status::{FleetStatus, status_of};
pub use tabled::store_table;
pub use task::{FleetOptions, Task};
pub use told::{Told, store_text};
pub use words::{FleetWords, WordsError, fleet_words};
