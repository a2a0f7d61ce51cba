//! What is known of an agent, as one line of JSON, or as a row of a table; and each of its reports as a line.
//!
//! A line has what the agent's row says, and what the report says where that is one: when the run began and
//! ended, which resources it names as not in the desired state, and how many there are. A layer above may rely on it
//! that a line is the text that its definition says, with every text as a JSON string (RFC 8259), so that whatever an
//! agent sent, a line has one line feed, at its end; and that a table has no control character but its line feeds.
//!
//! Where a thing is:
//! - the line of an agent, and that of a report, member by member: `specs/Lines.antt`, `src/line.rt`, `src/json.rt`
//! - which resources a report names as not in the desired state, and how many there are: `specs/Unmet.antt`,
//!   `src/unmet.rt`, `src/number.rt`
//! - the moment that a text says: `specs/Moments.antt`, `src/moment.rt`
//! - a table of agents: `specs/Table.antt`, `src/cells.rt`, `src/table.rt`; what a terminal may show of a text:
//!   `src/harmless.rt`
#![tactic(auto)]

mod cells;
mod harmless;
mod json;
mod line;
mod moment;
mod number;
mod table;
mod unmet;

pub use cells::{Cell, Cells, cells_of, head_cells};
pub use harmless::push_harmless;
pub use json::push_text;
pub use line::{push_forgotten, push_line, push_report};
pub use moment::moment_in;
pub use table::{Widths, push_table};
