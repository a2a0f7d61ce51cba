//! One start of a node, from its command to what is printed, and runs over merged documents.
//!
//! `start_over` opens the store, asks the server, commits, runs, sends the reports and answers how that ended, on any
//! machine and over any link; `start` is the same over the kinds of resources of a host, where the trace is true of the
//! host. A layer above may rely on the table in `specs/Work.antt` and on the headline in `specs/Headline.antt`: what a
//! crash leaves, and what a report says. `ordered_of_merged` gives a merged document with its order, `run_merged` runs
//! over it, on any machine, `run_kinds` on a host; `lines_of` is the text that is printed of a run, and `Status` how a
//! command ended.
//!
//! Where a thing is:
//! - the table of a start, what it asks the server for, commits, runs, sends, prints and answers: `specs/Work.antt`;
//!   the steps in their order `src/starting.rt`
//! - what a command asks of a start, its plan: the table of commands `specs/Commands.antt`, `src/preparing.rt`; what a
//!   plan says `src/plan.rt`; what holds of each `proofs/Plans.antt`
//! - where a plan is allowed, waits and stops: `specs/Commands.antt`, `src/allowing.rt`
//! - what a command brings first, as an event, a pushed part, a pull or a registration: `specs/Bringing.antt`,
//!   `src/bringing.rt`
//! - the document of a push, or of what a pull finds or brings, which its run need not merge again:
//!   `specs/Documents.antt`, `proofs/KnownDocuments.antt`
//! - which run is made, and what its report says: `specs/Runs.antt`, `src/choosing.rt`, `src/running.rt`; the event
//!   that keeps the report `src/finishing.rt`
//! - a run over a merged document on a machine, or on a host: `src/run.rt`, `specs/Ran.antt`
//! - the sending of reports: `specs/Sending.antt`, `src/sending.rt`, what each exit of it says `proofs/Sent.antt`, as
//!   a table over the list of those that are due `specs/SendingLaws.antt`; the clock's readings: `specs/Readings.antt`
//! - what a crash at any moment of a start leaves, and the headline: `specs/Path.antt`, `specs/Headline.antt`, over a
//!   host `specs/HostHeadline.antt`; one call after another `proofs/Commits.antt`; the headline row by row
//!   `proofs/Headline.antt`, of its nodes `proofs/Nodes.antt`, of its run `proofs/HeadlineRuns.antt`
//! - starts in a row: `specs/Starts.antt`, `src/laws.rt`, `proofs/Joining.antt`; over objects of two kinds
//!   `specs/StartsOfTwo.antt`, `src/starts_of_two.rt`, `proofs/JoiningTwo.antt`; the node that a start leaves after
//!   all its events, or after a prefix of them: `specs/WorkDone.antt`, `proofs/WorkDone.antt`; which input is valid,
//!   and that a start of it is not refused: `specs/Complete.antt`, `proofs/Completing.antt`
//! - within how many starts what is Pending becomes Current, and how often a run calls a resource:
//!   `specs/Converging.antt`, `proofs/Converging.antt`; over any machine, where what Sets make lasts,
//!   `specs/LastingStarts.antt`, `proofs/LastingStarts.antt`; what such a start does `specs/RepairStarts.antt`,
//!   `proofs/RepairStarts.antt`
//! - what is printed of a run, and that it spells one trace: `src/lines.rt`, `specs/Lines.antt`,
//!   `specs/LineLaws.antt`; what `get` and `reports` print: `specs/Shown.antt`, `src/showing.rt`
//! - exit statuses, and their names: `src/status.rt`, `specs/Status.antt`
#![tactic(auto)]

mod allowing;
mod answer;
mod bringing;
mod choosing;
mod command;
mod committing;
mod finishing;
mod laws;
mod lines;
mod order;
mod plan;
mod preparing;
mod run;
mod running;
mod sending;
mod showing;
mod starting;
mod starts_of_two;
mod status;

pub use answer::StartEnd;
pub use command::Command;
pub use laws::{
    lasting_starts_converge, lines_spell_one_trace, parts_are_brought, reports_are_sent_in_order,
    runs_are_bounded, starts_converge, starts_do_their_work, starts_join, valid_starts_complete,
};
pub use lines::{id, lines_of, push_resources};
pub use order::ordered_of_merged;
pub use run::{run_kinds, run_merged};
pub use starting::{start, start_over};
pub use starts_of_two::starts_of_two_join;
pub use status::{InputError, Status};
