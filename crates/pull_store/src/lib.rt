//! The rows of a pull server, on a disk.
//!
//! An agent has a row: its last registration, and its newest four reports; there are at most 512. Each change is one
//! body of a log; where its live bank has no capacity, the rows after the change are written into the other bank.
//!
//! A layer above may rely on this: `open_pull` gives the rows that the disk read as, or the first byte that fails; a
//! crash at any moment of `register`, `put_report` and `forget` leaves the rows before or after it, and after `Ok` the
//! rows after it; every answer has its cause. Look-ups go over the rows, and take no memory.
//!
//! Where a thing is:
//! - the rows, and what a registration and a report make of them: `specs/Rows.antt`, `src/row.rt`, `src/rows.rt`,
//!   `src/change.rt`; laws of rows `specs/Laws.antt`, `src/laws.rt`
//! - which rows an image stands for, and what each answer means: `specs/Stands.antt`, `specs/Store.antt`; that they are
//!   a state that `gate_log` keeps: `src/kept_rows.rt`
//! - the bytes of a registration or a report: `specs/Bodies.antt`, `src/spelling.rt`, `src/reading.rt`; those of rows
//!   that are written anew, one after the other: `src/whole.rt`, `specs/Whole.antt`
//! - the opening of a store, and a change that it makes: `src/opening.rt`, `src/applying.rt`; one change of a store
//!   that is open: `src/committing.rt`; agents that leave: `src/forgetting.rt`. That rows fit a bank: `left_fit` of
//!   `proofs/Leaving.antt`
//! - its limits: `src/limits.rt`
#![tactic(auto)]

mod applying;
mod change;
mod committing;
mod error;
mod forgetting;
mod kept_rows;
mod laws;
mod limits;
mod names;
mod need;
mod opening;
mod reading;
mod row;
mod rows;
mod spelling;
mod store;
mod whole;

pub use error::PullError;
pub use laws::{images_have_one_meaning, jobs_stand_once, named_agents_leave, rows_are_apart};
pub use limits::{BANK, MAX_BYTES, MAX_REPORTS, MAX_ROWS};
pub use opening::open_pull;
pub use row::{Row, StoredReport};
pub use store::PullStore;
