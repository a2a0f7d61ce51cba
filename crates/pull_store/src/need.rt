//! How many bytes rows take in a bank.
ghost use Rattle.std.specs.Prelude.{◌≡◌, ◌≤◌, ◌*◌, length, vec_capacity};
ghost use Rattle.std.specs.List.{AllByRecursion};
ghost use Rattle.gate_log.specs.Text.{cells};
ghost use Rattle.pull_store.specs.Bodies.{bodies_of_reports, bodies_of_row, bodies_of_rows};
ghost use Rattle.pull_store.specs.Rows.{rows_without};
ghost use Rattle.pull_store.specs.Sound.{IsReport, IsRow};
ghost use Rattle.pull_store.specs.declared.limits.TheConstants.{MAX_ROWS};

use crate::limits::{BODY_CAPACITY, MAX_BYTES, MAX_REPORTS};
use crate::row::{Row, StoredReport};
use crate::spelling::spell_registration;
use gate_log::CELL_HEAD;

// The kind, the agent and the job of a report.
const REPORT_HEAD: u64 = 33;

// The most bytes of a report's cell.
const REPORT_CELL: u64 = CELL_HEAD + REPORT_HEAD + MAX_BYTES as u64;

// The cells of a row have at most that many bytes: that of its registration and those of its reports.
const ROW_CELLS: u64 = (1 + MAX_REPORTS as u64) * (CELL_HEAD + BODY_CAPACITY as u64);

/// The bytes of the cells of rows, without those of some agents; the buffer has capacity for a body.
pub fn need_of_rows(buffer: &mut Vec<u8>, rows: &[Row], without: &[u128]) -> u64
    requires capacity { BODY_CAPACITY ≤ vec_capacity buffer.old }
    requires few { length rows.now ≤ MAX_ROWS }
    requires rows { AllByRecursion IsRow rows.now }
    ensures need { result ≡ length (cells (bodies_of_rows (rows_without without.now rows.now))) }
    ensures bound { result ≤ ROW_CELLS * length rows.now }
    ensures capacity { vec_capacity buffer.old ≤ vec_capacity buffer.new }
{
    match rows {
        [] => 0,
        [first, rest @ ..] => {
            if without.contains(&first.agent) {
                need_of_rows(buffer, rest, without)
            } else {
                need_of_row(buffer, first) + need_of_rows(buffer, rest, without)
            }
        }
    }
}

/// The bytes of the cells of a row.
#[tactic(auto, using(crate::proofs::Sizes::register_cell))]
pub fn need_of_row(buffer: &mut Vec<u8>, row: &Row) -> u64
    requires capacity { BODY_CAPACITY ≤ vec_capacity buffer.old }
    requires row { IsRow row.now }
    ensures need { result ≡ length (cells (bodies_of_row row.now)) }
    ensures bound { result ≤ ROW_CELLS }
    ensures capacity { vec_capacity buffer.old ≤ vec_capacity buffer.new }
{
    spell_registration(buffer, row.agent, &row.registration);
    CELL_HEAD + buffer.len() as u64 + need_of_reports(row.agent, row.reports.as_slice())
}

#[tactic(auto, using(crate::proofs::Sizes::report_cell))]
fn need_of_reports(agent: u128, reports: &[StoredReport]) -> u64
    requires few { length reports.now ≤ MAX_REPORTS }
    requires reports { AllByRecursion IsReport reports.now }
    ensures need { result ≡ length (cells (bodies_of_reports agent reports.now)) }
    ensures bound { result ≤ REPORT_CELL * length reports.now }
{
    match reports {
        [] => 0,
        [first, rest @ ..] => {
            CELL_HEAD
                + REPORT_HEAD
                + first.body.as_slice().len() as u64
                + need_of_reports(agent, rest)
        }
    }
}
