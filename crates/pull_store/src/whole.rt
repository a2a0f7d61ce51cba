//! The bodies of rows, as they are written into an empty bank.
ghost use Rattle.std.specs.Prelude.{◌≡◌, option_map};
ghost use Rattle.std.specs.List.{AllByRecursion};
ghost use Rattle.pull_store.specs.Bodies.{bodies_of_rows};
ghost use Rattle.pull_store.specs.Sound.{IsRow};
ghost use Rattle.pull_store.specs.Whole.{AreToSpell, TakesRow, bodies_left, rows_in, rows_left};

use crate::row::{Row, StoredReport};
use crate::spelling::{spell_registration, spell_report};
use gate_log::Spelling;

/// Spells the bodies of rows: those in front, perhaps one more, and those after it, without those of some agents.
#[derive(Drop)]
pub struct Whole<'r> {
    // the reports of the last row that are still to be spelled
    agent: u128,
    reports: &'r [StoredReport],
    front: &'r [Row],
    row: Option<&'r Row>,
    after: &'r [Row],
    without: &'r [u128],
}

impl<'r> Whole<'r> {
    /// The bodies of all of these rows but those of some agents.
    pub fn of(
        front: &'r [Row],
        row: Option<&'r Row>,
        after: &'r [Row],
        without: &'r [u128],
    ) -> Whole<'r>
        requires each { AllByRecursion IsRow (rows_left without.now front.now (option_map (λ row. row.now) row) after.now) }
        ensures rest { bodies_left result.agent result.reports.now (rows_left result.without.now result.front.now (option_map (λ row. row.now) result.row) result.after.now)
            ≡ bodies_of_rows (rows_left without.now front.now (option_map (λ row. row.now) row.entry) after.now) }
        ensures ready { AreToSpell result.reports.now (rows_left result.without.now result.front.now (option_map (λ row. row.now) result.row) result.after.now) }
    {
        Whole {
            agent: 0,
            reports: &[],
            front,
            row,
            after,
            without,
        }
    }

    // The next row that is not left out, whose body was not spelled.
    fn next_row(&mut self) -> Option<&'r Row>
        ensures reports { self.new.reports.now ≡ self.old.reports.now }
        ensures row { TakesRow (rows_left self.old.without.now self.old.front.now (option_map (λ row. row.now) self.old.row) self.old.after.now)
            (option_map (λ row. row.now) result)
            (rows_left self.new.without.now self.new.front.now (option_map (λ row. row.now) self.new.row) self.new.after.now) }
    {
        while let Some(row) = self.take_row() {
            if !self.without.contains(&row.agent) {
                return Some(row);
            }
        }
        None
    }

    // The next row, whether it is left out or not.
    fn take_row(&mut self) -> Option<&'r Row>
        ensures reports { self.new.reports.now ≡ self.old.reports.now }
        ensures without { self.new.without.now ≡ self.old.without.now }
        ensures row { TakesRow (rows_in self.old.front.now (option_map (λ row. row.now) self.old.row) self.old.after.now)
            (option_map (λ row. row.now) result)
            (rows_in self.new.front.now (option_map (λ row. row.now) self.new.row) self.new.after.now) }
    {
        if let [first, rest @ ..] = self.front {
            self.front = rest;
            return Some(first);
        }
        if let Some(row) = self.row {
            self.row = None;
            return Some(row);
        }
        let [first, rest @ ..] = self.after else {
            return None;
        };
        self.after = rest;
        Some(first)
    }
}

impl<'r> Spelling for Whole<'r> {
    ghost use Rattle.std.specs.Prelude.{option_map};
    ghost use Rattle.pull_store.specs.Whole.{AreToSpell, bodies_left, rows_left};
    ghost use Rattle.pull_store.specs.declared.limits.TheConstants.{BODY_CAPACITY};

    ghost rest = { λ w. bodies_left w.agent w.reports.now (rows_left w.without.now w.front.now (option_map (λ row. row.now) w.row) w.after.now) };

    ghost ready = { λ w. AreToSpell w.reports.now (rows_left w.without.now w.front.now (option_map (λ row. row.now) w.row) w.after.now) };

    ghost capacity = { BODY_CAPACITY };

    fn spell_next(&mut self, buffer: &mut Vec<u8>) -> bool {
        if let [first, rest @ ..] = self.reports {
            spell_report(buffer, self.agent, first.job, first.body.as_slice());
            self.reports = rest;
            return true;
        }
        let Some(row) = self.next_row() else {
            return false;
        };
        spell_registration(buffer, row.agent, &row.registration);
        self.agent = row.agent;
        self.reports = row.reports.as_slice();
        true
    }
}
