//! The store of a pull server.
ghost use Rattle.std.specs.Prelude.{◌≡◌, ◌≤◌, length, option_map, vec_capacity};
ghost use Rattle.gate_log.specs.Standing.{StandsAtAnyMoment};
ghost use Rattle.pull_store.specs.declared.change.Change.TheVariants as changes;
ghost use Rattle.pull_store.specs.Rows.{row_of, rows_without};
ghost use Rattle.pull_store.specs.Sound.{AreApart, IsKeepable, IsKeepableChange, most_bytes};
ghost use Rattle.pull_store.specs.Stands.{BeforeOrAfter, BeforeOrWithout, Stands};
ghost use Rattle.pull_store.specs.Store.{AddsCell, Changed, Forgot, HasCapacity, IsKept, IsReady, Untouched, is_spent};
ghost use Rattle.pull_store.specs.declared.limits.TheConstants.{BODY_CAPACITY};

use crate::change::{Change, Refusal};
use crate::committing::{prepare, write};
use crate::error::PullError;
use crate::forgetting::{has_any_of, leave_out, write_without};
use crate::row::{Row, StoredReport};
use crate::rows::{find, place, refusal};
use crate::spelling::spell;
use dsc_outside::Disk;
use gate_log::Log;
use mof_values::Bytes;
use pull_messages::Registration;
use std::alloc::{AllocError, Global};
use std::marker::Model;

/// The rows of a pull server, kept on a disk.
#[derive(Drop)]
pub struct PullStore {
    alloc: Global,
    log: Log,
    rows: Vec<Row>,
    // capacity for the longest body
    buffer: Vec<u8>,
}

impl Model for PullStore {
    ghost use Rattle.std.specs.Prelude.{◌≤◌, vec_capacity};
    ghost use Rattle.pull_store.specs.declared.limits.TheConstants.{BODY_CAPACITY};
    ghost use Rattle.pull_store.specs.Sound.{AreApart};
    ghost use Rattle.pull_store.specs.Store.{StoreTerm};

    ghost Value = { StoreTerm };

    ghost view = { λ s. record { log = s.log; rows = s.rows.items } };

    ghost invariant = { λ s. (BODY_CAPACITY ≤ vec_capacity s.buffer) × AreApart s.rows.items };
}

impl PullStore {
    /// A store of these rows; the buffer has capacity for the longest body.
    pub(crate) fn of(alloc: Global, log: Log, rows: Vec<Row>, buffer: Vec<u8>) -> PullStore
        requires capacity { BODY_CAPACITY ≤ vec_capacity buffer }
        requires apart { AreApart rows.items }
        ensures { result ≡ record { log = log; rows = rows.items } }
    {
        PullStore {
            alloc,
            log,
            rows,
            buffer,
        }
    }

    /// The rows, of different agents, in the order in which these were first registered. Takes no memory.
    pub fn rows(&self) -> &[Row]
        ensures rows { result.now ≡ self.now.rows }
        ensures apart { AreApart result.now }
    {
        &self.rows
    }

    /// The row of an agent; none exactly where it has none. Takes no memory.
    pub fn agent(&self, agent: u128) -> Option<&Row>
        ensures { option_map (λ row. row.now) result ≡ row_of agent self.now.rows }
    {
        find(&self.rows, agent)
    }

    /// The reports of an agent, the newest last; none exactly where it has no row. Takes no memory.
    pub fn reports(&self, agent: u128) -> Option<&[StoredReport]>
        ensures { option_map (λ reports. reports.now) result
            ≡ option_map (λ row. row.reports) (row_of agent self.now.rows) }
    {
        match find(&self.rows, agent) {
            Some(row) => Some(row.reports.as_slice()),
            None => None,
        }
    }

    /// Whether a call of this store answered `Disk`; then the store must be opened again. Takes no memory.
    pub fn is_spent(&self) -> bool
        ensures { result ≡ is_spent self.now }
    {
        self.log.is_spent()
    }

    /// Registers an agent: in a new row at the end, or in place of its last registration; its reports stay.
    ///
    /// Each text has at most 65,535 bytes, there are at most 16 names of 1 to 255 bytes, and all together have at most
    /// 131,072 bytes. A crash at any moment leaves the rows before or after the registration, after `Ok` those after it. Where
    /// the registration fits the live bank, it is added there, and no other bank is made live.
    ///
    /// # Errors
    ///
    /// The first of `Spent`, exactly where an earlier call of this store answered `Disk`; `Agents`, exactly where the agent is
    /// new and 512 rows are there; `Full`, exactly where neither the registration fits the live bank nor the rows after
    /// it fit a bank; `Disk`, which leaves the rows as they were in memory. `Memory` comes between `Spent` and `Disk`. All of
    /// these but `Disk` leave store and disk untouched.
    pub fn register<D: Disk>(
        &mut self,
        disk: &mut D,
        agent: u128,
        registration: Registration,
    ) -> Result<(), PullError>
        requires ready { IsReady D.Disk disk.old self.old }
        requires size { IsKeepable registration }
        ensures answer { Changed D.Disk self.old (changes.Register agent registration)
            disk.old disk.new result self.new }
        ensures ready { IsReady D.Disk disk.new self.new }
        ensures any_moment { IsKept D.Disk disk.old self.old
            → StandsAtAnyMoment D.Disk disk.old disk.new Stands
            (BeforeOrAfter self.old.rows (changes.Register agent registration)) }
        ensures cell { let change = changes.Register agent registration in
            HasCapacity self.old change
            → AddsCell D.Disk disk.old disk.new self.old.log change result self.new.log }
        ensures count { D.faults disk.old ≤ D.faults disk.new }
    {
        let change = Change::Register {
            agent,
            registration,
        };
        self.commit(disk, &change)
    }

    /// Keeps a report of an agent, as it was sent: in place of the last one of its job, or as the newest; the newest four stay.
    ///
    /// The body has at most 131,072 bytes. A crash at any moment leaves the rows before or after the report, after `Ok` those
    /// after it.
    ///
    /// # Errors
    ///
    /// As of `register`, with `NoAgent` in place of `Agents`, exactly where the agent has no row.
    pub fn put_report<D: Disk>(
        &mut self,
        disk: &mut D,
        agent: u128,
        job: u128,
        body: Vec<u8>,
    ) -> Result<(), PullError>
        requires ready { IsReady D.Disk disk.old self.old }
        requires size { length body.items ≤ most_bytes }
        ensures answer { Changed D.Disk self.old (changes.Report agent job body.items)
            disk.old disk.new result self.new }
        ensures ready { IsReady D.Disk disk.new self.new }
        ensures any_moment { IsKept D.Disk disk.old self.old
            → StandsAtAnyMoment D.Disk disk.old disk.new Stands
            (BeforeOrAfter self.old.rows (changes.Report agent job body.items)) }
        ensures cell { let change = changes.Report agent job body.items in
            HasCapacity self.old change
            → AddsCell D.Disk disk.old disk.new self.old.log change result self.new.log }
        ensures count { D.faults disk.old ≤ D.faults disk.new }
    {
        let change = Change::Report {
            agent,
            job,
            body: Bytes::of(body),
        };
        self.commit(disk, &change)
    }

    /// Forgets agents: the rows of all others, with all that they hold and in their order, are written into the other bank.
    ///
    /// An agent may be named that has no row, or twice. Where none of these has a row, the disk is not touched. A crash at any
    /// moment leaves the rows before or after the call, after `Ok` those after it. Takes no memory; a file that ends before the
    /// second bank is first filled with zeros up to it, to 335,544,328 bytes.
    ///
    /// # Errors
    ///
    /// `Spent`, exactly where an earlier call of this store answered `Disk`; `Disk`, which leaves the rows as they were in memory.
    /// `Full` comes only over a disk that shows nothing, where the rows of all others do not fit a bank. All of these but `Disk`
    /// leave store and disk untouched.
    pub fn forget<D: Disk>(&mut self, disk: &mut D, agents: &[u128]) -> Result<(), PullError>
        requires { IsReady D.Disk disk.old self.old }
        ensures answer { Forgot D.Disk self.old agents.now disk.old disk.new result self.new }
        ensures untouched { rows_without agents.now self.old.rows ≡ self.old.rows
            → Untouched self.old self.new disk.old disk.new }
        ensures ready { IsReady D.Disk disk.new self.new }
        ensures any_moment { IsKept D.Disk disk.old self.old
            → StandsAtAnyMoment D.Disk disk.old disk.new Stands
            (BeforeOrWithout self.old.rows agents.now) }
        ensures count { D.faults disk.old ≤ D.faults disk.new }
    {
        if self.is_spent() {
            return Err(PullError::Spent);
        }
        if !has_any_of(&self.rows, agents) {
            return Ok(());
        }
        if let Err(error) = write_without(
            &mut self.log,
            disk,
            &self.rows,
            &mut self.buffer,
            agents,
        ) {
            return Err(error);
        }
        leave_out(&mut self.rows, agents);
        Ok(())
    }

    fn commit<D: Disk>(&mut self, disk: &mut D, change: &Change) -> Result<(), PullError>
        requires ready { IsReady D.Disk disk.old self.old }
        requires size { IsKeepableChange change.now }
        ensures answer { Changed D.Disk self.old change.now disk.old disk.new result self.new }
        ensures ready { IsReady D.Disk disk.new self.new }
        ensures any_moment { IsKept D.Disk disk.old self.old → StandsAtAnyMoment D.Disk disk.old disk.new Stands (BeforeOrAfter self.old.rows change.now) }
        ensures cell { HasCapacity self.old change.now → AddsCell D.Disk disk.old disk.new self.old.log change.now result self.new.log }
        ensures count { D.faults disk.old ≤ D.faults disk.new }
    {
        if self.log.is_spent() {
            return Err(PullError::Spent);
        }
        match refusal(&self.rows, change) {
            Some(Refusal::TooMany) => return Err(PullError::Agents),
            Some(Refusal::Unknown) => return Err(PullError::NoAgent),
            None => {}
        }
        let row = match prepare(self.alloc, &mut self.rows, change) {
            Ok(row) => row,
            Err(AllocError) => return Err(PullError::Memory),
        };
        spell(&mut self.buffer, change);
        if let Err(error) = write(
            &mut self.log,
            disk,
            &self.rows,
            &mut self.buffer,
            &row,
            change,
        ) {
            return Err(error);
        }
        place(&mut self.rows, row);
        Ok(())
    }
}
