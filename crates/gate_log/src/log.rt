//! A log of bodies in the live one of two banks.
ghost use Rattle.std.specs.Prelude.{◌≡◌, ◌++◌, ℕ, ◌+◌, ◌-◌, ◌≤◌, ◌<◌, ◌^◌, ◌↔◌, IsTrue, List, length, false};
ghost use Rattle.gate_log.specs.Text.{after_gate, body_in, need_of};

use crate::appending::{AT_ONCE, append_cell, append_cell_in_place};
use crate::error::LogError;
use crate::reading::lengthen;
use crate::rewriting::{finish_cells, put_cell, with_zeros};
use crate::shape::{CELL_HEAD, Shape, begin};
use dsc_outside::Disk;
use std::cmp::{max, min};
use std::marker::Model;

/// A log, without the disk that it is of.
#[derive(Drop)]
pub struct Log {
    shape: Shape,
    // whether the second bank is live
    second: bool,
    // the place of the live bank's closed gate
    closed: u64,
    // the disk's length
    long: u64,
    spent: bool,
    // capacity for the longest cell and a gate
    buffer: Vec<u8>,
    // up to where the other bank is filled, where a rewrite is begun
    filled: Option<u64>,
}

impl Model for Log {
    ghost use Rattle.std.specs.Prelude.{◌≤◌, ◌^◌, ◌+◌, vec_capacity};
    ghost use Rattle.gate_log.specs.Log.{LogTerm};

    ghost Value = { LogTerm };

    ghost view = { λ l. record {
      shape = l.shape;
      second = l.second;
      closed = l.closed;
      long = l.long;
      spent = l.spent;
      filled = l.filled;
    } };

    ghost invariant = { λ l. (l.shape.largest + 6 ≤ vec_capacity l.buffer) × (l.shape.bank ≤ 2 ^ 62)
        × (l.closed + 1 ≤ l.long) };
}

impl Log {
    ghost use Rattle.gate_log.specs.Log.{IsLogOf, HasPutOn, Appended, Put, Finished, begun, capacity_in, capacity_to_put, log_at};
    ghost use Rattle.gate_log.specs.Bytes.{AppendsBytes, PutsBytes, SwitchesBytes};
    ghost use Rattle.gate_log.specs.Calls.{AddsBody, LeavesWithOrWithout, StaysInBank, KeepsBodies, PutsBody, LeavesBodies, TakesPut, LeavesOldOrPut};
    ghost use Rattle.std.specs.Prelude.{vec_capacity};

    /// A log whose closed gate stands at the disk's end.
    pub(crate) fn of(shape: Shape, second: bool, closed: u64, buffer: Vec<u8>) -> Log
        requires fits { closed + 1 < 2 ^ 64 }
        requires buffer { shape.largest + 6 ≤ vec_capacity buffer }
        requires bank { shape.bank ≤ 2 ^ 62 }
        ensures { result ≡ log_at shape second closed }
    {
        Log {
            shape,
            second,
            closed,
            long: closed + 1,
            spent: false,
            buffer,
            filled: None,
        }
    }

    /// Whether a call answered `Disk`. Then no call that changes the disk may follow.
    pub fn is_spent(&self) -> bool
        ensures { result ≡ self.now.spent }
    {
        self.spent
    }

    /// Whether a body of this length fits the live bank.
    pub fn has_room(&self, length: u32) -> bool
        ensures { IsTrue result ↔ (5 + length ≤ capacity_in self.now) }
    {
        let end = begin(self.shape, self.second) + self.shape.bank;
        length as u64 + CELL_HEAD <= end.saturating_sub(self.closed).saturating_sub(1)
    }

    /// Adds a body to the live bank. A rewrite that was begun is given up.
    ///
    /// A crash at any moment leaves the bodies with the new one or without it; after `Ok` it leaves them with the new one.
    /// After an error the log is spent.
    pub fn append<D: Disk>(&mut self, disk: &mut D, body: &[u8]) -> Result<(), LogError>
        requires size { length body.now ≤ self.old.shape.largest }
        requires capacity { need_of body.now ≤ capacity_in self.old }
        requires unspent { self.old.spent ≡ false }
        requires of { (bodies : List (List ℕ)) × IsLogOf D.Disk disk.old self.old bodies }
        ensures answer { Appended self.old body.now (D.faults disk.old) (D.faults disk.new)
            result self.new }
        ensures ok { AddsBody D.Disk disk.old disk.new self.old self.new body.now result }
        ensures bytes { AppendsBytes D.Disk disk.old disk.new self.old body.now result }
        ensures any_moment { LeavesWithOrWithout D.Disk disk.old disk.new self.old body.now }
        ensures same_bank { StaysInBank D.Disk disk.old disk.new self.old }
        ensures count { D.faults disk.old ≤ D.faults disk.new }
    {
        let need = body.len() as u64 + CELL_HEAD;
        self.spent = true; // until the cell is on the disk
        lengthen(&mut self.buffer, body.len() + 5);
        append_cell(disk, self.closed, &mut self.buffer, body)?;
        self.spent = false;
        self.filled = None;
        self.long = max(self.long, self.closed + 1 + need);
        self.closed += need;
        Ok(())
    }

    /// Adds a body to the live bank, as `append` does, but without a copy of a long one. The body is what stands in `head` after its
    /// first four bytes, and then `tail`; one of more than 65,536 bytes is written from where it lies, a shorter one at once.
    ///
    /// Whatever the answer, the body's length stands in those four bytes afterwards, and the rest of `head` is as it was.
    pub fn append_in_place<D: Disk>(
        &mut self,
        disk: &mut D,
        head: &mut [u8],
        tail: &[u8],
    ) -> Result<(), LogError>
        requires whole { 4 ≤ length head.old }
        requires size { length head.old + length tail.now ≤ self.old.shape.largest + 4 }
        requires capacity { length head.old + length tail.now + 1 ≤ capacity_in self.old }
        requires unspent { self.old.spent ≡ false }
        requires of { (bodies : List (List ℕ)) × IsLogOf D.Disk disk.old self.old bodies }
        ensures answer { let body = body_in head.old tail.now in
            Appended self.old body (D.faults disk.old) (D.faults disk.new) result self.new }
        ensures ok { let body = body_in head.old tail.now in
            AddsBody D.Disk disk.old disk.new self.old self.new body result }
        ensures bytes { let body = body_in head.old tail.now in
            AppendsBytes D.Disk disk.old disk.new self.old body result }
        ensures any_moment { let body = body_in head.old tail.now in
            LeavesWithOrWithout D.Disk disk.old disk.new self.old body }
        ensures same_bank { StaysInBank D.Disk disk.old disk.new self.old }
        ensures count { D.faults disk.old ≤ D.faults disk.new }
        ensures left { head.new ++ tail.now ≡ after_gate (body_in head.old tail.now) }
    {
        let need = head.len() as u64 + tail.len() as u64 + 1;
        self.spent = true; // until its gate is open
        lengthen(&mut self.buffer, min(head.len() + tail.len() + 1, AT_ONCE));
        append_cell_in_place(disk, self.closed, &mut self.buffer, head, tail)?;
        self.spent = false;
        self.filled = None;
        self.long = max(self.long, self.closed + 1 + need);
        self.closed += need;
        Ok(())
    }

    /// Begins to write the other bank anew. What was put into it before is given up.
    pub fn begin_rewrite(&mut self)
        requires { self.old.spent ≡ false }
        ensures { self.new ≡ begun self.old }
    {
        self.filled = Some(begin(self.shape, !self.second));
    }

    /// Whether a body of this length fits the other bank, after those that were put since the rewrite was begun.
    pub fn has_room_to_put(&self, length: u32) -> bool
        ensures { IsTrue result ↔ (5 + length ≤ capacity_to_put self.now) }
    {
        let Some(at) = self.filled else {
            return false;
        };
        let end = begin(self.shape, !self.second) + self.shape.bank;
        length as u64 + CELL_HEAD <= end.saturating_sub(at).saturating_sub(1)
    }

    /// Puts a body into the other bank, after those that were put since the rewrite was begun.
    ///
    /// A crash at any moment leaves the bodies of the live bank. After an error the log is spent.
    pub fn put<D: Disk>(&mut self, disk: &mut D, body: &[u8]) -> Result<(), LogError>
        requires size { length body.now ≤ self.old.shape.largest }
        requires capacity { need_of body.now ≤ capacity_to_put self.old }
        requires unspent { self.old.spent ≡ false }
        requires of { (bodies : List (List ℕ)) × IsLogOf D.Disk disk.old self.old bodies }
        requires begun { (put : List (List ℕ)) × HasPutOn D.Disk disk.old self.old put }
        ensures answer { Put self.old body.now (D.faults disk.old) (D.faults disk.new)
            result self.new }
        ensures ok { KeepsBodies D.Disk disk.old disk.new self.old self.new result }
        ensures put { PutsBody D.Disk disk.old disk.new self.old self.new body.now result }
        ensures bytes { PutsBytes D.Disk disk.old disk.new self.old body.now result }
        ensures any_moment { LeavesBodies D.Disk disk.old disk.new self.old }
        ensures count { D.faults disk.old ≤ D.faults disk.new }
    {
        let Some(at) = self.filled else {
            unreachable!()
        };
        let end = at + CELL_HEAD + body.len() as u64;
        self.spent = true;
        let capacity = self.shape.largest as usize + 6;
        lengthen(&mut self.buffer, with_zeros(body.len() + 6, capacity));
        put_cell(disk, &mut self.buffer, self.long, at, body)?;
        self.spent = false;
        self.long = max(max(self.long, at), end + 1);
        self.filled = Some(end);
        Ok(())
    }

    /// Makes the other bank live, with the bodies that were put.
    ///
    /// A crash at any moment leaves the old bodies or those that were put; after `Ok` it leaves these. After an error
    /// the log is spent.
    pub fn finish_rewrite<D: Disk>(&mut self, disk: &mut D) -> Result<(), LogError>
        requires unspent { self.old.spent ≡ false }
        requires of { (bodies : List (List ℕ)) × IsLogOf D.Disk disk.old self.old bodies }
        requires begun { (put : List (List ℕ)) × HasPutOn D.Disk disk.old self.old put }
        ensures answer { Finished self.old (D.faults disk.old) (D.faults disk.new) result self.new }
        ensures ok { TakesPut D.Disk disk.old disk.new self.old self.new result }
        ensures bytes { SwitchesBytes D.Disk disk.old disk.new self.old result }
        ensures any_moment { LeavesOldOrPut D.Disk disk.old disk.new self.old }
        ensures count { D.faults disk.old ≤ D.faults disk.new }
    {
        let Some(at) = self.filled else {
            unreachable!()
        };
        self.spent = true;
        let capacity = self.shape.largest as usize + 6;
        lengthen(&mut self.buffer, with_zeros(1, capacity));
        finish_cells(disk, &mut self.buffer, self.long, at, self.second)?;
        self.spent = false;
        self.second = !self.second;
        self.closed = at;
        self.long = max(self.long, at + 1);
        self.filled = None;
        Ok(())
    }
}
