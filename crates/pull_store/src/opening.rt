//! A store is opened.
ghost use Rattle.std.specs.Prelude.{◌≤◌, IfOk, IfErr};
ghost use Rattle.dsc_outside.specs.Disk.{From};
ghost use Rattle.gate_log.specs.Log.{AtAnyMoment};
ghost use Rattle.pull_store.specs.Stands.{KeepsRows};
ghost use Rattle.pull_store.specs.Store.{IsOpened, Unopened};

use crate::applying::GrowingRows;
use crate::change::Change;
use crate::error::PullError;
use crate::kept_rows::{KeptRows, SHAPE};
use crate::limits::BODY_CAPACITY;
use crate::reading::read_change;
use crate::store::PullStore;
use dsc_outside::Disk;
use gate_log::{LogError, Replay, TakeError, open_kept};
use std::alloc::Global;
use store_fields::FieldError;

/// The rows after the bodies that were read.
#[derive(Drop)]
struct Reader {
    alloc: Global,
    grown: GrowingRows,
}

impl Replay for Reader {
    ghost use Rattle.pull_store.specs.Stands.{EndsAt, Leads};

    ghost took = { λ reader bodies. Leads bodies reader.grown.rows.items };

    ghost refused = { λ reader bodies body. EndsAt bodies body };

    fn take(&mut self, body: &[u8]) -> Result<(), TakeError> {
        let change = match read_change(self.alloc, body) {
            Ok(change) => change,
            Err(FieldError::Wrong) => return Err(TakeError::Refused),
            Err(FieldError::Memory) => return Err(TakeError::Memory),
        };
        match self.grown.refusal(&change) {
            Some(_) => return Err(TakeError::Refused),
            None => {}
        }
        self.grown.apply(self.alloc, change)?;
        Ok(())
    }
}

/// Opens the store of a disk; a file of at most nine bytes becomes a new store.
///
/// After `Ok` the store is of the disk, with the rows that the disk read as. A crash at any moment leaves the rows that an image
/// stood for before.
///
/// # Errors
///
/// `Disk`, where a call of the disk failed; `NotAStore`, at the first byte that fails, and then the file is as it was; `Memory`.
pub fn open_pull<D: Disk>(alloc: Global, disk: &mut D) -> Result<PullStore, PullError>
    ensures opened { IfOk result (IsOpened D.Disk disk.old disk.new) }
    ensures cause { IfErr result (Unopened D.Disk disk.old disk.new) }
    ensures any_moment { AtAnyMoment D.Disk disk.old disk.new (From KeepsRows (D.images disk.old)) }
    ensures count { D.faults disk.old ≤ D.faults disk.new }
{
    let buffer = Vec::with_capacity(alloc, BODY_CAPACITY)?;
    let mut reader = Reader {
        alloc,
        grown: GrowingRows::new(alloc),
    };
    match open_kept::<KeptRows, D, Reader>(alloc, disk, SHAPE, &mut reader) {
        Ok(log) => Ok(PullStore::of(alloc, log, reader.grown.rows, buffer)),
        Err(LogError::Disk) => Err(PullError::Disk),
        Err(LogError::NotAStore { at }) => Err(PullError::NotAStore { at }),
        Err(LogError::Memory) => Err(PullError::Memory),
    }
}
