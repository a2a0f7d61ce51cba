//! The rows, as the bodies of a log keep them.
use crate::limits::{BANK, MAX_BODY};
use crate::row::Row;
use gate_log::{LoggedState, Shape};
use mof_values::Items;

/// The sizes of a store.
pub const SHAPE: Shape = Shape {
    bank: BANK,
    largest: MAX_BODY,
};

/// Rows, to which registrations and reports lead.
pub struct KeptRows;

impl LoggedState for KeptRows {
    ghost use Rattle.pull_store.specs.Sound.{AreRows};
    ghost use Rattle.pull_store.specs.Stands.{Leads, pull_shape};

    type State = Items<Row>;

    ghost shape = { pull_shape };

    ghost leads = { Leads };

    ghost sound = { AreRows };
}
