//! Where an instance stands.

use std::fmt;

/// An instance of one of several parts.
#[derive(Clone, Copy, Debug, PartialEq, Eq)]
pub struct Spot {
    /// The part, counted from 0.
    pub part: u32,

    /// The place of the instance in that part, counted from 0.
    pub index: u32,
}

impl fmt::Display for Spot {
    fn fmt<W: fmt::Write>(&self, f: &mut fmt::Formatter<W>) -> fmt::Result {
        let Spot { part, index } = self;
        write!(f, "instance {index} of part {part}")
    }
}
