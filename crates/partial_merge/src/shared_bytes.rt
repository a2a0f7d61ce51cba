//! Bytes that several places share.
ghost use Rattle.std.specs.Prelude.{◌≡◌, IfOk};

use mof_values::Bytes;
use std::alloc::{AllocError, Global};
use std::marker::Model;
use std::rc::Rc;

/// A list of bytes, which stands in memory once for all that share it.
#[derive(Debug, Drop)]
pub struct SharedBytes {
    bytes: Rc<Bytes>,
}

impl Model for SharedBytes {
    ghost use Rattle.std.specs.Prelude.{List, ℕ};

    ghost Value = { List ℕ };

    ghost view = { λ s. s.bytes.value };
}

impl SharedBytes {
    /// These bytes. The memory is that of a pointer and two counts, however many bytes there are.
    pub fn of(alloc: Global, bytes: Bytes) -> Result<SharedBytes, AllocError>
        ensures { IfOk result (λ shared. shared ≡ bytes) }
    {
        Ok(SharedBytes {
            bytes: Rc::new(alloc, bytes)?,
        })
    }

    /// The same bytes once more. Takes no memory; refused only where they are shared as often as a `usize` counts.
    pub fn share(&self) -> Result<SharedBytes, AllocError>
        ensures { IfOk result (λ shared. shared ≡ self.now) }
    {
        Ok(SharedBytes {
            bytes: self.bytes.clone()?,
        })
    }

    pub fn as_slice(&self) -> &[u8]
        ensures { result.now ≡ self.now }
    {
        self.bytes.as_slice()
    }
}
