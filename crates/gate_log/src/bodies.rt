//! The bodies of a store, kept.
ghost use Rattle.std.specs.Prelude.{◌≡◌, [], List, ℕ, map};

use crate::replay::{Replay, TakeError};
use std::alloc::Global;
use std::marker::Model;

/// Keeps the bodies of a store, in the order in which they were appended, and refuses none.
#[derive(Drop)]
pub struct Bodies {
    alloc: Global,
    kept: Vec<Vec<u8>>,
}

impl Model for Bodies {
    ghost use Rattle.std.specs.Prelude.{List, ℕ, map};

    ghost Value = { List (List ℕ) };

    ghost view = { λ b. map (λ v. v.items) b.kept.items };
}

impl Bodies {
    /// No bodies.
    pub fn new(alloc: Global) -> Bodies
        ensures { result ≡ [] }
    {
        Bodies {
            alloc,
            kept: Vec::new(alloc),
        }
    }

    /// The bodies, in order.
    pub fn as_slice(&self) -> &[Vec<u8>]
        ensures { map (λ v. v.items) result.now ≡ self.now }
    {
        &self.kept
    }
}

impl Replay for Bodies {
    ghost use Rattle.std.specs.Prelude.{◌≡◌, List, ℕ};

    ghost took = { λ kept bodies. kept ≡ bodies };

    ghost refused = { λ kept bodies body. ⊥ };

    fn take(&mut self, body: &[u8]) -> Result<(), TakeError> {
        self.kept.push(body.to_vec(self.alloc)?)?;
        Ok(())
    }
}
