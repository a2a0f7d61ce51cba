//! A replay that keeps nothing.
use gate_log::{Replay, TakeError};

/// Takes each body, and keeps none.
#[derive(Drop)]
pub struct Passing;

impl Replay for Passing {
    ghost took = { λ passing bodies. Unit {0} };

    ghost refused = { λ passing bodies body. ⊥ };

    fn take(&mut self, _body: &[u8]) -> Result<(), TakeError> {
        Ok(())
    }
}
