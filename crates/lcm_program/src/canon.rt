//! The command `canon`: the canonical text of the instances that the input spells.
ghost use Rattle.std.specs.Prelude.{◌≡◌, IfErr, IfOk, Ok};
ghost use Rattle.lcm_program.specs.Canon.{AnswersCanon};
ghost use Rattle.lcm_program.specs.Input.{IsInput, IsUnread};

use crate::input::{Unread, read_instances};
use dsc_outside::Source;
use mof_codec::write;
use mof_values::Memory;
use std::alloc::Global;

/// Reads the input to its end, and gives the canonical text of its instances.
pub fn read_canonical<S: Source>(alloc: Global, input: &mut S) -> Result<Vec<u8>, Unread>
    ensures ok { IfOk result (λ text. IsInput AnswersCanon (S.left input.old) (Ok text.items)) }
    ensures err { IfErr result (λ e. IsUnread AnswersCanon e (S.left input.old) (S.faults input.old)
        (S.faults input.new)) }
{
    let instances = match read_instances(alloc, input) {
        Ok(instances) => instances,
        Err(unread) => return Err(unread),
    };
    match write(alloc, &instances) {
        Ok(text) => Ok(text),
        Err(Memory) => Err(Unread::Memory),
    }
}
