//! The command `compile`: the document that the script in the input gives a node.
ghost use Rattle.std.specs.Prelude.{◌≡◌, ◌≢◌, ◌⊎◌, IfErr, IfOk, Ok};
ghost use Rattle.lcm_program.specs.Compile.{AnswersCompile};
ghost use Rattle.lcm_program.specs.Input.{IsInput, IsUnread};

use crate::input::{Unread, read_within};
use config_script::{CompileError, MAX_SCRIPT, compile};
use dsc_node::InputError;
use dsc_outside::Source;
use mof_values::Text;
use std::alloc::Global;

/// Reads the input to its end, and gives the canonical text of the document that the script in it gives the node.
pub fn read_compiled<S: Source>(
    alloc: Global,
    input: &mut S,
    node: &Text,
) -> Result<Vec<u8>, Unread>
    ensures ok { IfOk result (λ text. IsInput (AnswersCompile node.now) (S.left input.old)
        (Ok text.items)) }
    ensures err { IfErr result (λ e. IsUnread (AnswersCompile node.now) e (S.left input.old)
        (S.faults input.old) (S.faults input.new)) }
{
    let bytes = match read_within(alloc, input, MAX_SCRIPT) {
        Ok(bytes) => bytes,
        Err(unread) => return Err(unread),
    };
    match compile(alloc, &bytes, node) {
        Ok(text) => Ok(text),
        Err(error) => Err(uncompiled(error)),
    }
}

// What a refusal of the script is here.
fn uncompiled(error: CompileError) -> Unread
    ensures { ((error ≡ CompileError.Memory) × (result ≡ Unread.Memory))
        ⊎ ((error ≢ CompileError.Memory) × (result ≡ Unread.Refused
        (InputError.Compile error))) }
{
    match error {
        CompileError::Memory => Unread::Memory,
        _ => Unread::Refused(InputError::Compile(error)),
    }
}
