//! The command `check`: how many resources the document of the input has.
ghost use Rattle.std.specs.Prelude.{◌≡◌, IfErr, IfOk, Ok};
ghost use Rattle.lcm_program.specs.Check.{AnswersCheck};
ghost use Rattle.lcm_program.specs.Input.{IsInput, IsUnread};

use crate::input::{Unread, read_document};
use dsc_outside::Source;
use std::alloc::Global;

/// Reads the input to its end, and prints how many resources its document has.
pub fn read_count<S: Source>(alloc: Global, input: &mut S) -> Result<Vec<u8>, Unread>
    ensures ok { IfOk result (λ text. IsInput AnswersCheck (S.left input.old) (Ok text.items)) }
    ensures err { IfErr result (λ e. IsUnread AnswersCheck e (S.left input.old) (S.faults input.old)
        (S.faults input.new)) }
{
    let document = match read_document(alloc, input) {
        Ok(document) => document,
        Err(unread) => return Err(unread),
    };
    let count = document.resources.as_slice().len();
    let mut text = String::new(alloc);
    write!(text, "ok {count}\n")?;
    Ok(text.into_bytes())
}
