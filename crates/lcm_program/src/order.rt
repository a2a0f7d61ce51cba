//! The command `order`: the ids of the resources of the input's document, in the order of their dependencies.
ghost use Rattle.std.specs.Prelude.{◌≡◌, ◌<◌, All, length, IfErr, IfOk, Ok, string_bytes};
ghost use Rattle.std.specs.List.{flat_map};
ghost use Rattle.lcm_program.specs.Input.{IsInput, IsUnread};
ghost use Rattle.lcm_program.specs.Order.{AnswersOrder, id_line};

use crate::input::{Unread, leave, read_ordered};
use dsc_document::Document;
use dsc_node::id;
use dsc_outside::Source;
use mof_codec::push_literal;
use std::alloc::{AllocError, Global};

/// Reads the input to its end, and prints the ids of its document in the order of their dependencies, a line each.
pub fn read_order<S: Source>(alloc: Global, input: &mut S) -> Result<Vec<u8>, Unread>
    ensures ok { IfOk result (λ text. IsInput AnswersOrder (S.left input.old) (Ok text.items)) }
    ensures err { IfErr result (λ e. IsUnread AnswersOrder e (S.left input.old) (S.faults input.old)
        (S.faults input.new)) }
{
    let ordered = match read_ordered(alloc, input) {
        Ok(ordered) => ordered,
        Err(unread) => return Err(unread),
    };
    let lines = id_lines(alloc, &ordered.document, ordered.order.as_slice())?;
    leave(ordered);
    Ok(lines.into_bytes())
}

// The ids at these places, a line each.
fn id_lines(alloc: Global, document: &Document, places: &[u32]) -> Result<String, AllocError>
    requires known { All (λ place. place < length document.now.resources) places.now }
    ensures { IfOk result (λ text. string_bytes text ≡ flat_map (id_line document.now) places.now) }
{
    let mut text = String::new(alloc);
    for place in places {
        push_literal(&mut text, id(document, *place))?;
        text.push_str("\n")?;
    }
    Ok(text)
}
