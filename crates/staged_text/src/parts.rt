//! The text of parts.
ghost use Rattle.std.specs.Prelude.{◌≡◌, ◌≢◌, ◌++◌, ℕ, IfErr, IfOk, List, OnOk};
ghost use Rattle.node_state.specs.Sound.{Sound};
ghost use Rattle.std.specs.List.{AllByRecursion};
ghost use Rattle.staged_text.specs.Texts.{AreFurther, AreTextsOf, HasNoText, HasText, IsTextOf, Spells, parts_at};

use crate::ending::Unshown;
use mof_codec::{MofError, read, write};
use mof_values::Memory;
use node_state::{Node, SharedParts, Stage};
use partial_merge::Part;
use std::alloc::Global;

/// The text of the parts that a node has at a stage.
pub fn text_at(alloc: Global, node: &Node, stage: Stage) -> Result<Vec<u8>, Unshown>
    requires { Sound node.now }
    ensures text { IfOk result (λ text. HasText stage node.now text.items) }
    ensures none { IfErr result (HasNoText stage node.now) }
{
    match parts_at(node, stage) {
        Some(parts) => Ok(text_of(alloc, parts.as_slice())?),
        None => Err(Unshown::Empty),
    }
}

fn parts_at(node: &Node, stage: Stage) -> &Option<SharedParts>
    ensures { result.now ≡ parts_at stage node.now }
{
    match stage {
        Stage::Pending => &node.pending,
        Stage::Current => &node.current,
        Stage::Previous => &node.previous,
    }
}

// The texts of the parts, with an empty line between two.
fn text_of(alloc: Global, parts: &[Part]) -> Result<Vec<u8>, Memory>
    requires { AllByRecursion Spells parts.now }
    ensures { IfOk result (λ text. AreTextsOf parts.now text.items) }
{
    let [part, rest @ ..] = parts else {
        return Ok(Vec::new(alloc));
    };
    let mut text = text_of_part(alloc, part)?;
    push_further(alloc, &mut text, rest)?;
    Ok(text)
}

// Appends an empty line and the text of each of these parts.
fn push_further(alloc: Global, text: &mut Vec<u8>, parts: &[Part]) -> Result<(), Memory>
    requires { AllByRecursion Spells parts.now }
    ensures { OnOk result ((further : List ℕ) × AreFurther parts.now further
        × (text.new.items ≡ text.old.items ++ further)) }
{
    let mut left = parts;
    while let [part, rest @ ..] = left {
        let one = text_of_part(alloc, part)?;
        text.push(b'\n')?;
        text.extend_from_slice(&one)?;
        left = rest;
    }
    Ok(())
}

fn text_of_part(alloc: Global, part: &Part) -> Result<Vec<u8>, Memory>
    requires { Spells part.now }
    ensures { IfOk result (λ text. IsTextOf part.now text.items) }
{
    match read(alloc, part.bytes.as_slice()) {
        Ok(instances) => write(alloc, &instances),
        Err(error) => Err(memory_of(error)),
    }
}

// Where no other refusal can be.
fn memory_of(error: MofError) -> Memory
    requires { error ≢ MofError.Memory → ⊥ }
{
    match error {
        MofError::Memory => Memory,
        _ => unreachable!(),
    }
}
