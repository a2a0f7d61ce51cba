//! Laws of scripts. The calls do nothing; their clauses are the laws.
ghost use Rattle.config_script.specs.Laws.{AddedBlocksChangeNothing, AtMostOneReason, AtMostOneText, NeverBoth, OtherBlocksChangeNothing};

use mof_values::Text;

/// A block that does not name the node changes nothing of what a script gives it.
pub fn other_blocks_change_nothing(node: &Text)
    ensures { OtherBlocksChangeNothing node.now }
{}

/// Blocks that do not name the node, added anywhere to a script, change no answer of `compile` for the bytes, as long as
/// their kinds are known and their properties have free names.
pub fn added_blocks_change_nothing(node: &Text)
    ensures { AddedBlocksChangeNothing node.now }
{}

/// Bytes give the node at most one text, never give it a text and are refused, and are refused for at most one reason.
/// So there is one answer at most, out of memory aside.
pub fn one_answer(node: &Text)
    ensures one_text { AtMostOneText node.now }
    ensures never_both { NeverBoth node.now }
    ensures one_reason { AtMostOneReason node.now }
{}
