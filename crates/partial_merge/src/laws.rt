//! Laws of merging. The calls do nothing; their clauses are the laws.
ghost use Rattle.partial_merge.specs.Laws.{AnswersExist, AtMostOneDocument, AtMostOneRefusal, NeverBoth, OnePartRefusals};

use crate::Part;

/// Parts are merged to at most one document, are never both merged and refused, and are refused in at most one way,
/// out of memory aside. Where each part by itself declares a document or has a fault, they are merged or refused.
pub fn merge_laws(parts: &[Part])
    ensures one_document { AtMostOneDocument parts.now }
    ensures never_both { NeverBoth parts.now }
    ensures one_refusal { AtMostOneRefusal parts.now }
    ensures exists { AnswersExist parts.now }
{}

/// One part is never refused for two names or for too many resources, and equal ids in it are a fault of that part.
pub fn one_part_laws(part: &Part)
    ensures { OnePartRefusals part.now }
{}
