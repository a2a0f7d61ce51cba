//! The laws of a document's way: bytes are read or refused, instances keep the rules or break one, parts are merged or refused.
ghost use Rattle.document_laws.specs.Laws.{BytesHaveOneKindOfAnswer, DocumentsHaveAnAnswer, MergedOrRefused, PartsHaveAnAnswer, WhatIsReadIsNotRefused};

use partial_merge::Part;

/// All bytes are read as instances, or nothing is read of them and a refusal other than Memory refuses them.
pub fn bytes_are_either_read_or_refused()
    ensures { BytesHaveOneKindOfAnswer }
{}

/// To a text that spells instances within the limits no refusal applies, and no refusal but Memory refuses bytes that are
/// read.
pub fn what_is_read_is_not_refused()
    ensures { WhatIsReadIsNotRefused }
{}

/// Instances keep the rules of a part, or a refusal of one of these rules wins; and they keep the rules of a whole
/// document, or a refusal wins.
pub fn instances_keep_the_rules_or_break_one()
    ensures part { PartsHaveAnAnswer }
    ensures document { DocumentsHaveAnAnswer }
{}

/// Parts are merged to a document, or a refusal other than Memory refuses them. By `merge_laws` of `partial_merge` it is one
/// document or one refusal, and never both.
pub fn parts_are_merged_or_refused(parts: &[Part])
    ensures { MergedOrRefused parts.now }
{}
