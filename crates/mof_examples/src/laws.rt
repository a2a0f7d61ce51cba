//! The examples and the laws.
ghost use Rattle.mof_examples.specs.Separating.{SeparatorExamples};
ghost use Rattle.mof_examples.specs.Identifiers.{IdentifierExamples};
ghost use Rattle.mof_examples.specs.Integers.{IntegerExamples};
ghost use Rattle.mof_examples.specs.Literals.{LiteralExamples};
ghost use Rattle.mof_examples.specs.Rules.{RuleExamples};
ghost use Rattle.mof_examples.specs.Canon.{CanonicalExamples};
ghost use Rattle.mof_examples.specs.Refused.{RefusalExamples};
ghost use Rattle.mof_examples.specs.Placed.{FormExamples, NumberExamples, LongNameExamples, PartExamples, SyntaxExamples, ByteExamples};
ghost use Rattle.mof_examples.specs.Laws.{BytesHaveAnAnswer, BytesHaveOneAnswer, DividesOnce, SpellsOne, FrontsOfFronts, GoesWrongOnce, GoesWrongByTheNext, TextsHaveAnAnswer, WhatIsReadIsInTheGrammar};

pub fn separators_are_spelled()
    ensures { SeparatorExamples }
{}

pub fn identifiers_are_spelled()
    ensures { IdentifierExamples }
{}

pub fn integers_are_spelled()
    ensures { IntegerExamples }
{}

pub fn literals_are_spelled()
    ensures { LiteralExamples }
{}

pub fn rules_hold()
    ensures { RuleExamples }
{}

pub fn canonical_texts_are_these()
    ensures { CanonicalExamples }
{}

pub fn characters_divide_into_tokens_in_one_way()
    ensures { DividesOnce }
{}

pub fn a_text_spells_one_list()
    ensures { SpellsOne }
{}

pub fn a_front_of_a_front_is_one()
    ensures { FrontsOfFronts }
{}

pub fn a_text_goes_wrong_at_one_place()
    ensures once { GoesWrongOnce }
    ensures next { GoesWrongByTheNext }
{}

pub fn a_text_spells_instances_or_is_refused()
    ensures { TextsHaveAnAnswer }
{}

pub fn bytes_are_read_or_refused()
    ensures exists { BytesHaveAnAnswer }
    ensures one { BytesHaveOneAnswer }
    ensures apart { WhatIsReadIsInTheGrammar }
{}

pub fn texts_are_refused_at_their_first_character()
    ensures { RefusalExamples }
{}

pub fn left_out_forms_are_refused_where_they_stand()
    ensures { FormExamples }
{}

pub fn numbers_are_refused_out_of_their_range()
    ensures { NumberExamples }
{}

pub fn identifiers_are_refused_past_their_limit()
    ensures { LongNameExamples }
{}

pub fn parts_are_refused_past_their_limits()
    ensures { PartExamples }
{}

pub fn texts_are_refused_where_they_go_wrong()
    ensures { SyntaxExamples }
{}

pub fn bytes_are_refused()
    ensures { ByteExamples }
{}
