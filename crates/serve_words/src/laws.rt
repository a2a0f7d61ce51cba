//! Which arguments are taken, and which are refused.
ghost use Rattle.serve_words.specs.Laws.{EightWordsAreTaken, NumbersOutOfRangeAreRefused, WordsThatLackAnOptionAreRefused};

/// The eight arguments, in the order of the program's text, with values that are not empty and do not begin with a hyphen and a
/// number without sign or leading zero, are taken and give these values.
pub fn eight_words_are_taken()
    ensures { EightWordsAreTaken }
{}

/// Arguments none of which names some one of the four options are refused.
pub fn words_that_lack_an_option_are_refused()
    ensures { WordsThatLackAnOptionAreRefused }
{}

/// Arguments that give `--connections` what is no number from 1 to 1,000,000 are refused.
pub fn a_number_out_of_range_is_refused()
    ensures { NumbersOutOfRangeAreRefused }
{}
