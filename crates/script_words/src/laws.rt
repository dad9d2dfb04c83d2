//! Laws of the texts of words, outcomes and numbers, for every value. They speak of no call: the contracts of the
//! calls tie these to the same definitions.

ghost use Rattle.script_words.specs.Laws.{NumbersAgain, OneWord, OneOutcome};

/// A number that was written is read again.
pub fn numbers_are_read_again()
    ensures { NumbersAgain }
{}

/// A text is that of one word at most.
pub fn words_have_their_own_texts()
    ensures { OneWord }
{}

/// A text is that of one outcome at most.
pub fn outcomes_have_their_own_texts()
    ensures { OneOutcome }
{}
