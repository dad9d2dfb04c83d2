//! Laws of scenarios that are made from a number, for every number. They speak of no call: the contracts of the calls tie these to the
//! same definitions.

ghost use Rattle.making.specs.Laws.{GoodEndsAreWhole, MadeTextsAgain};

/// The text of the scenario of a number is read as that scenario.
pub fn made_texts_are_read_again()
    ensures { MadeTextsAgain }
{}

/// Where the scenario of a number is run and ends well, the summary says that eight of eight pushes are done.
pub fn good_ends_are_whole()
    ensures { GoodEndsAreWhole }
{}
